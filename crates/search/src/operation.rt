// The follower search as an operation: it tests its input, then marks the candidates and the followers of a vertex.
ghost use Rattle.std.specs.Prelude.{◌≡◌, ◌<◌, length, get_or};
ghost use Rattle.table.specs.Table.{vertices};
ghost use Rattle.table.specs.Size.{size_of};
ghost use Rattle.table.specs.Guard.{held};
ghost use Rattle.pool.specs.Input.{Admitted};
ghost use Rattle.level_sheet.specs.SheetCheck.{Accepted};
ghost use Rattle.search.specs.Answers.{search_of, counts_of, followers_of, marks_of};

use crate::find::{Found, search};
use marking::{test_free, test_marking};
use table::{Refusal, Size};

// The refusals of a search with `room` places for marks.
fn test_search(
    starts: &[u16],
    links: &[u16],
    anchored: &[u8],
    levels: &[u16],
    layers: &[u16],
    x: usize,
    room: usize,
) -> Result<(), Refusal>
    ensures { result ≡ search_of starts.now links.now anchored.now levels.now layers.now x room }
{
    test_marking(starts, links, anchored, levels, layers, x, room)?;
    test_free(anchored, x)
}

// The search from x, which is not anchored, on the defined sheet.
fn write_marks(
    starts: &[u16],
    links: &[u16],
    anchored: &[u8],
    levels: &[u16],
    layers: &[u16],
    x: usize,
    marks: &mut [u8],
) -> (Found, Size)
    requires admitted { Admitted starts.now links.now anchored.now }
    requires accepted { Accepted starts.now links.now anchored.now levels.now layers.now }
    requires x_bound { (x < vertices starts.now) × (get_or anchored.now x 0 ≡ 0) }
    requires marks_len { length marks.old ≡ vertices starts.now }
    ensures answer { result ≡ (counts_of starts.now links.now anchored.now x, size_of starts.now links.now) }
    ensures marks { marks.new ≡ marks_of starts.now links.now anchored.now x }
{
    let mut mark = [0u8; 1024];
    let found = search(starts, links, anchored, levels, layers, x, &mut mark);
    pool::lent::copy(&mark, marks);
    (found, Size::measure(starts, links))
}

// Marks those that follow x (2) and the other candidates (1), and counts both; a refusal leaves the marks as they are.
pub fn followers(
    starts: &[u16],
    links: &[u16],
    anchored: &[u8],
    levels: &[u16],
    layers: &[u16],
    x: usize,
    marks: &mut [u8],
) -> Result<(Found, Size), Refusal>
    ensures answer { result ≡ followers_of starts.now links.now anchored.now levels.now layers.now x (length marks.old) }
    ensures marks { let guard = search_of starts.now links.now anchored.now levels.now layers.now x (length marks.old) in
        marks.new ≡ held guard (marks_of starts.now links.now anchored.now x) marks.old }
{
    test_search(starts, links, anchored, levels, layers, x, marks.len())?;
    Ok(write_marks(starts, links, anchored, levels, layers, x, marks))
}
