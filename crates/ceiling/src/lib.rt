// The ceiling of a search as an operation: it tests its input as the search does, marks apart, then works the ceiling out.
#![tactic(auto)]

ghost use Rattle.std.specs.Prelude.{◌≡◌, Ok, Err};
ghost use Rattle.table.specs.Size.{size_of};
ghost use Rattle.table.specs.Guard.{answer};
ghost use Rattle.anchored.specs.Ceiling.{ceiling as ceiling_in};
ghost use Rattle.pool.specs.Input.{graph_of, anchored_by, Admitted};
ghost use Rattle.ceiling.specs.Answers.{start_of, ceiling_of};

use marking::{test_free, test_vertex};
use pool::input::admit;
use table::{Refusal, Size};

// Refusals 13, 14, 19, 20, 21, 15 and 16 of an admitted input.
fn test_start(
    starts: &[u16],
    links: &[u16],
    anchored: &[u8],
    levels: &[u16],
    layers: &[u16],
    x: usize,
) -> Result<(), Refusal>
    requires { Admitted starts.now links.now anchored.now }
    ensures { result ≡ start_of starts.now links.now anchored.now levels.now layers.now x }
{
    test_vertex(starts, links, anchored, levels, layers, x)?;
    test_free(anchored, x)
}

// The refusals of a call.
fn test_ceiling(
    starts: &[u16],
    links: &[u16],
    anchored: &[u8],
    levels: &[u16],
    layers: &[u16],
    x: usize,
) -> Result<(), Refusal>
    ensures { result ≡ ceiling_of starts.now links.now anchored.now levels.now layers.now x }
{
    admit(starts, links, anchored)?;
    test_start(starts, links, anchored, levels, layers, x)
}

// The ceiling of the search from x, as many vertices, or more, as upstair walks reach, and the size of the table.
pub fn ceiling(
    starts: &[u16],
    links: &[u16],
    anchored: &[u8],
    levels: &[u16],
    layers: &[u16],
    x: usize,
) -> Result<(u16, Size), Refusal>
    ensures { let guard = ceiling_of starts.now links.now anchored.now levels.now layers.now x in
        let G = graph_of starts.now links.now in
        result ≡ answer guard (Ok (ceiling_in G (anchored_by anchored.now) x, size_of starts.now links.now)) Err }
{
    test_ceiling(starts, links, anchored, levels, layers, x)?;
    let bound = walks::bound(starts, links, anchored, levels, layers, x);
    Ok((bound, Size::measure(starts, links)))
}
