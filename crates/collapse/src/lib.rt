// A collapse as an operation: it tests its input, then marks those whose level falls when x and its edges are gone.
#![tactic(auto)]

ghost use Rattle.std.specs.Prelude.{◌≡◌, ◌≤◌, ◌<◌, length, Ok, Err};
ghost use Rattle.finite.specs.Count.{tabulate};
ghost use Rattle.table.specs.Table.{vertices};
ghost use Rattle.table.specs.Size.{size_of};
ghost use Rattle.table.specs.Guard.{answer, held};
ghost use Rattle.marking.specs.Marking.{marking_of};
ghost use Rattle.pool.specs.Sheet.{Leveled};
ghost use Rattle.cascade.specs.Cascade.{fell_by};
ghost use Rattle.collapse.specs.Answers.{fall_marks_of};

use table::{Refusal, Size};

// Marks with 1 those for whom fewer are kept than their level, and with 0 all others.
fn copy_falls(levels: &[u16], support: &[u16; 1024], marks: &mut [u8])
    requires marks_in_bounds { length marks.old ≤ length levels.now }
    requires marks_len_bound { length marks.old ≤ 1024 }
    ensures { marks.new ≡ tabulate (fell_by levels.now support.now) (length marks.old) }
{
    for (v, mark) in marks.iter_mut().enumerate() {
        *mark = (support[v] < levels[v]) as u8;
    }
}

// The marks of a collapse of x, on the defined levels.
fn write_falls(
    starts: &[u16],
    links: &[u16],
    anchored: &[u8],
    levels: &[u16],
    x: usize,
    marks: &mut [u8],
)
    requires leveled { Leveled starts.now links.now anchored.now levels.now }
    requires x_bound { x < vertices starts.now }
    requires marks_len { length marks.old ≡ vertices starts.now }
    ensures { marks.new ≡ fall_marks_of starts.now links.now anchored.now x }
{
    let mut support = [0u16; 1024];
    cascade::cascade(starts, links, anchored, levels, x, &mut support);
    copy_falls(levels, &support, marks);
}

// Marks those whose level falls when x, anchored or not, and its edges are gone; a refusal leaves the marks as they are.
pub fn collapse(
    starts: &[u16],
    links: &[u16],
    anchored: &[u8],
    levels: &[u16],
    layers: &[u16],
    x: usize,
    marks: &mut [u8],
) -> Result<Size, Refusal>
    ensures { let guard = marking_of starts.now links.now anchored.now levels.now layers.now x (length marks.old) in
        (result ≡ answer guard (Ok (size_of starts.now links.now)) Err)
        × (marks.new ≡ held guard (fall_marks_of starts.now links.now anchored.now x) marks.old) }
{
    marking::test_marking(starts, links, anchored, levels, layers, x, marks.len())?;
    write_falls(starts, links, anchored, levels, x, marks);
    Ok(Size::measure(starts, links))
}
