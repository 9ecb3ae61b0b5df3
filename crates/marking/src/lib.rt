// What an operation that is handed a level sheet and a vertex refuses, one that marks vertices besides, and an anchored vertex.
#![tactic(auto)]

ghost use Rattle.std.specs.Prelude.{◌≡◌, ◌<◌, length};
ghost use Rattle.pool.specs.Input.{Admitted};
ghost use Rattle.marking.specs.Marking.{vertex_of, guard_of_free, marking_of};

use level_sheet::check::test_sheet;
use pool::input::admit;
use table::{Refusal, Rule};

// Refusals 13, 14, 19, 20, 21 and 15 of an admitted input.
pub fn test_vertex(
    starts: &[u16],
    links: &[u16],
    anchored: &[u8],
    levels: &[u16],
    layers: &[u16],
    x: usize,
) -> Result<(), Refusal>
    requires { Admitted starts.now links.now anchored.now }
    ensures { result ≡ vertex_of starts.now links.now anchored.now levels.now layers.now x }
{
    test_sheet(starts, links, anchored, levels, layers)?;
    if starts.len() - 1 <= x {
        return Err(Refusal::new(Rule::NoVertex, x));
    }
    Ok(())
}

// Refusal 16 of an anchored x.
pub fn test_free(anchored: &[u8], x: usize) -> Result<(), Refusal>
    requires { x < length anchored.now }
    ensures { result ≡ guard_of_free anchored.now x }
{
    if anchored[x] == 1 {
        return Err(Refusal::new(Rule::Anchored, x));
    }
    Ok(())
}

// The refusals of an operation with `room` places for marks.
pub fn test_marking(
    starts: &[u16],
    links: &[u16],
    anchored: &[u8],
    levels: &[u16],
    layers: &[u16],
    x: usize,
    room: usize,
) -> Result<(), Refusal>
    ensures { result ≡ marking_of starts.now links.now anchored.now levels.now layers.now x room }
{
    admit(starts, links, anchored)?;
    if room != starts.len() - 1 {
        return Err(Refusal::new(Rule::Lent, 0));
    }
    test_vertex(starts, links, anchored, levels, layers, x)
}
