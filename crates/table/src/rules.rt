// The rules of starts and of one vertex's neighbors, and the first start or vertex that breaks one.
ghost use Rattle.std.specs.Prelude.{◌≡◌, ◌<◌, length};
ghost use Rattle.finite.specs.Search.{found, NoneBelow};
ghost use Rattle.table.specs.Table.{vertices, bad_start, beyond, looped, unsorted, unreturned, Framed};

use crate::neighbors;
use crate::part::{contains, count_at_least, is_ascending};

// Whether start `i` is bad: not the number of links at the last, not 0 at the first, or below the one before.
fn is_bad_start(starts: &[u16], links: &[u16], i: usize) -> bool
    requires { i < length starts.now }
    ensures { result ≡ bad_start starts.now links.now i }
{
    let wrong_end = i + 1 == starts.len() && starts[i] as usize != links.len();
    let wrong_step = if i == 0 {
        starts[i] != 0
    } else {
        starts[i] < starts[i - 1]
    };
    wrong_end || wrong_step
}

// The first bad start.
pub fn first_bad_start(starts: &[u16], links: &[u16]) -> Option<usize>
    ensures { result ≡ found (bad_start starts.now links.now) (length starts.now) }
{
    (0..starts.len()).find(|i| is_bad_start(starts, links, *i))
}

// Whether v has a link of n or more.
pub fn is_beyond(starts: &[u16], links: &[u16], v: usize) -> bool
    requires framed { Framed starts.now links.now }
    requires v_bound { v < vertices starts.now }
    ensures { result ≡ beyond starts.now links.now v }
{
    0 < count_at_least(neighbors(starts, links, v), starts.len() - 1)
}

// Whether v links to itself.
pub fn is_looped(starts: &[u16], links: &[u16], v: usize) -> bool
    requires framed { Framed starts.now links.now }
    requires v_bound { v < vertices starts.now }
    ensures { result ≡ looped starts.now links.now v }
{
    let part = neighbors(starts, links, v);
    count_at_least(part, v + 1) < count_at_least(part, v)
}

// Whether the links of v are not strictly ascending.
pub fn is_unsorted(starts: &[u16], links: &[u16], v: usize) -> bool
    requires framed { Framed starts.now links.now }
    requires v_bound { v < vertices starts.now }
    ensures { result ≡ unsorted starts.now links.now v }
{
    !is_ascending(neighbors(starts, links, v))
}

// Whether a neighbor does not list v.
fn is_unreturned(starts: &[u16], links: &[u16], v: usize) -> bool
    requires framed { Framed starts.now links.now }
    requires in_range { NoneBelow (beyond starts.now links.now) (vertices starts.now) }
    requires sorted { NoneBelow (unsorted starts.now links.now) (vertices starts.now) }
    requires v_bound { v < vertices starts.now }
    ensures { result ≡ unreturned starts.now links.now v }
{
    for u in neighbors(starts, links, v) {
        if !contains(neighbors(starts, links, *u as usize), v) {
            return true;
        }
    }
    false
}

// The lowest vertex that a neighbor does not list.
pub fn first_unreturned(starts: &[u16], links: &[u16]) -> Option<usize>
    requires framed { Framed starts.now links.now }
    requires in_range { NoneBelow (beyond starts.now links.now) (vertices starts.now) }
    requires sorted { NoneBelow (unsorted starts.now links.now) (vertices starts.now) }
    ensures { result ≡ found (unreturned starts.now links.now) (vertices starts.now) }
{
    for v in 0..starts.len() - 1 {
        if is_unreturned(starts, links, v) {
            return Some(v);
        }
    }
    None
}
