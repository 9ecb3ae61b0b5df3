// Lists and lent slices: their lengths, a number that is too great, refusal 12, and what is copied into them.
ghost use Rattle.std.specs.Prelude.{◌≡◌, ◌≤◌, length, take, eqb};
ghost use Rattle.finite.specs.Search.{all, found};
ghost use Rattle.pool.specs.Lengths.{outside, slices_of};

use crate::input::admit;
use table::{Refusal, Rule};

// Whether every length is n.
pub fn all_are(lengths: &[usize], n: usize) -> bool
    ensures { result ≡ all (eqb n) lengths.now }
{
    lengths.iter().all(|length| n == *length)
}

// The place of the first number that is not below a bound.
pub fn first_outside(numbers: &[u16], bound: usize) -> Option<usize>
    ensures { result ≡ found (outside bound numbers.now) (length numbers.now) }
{
    numbers.iter().position(|number| bound <= *number as usize)
}

// Refusals 1 to 10, and 12 for lent slices of which not all are of n.
pub fn admit_slices(
    starts: &[u16],
    links: &[u16],
    anchored: &[u8],
    lengths: &[usize],
) -> Result<(), Refusal>
    ensures { result ≡ slices_of starts.now links.now anchored.now lengths.now }
{
    admit(starts, links, anchored)?;
    if all_are(lengths, starts.len() - 1) {
        return Ok(());
    }
    Err(Refusal::new(Rule::Lent, 0))
}

// Copies as many items as the slice has places.
pub fn copy<T: Copy>(items: &[T], to: &mut [T])
    requires { length to.old ≤ length items.now }
    ensures { to.new ≡ take (length to.old) items.now }
{
    to.copy_from_slice(&items[..to.len()]);
}
