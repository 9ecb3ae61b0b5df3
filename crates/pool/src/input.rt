// What the operations on levels are handed: the table and a byte for each vertex.
ghost use Rattle.std.specs.Prelude.{◌≡◌, length, get_or, ltb};
ghost use Rattle.finite.specs.Search.{found};
ghost use Rattle.pool.specs.Input.{admit_of};

use table::{Refusal, Rule, refuse, test_table};

// The first byte above 1.
pub fn first_bad_byte(anchored: &[u8]) -> Option<usize>
    ensures { result ≡ found (λ v. ltb 1 (get_or anchored.now v 0)) (length anchored.now) }
{
    anchored.iter().position(|byte| 1 < *byte)
}

// Refusals 1 to 10.
pub fn admit(starts: &[u16], links: &[u16], anchored: &[u8]) -> Result<(), Refusal>
    ensures { result ≡ admit_of starts.now links.now anchored.now }
{
    test_table(starts, links)?;
    if anchored.len() != starts.len() - 1 {
        return Err(Refusal::new(Rule::Length, 0));
    }
    refuse(Rule::Byte, first_bad_byte(anchored))
}
