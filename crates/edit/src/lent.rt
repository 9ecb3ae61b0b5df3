// The table lent for writing: its check, and the zeros past its last start.
ghost use Rattle.std.specs.Prelude.{◌≡◌};
ghost use Rattle.table.specs.Guard.{clear};
ghost use Rattle.pool.specs.Input.{graph_of};
ghost use Rattle.edit.specs.Edit.{Tabled};
ghost use Rattle.edit.specs.Lent.{check_lent};

use table::{Refusal, Rule, test_table};

// Refusals 1 to 8, with 12 for link places that are not 16,384 between 2 and 3.
#[tactic(auto, using(crate::proofs::Checked::links_decide), unfolding(crate::specs::Lent::check_lent))]
pub fn check_lent(starts: &[u16], links: &[u16]) -> Result<(), Refusal>
    ensures { result ≡ check_lent starts.now links.now }
{
    if starts.is_empty() {
        return Err(Refusal::new(Rule::NoStarts, 0));
    }
    let n = starts.len() - 1;
    if 1024 < n {
        return Err(Refusal::new(Rule::ManyVertices, 0));
    }
    let last = starts[n] as usize;
    if links.len() != 16384 {
        return Err(Refusal::new(Rule::Lent, 0));
    }
    if 16384 < last {
        return Err(Refusal::new(Rule::ManyLinks, 0));
    }
    test_table(starts, &links[..last])
}

// Stores 0 in every place past the last start, whatever the caller left there. The table's graph stays.
pub fn zero_behind(starts: &[u16], links: &mut [u16])
    requires { check_lent starts.now links.old ≡ clear }
    ensures { Tabled starts.now links.new (graph_of starts.now links.old) }
{
    let last = starts[starts.len() - 1] as usize;
    links[last..].fill(0);
}
