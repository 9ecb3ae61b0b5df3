// What an edge event is refused for, tested before the table is touched.
ghost use Rattle.std.specs.Prelude.{◌≡◌, MatchResult};
ghost use Rattle.table.specs.Rule.{rule_number};
ghost use Rattle.anchored.specs.Events.{edge_event, edge_status};
ghost use Rattle.pool.specs.Input.{graph_of};
ghost use Rattle.edit.specs.Edit.{Tabled};
ghost use Rattle.edit.specs.Change.{is_adding};

use crate::edge::Change;
use table::Rule;

// Whether the edge may be added, or dropped; else the rule that it breaks.
pub fn edge_status(
    starts: &[u16],
    links: &[u16],
    change: Change,
    a: usize,
    b: usize,
) -> Result<(), Rule>
    requires { Tabled starts.now links.now (graph_of starts.now links.now) }
    ensures { let status = edge_status (graph_of starts.now links.now) (edge_event (is_adding change) a b) in
        MatchResult result (λ accepted. status ≡ 0) (λ rule. status ≡ rule_number rule) }
{
    if a == b {
        return Err(Rule::Loop);
    }
    let n = starts.len() - 1;
    if n <= a || n <= b {
        return Err(Rule::NoVertex);
    }
    let there = table::part::contains(table::neighbors(starts, links, a), b);
    match change {
        Change::Add if there => Err(Rule::Edge),
        Change::Add if 16382 < starts[n] => Err(Rule::Full),
        Change::Drop if !there => Err(Rule::Edge),
        _ => Ok(()),
    }
}
