// The record of a session after one more request: exactly one turn of the plain session.
#![tactic(auto)]

ghost use Rattle.std.specs.Prelude.{◌≡◌, ◌<◌, get_or};
ghost use Rattle.table.specs.Table.{vertices};
ghost use Rattle.table.specs.Rule.{rule_number};
ghost use Rattle.pool.specs.Input.{graph_of, anchored_by, Admitted};
ghost use Rattle.stale.specs.Columns.{ColumnsOf};
ghost use Rattle.records.specs.Record.{Right};
ghost use Rattle.step.specs.Turn.{accepting, refusing, Turned};
ghost use Rattle.step.specs.Rows.{rows_of, Redone, stale_by, SameElsewhere};

use records::Record;
use table::Rule;

// The three numbers of a request, each lent to C as it stands: 0 and two numbers, or a status above 0 and zeros.
// `accepted` and `refused` below make them.
#[derive(Clone, Copy, Debug, PartialEq, Eq)]
pub struct Row {
    pub status: u16,
    pub lifted: u16,
    pub redone: u16,
}

// What a request leaves.
#[derive(Clone, Copy)]
pub struct Stepped {
    pub kept: Record,
    pub row: Row,
}

impl Stepped {
    // What an accepted request leaves: its record and two numbers.
    pub fn accepted(kept: Record, lifted: u16, redone: u16) -> Stepped
        ensures { result ≡ accepting kept lifted redone }
    {
        Stepped {
            kept,
            row: Row {
                status: 0,
                lifted,
                redone,
            },
        }
    }

    // What a refused one leaves: the record as it was; its status is the number of the rule. Records are lent, here and below: each one
    // passed by value is copied once more.
    pub fn refused(kept: &Record, rule: Rule) -> Stepped
        ensures { result ≡ refusing kept.now (rule_number rule) }
    {
        Stepped {
            kept: *kept,
            row: Row {
                status: rule.number(),
                lifted: 0,
                redone: 0,
            },
        }
    }
}

// Whether the row of u is stale: u is marked, and not anchored.
fn is_stale(anchored: &[u8; 1024], marks: &[u8; 1024], u: usize) -> bool
    requires { u < 1024 }
    ensures { result ≡ stale_by anchored.now marks.now u }
{
    anchored[u] != 1 && marks[u] == 1
}

// The stale rows are counted afresh, with reached counts if the record keeps them, and stamped, and no other; how many they are.
pub fn redo(
    starts: &[u16],
    links: &[u16],
    kept: &mut Record,
    marks: &[u8; 1024],
    position: u16,
) -> usize
    requires admitted { Admitted starts.now links.now kept.old.anchored }
    requires columns_of { ColumnsOf (graph_of starts.now links.now) (anchored_by kept.old.anchored) kept.old.columns }
    ensures rows { let a = kept.old.anchored in
        Redone starts.now links.now a kept.old.reaching (stale_by a marks.now) position (rows_of kept.old) (rows_of kept.new) result (vertices starts.now) }
    ensures rest { SameElsewhere kept.old kept.new }
{
    let mut redone = 0;
    for u in 0..starts.len() - 1 {
        if is_stale(&kept.anchored, marks, u) {
            let counts = records::afresh::count_row(
                starts,
                links,
                &kept.anchored,
                &kept.columns.level,
                &kept.columns.layer,
                u,
                kept.reaching,
            );
            kept.followers[u] = counts.followers;
            kept.reached[u] = counts.reached;
            kept.stamp[u] = position;
            redone += 1;
        }
    }
    redone
}

// x, not anchored, is anchored too.
fn accept(starts: &[u16], links: &[u16], kept: &Record, x: usize, position: u16) -> Stepped
    requires right { Right starts.now links.now kept.now }
    requires x_bound { x < vertices starts.now }
    requires x_value { get_or kept.now.anchored x 0 ≡ 0 }
    ensures { Turned starts.now links.now position x kept.now result }
{
    let mut next = *kept;
    next.anchored[x] = 1;
    next.columns = records::afresh::refresh(starts, links, &next.anchored);
    let mut marks = [0; 1024];
    stale::mark_stale(
        starts,
        links,
        &kept.columns,
        &next.columns,
        &[0; 1024],
        &mut marks,
    );
    let redone = redo(starts, links, &mut next, &marks, position);
    next.followers[x] = 65535;
    next.reached[x] = 65535;
    next.stamp[x] = position;
    Stepped::accepted(next, kept.followers[x], redone as u16)
}

// One request on a record that is right: refused for no vertex or an anchored one, and else accepted.
pub fn step(starts: &[u16], links: &[u16], kept: &Record, x: usize, position: u16) -> Stepped
    requires { Right starts.now links.now kept.now }
    ensures { Turned starts.now links.now position x kept.now result }
{
    if starts.len() - 1 <= x {
        return Stepped::refused(kept, Rule::NoVertex);
    }
    if kept.anchored[x] == 1 {
        return Stepped::refused(kept, Rule::Anchored);
    }
    accept(starts, links, kept, x, position)
}
