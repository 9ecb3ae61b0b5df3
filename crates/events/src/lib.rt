// One event on a table and a record: a vertex is anchored, or an edge is added or dropped. Exactly one turn of the plain session.
#![tactic(auto)]

ghost use Rattle.std.specs.Prelude.{◌<◌};
ghost use Rattle.table.specs.Table.{vertices, SoundTable};
ghost use Rattle.anchored.specs.Events.{event_of, edge_event};
ghost use Rattle.pool.specs.Input.{graph_of, Admitted};
ghost use Rattle.edit.specs.Edit.{Tabled};
ghost use Rattle.edit.specs.Change.{is_adding};
ghost use Rattle.records.specs.Record.{Right};
ghost use Rattle.events.specs.Turn.{Turned};
ghost use Rattle.events.specs.Renew.{Finds, Renews};

use edit::edge::Change;
use kind::Kind;
use records::Record;
use step::Stepped;

mod kind; // the kinds of events

// Marks the rows that an edge between a and b, new or gone, makes stale: the columns and bare levels of `next` are those of the table as it stands.
fn mark_rows(
    starts: &[u16],
    links: &[u16],
    kept: &Record,
    next: &Record,
    a: usize,
    b: usize,
    marks: &mut [u8; 1024],
)
    requires sound_table { SoundTable starts.now links.now }
    requires a_bound { a < vertices starts.now }
    requires b_bound { b < vertices starts.now }
    ensures { Finds starts.now links.now a b kept.now next.now.columns next.now.bare marks.new }
{
    let n = starts.len() - 1;
    let mut bound = [0; 1024];
    stale::mark_edge(
        n,
        &kept.columns,
        &next.columns,
        &kept.bare,
        &next.bare,
        a,
        b,
        &mut bound,
        marks,
    );
    stale::mark_stale(starts, links, &kept.columns, &next.columns, &bound, marks);
}

// The record for a table in which the edge between a and b is new or gone: the rows that it makes stale are counted afresh and stamped.
fn renew(starts: &[u16], links: &[u16], kept: &Record, a: usize, b: usize, position: u16) -> Stepped
    requires admitted { Admitted starts.now links.now kept.now.anchored }
    requires a_bound { a < vertices starts.now }
    requires b_bound { b < vertices starts.now }
    ensures { Renews starts.now links.now a b position kept.now result }
{
    let mut next = *kept;
    next.columns = records::afresh::refresh(starts, links, &kept.anchored);
    records::afresh::fill_bare(starts, links, &mut next.bare);
    let mut marks = [0; 1024];
    mark_rows(starts, links, kept, &next, a, b, &mut marks);
    let redone = step::redo(starts, links, &mut next, &marks, position);
    Stepped::accepted(next, 0, redone as u16)
}

// The edge between a and b is added or dropped, or the event is refused.
fn change_edge(
    starts: &mut [u16],
    links: &mut [u16],
    kept: &Record,
    change: Change,
    a: usize,
    b: usize,
    position: u16,
) -> Stepped
    requires tabled { Tabled starts.old links.old (graph_of starts.old links.old) }
    requires right { Right starts.old links.old kept.now }
    ensures { Turned starts.old links.old position (edge_event (is_adding change) a b) kept.now starts.new links.new result }
{
    if let Err(rule) = edit::status::edge_status(starts, links, change, a, b) {
        return Stepped::refused(kept, rule);
    }
    edit::edge::edit(starts, links, change, a, b);
    renew(starts, links, kept, a, b, position)
}

// One event: 10 for a kind above 2, then what anchoring refuses, or adding and dropping an edge; else it is accepted.
pub fn turn(
    starts: &mut [u16],
    links: &mut [u16],
    kept: &Record,
    kind: u16,
    first: usize,
    second: usize,
    position: u16,
) -> Stepped
    requires tabled { Tabled starts.old links.old (graph_of starts.old links.old) }
    requires right { Right starts.old links.old kept.now }
    ensures { Turned starts.old links.old position (event_of kind first second) kept.now starts.new links.new result }
{
    match Kind::try_from(kind) {
        Ok(Kind::Anchor) => step::step(starts, links, kept, first, position),
        Ok(Kind::Edge(change)) => change_edge(starts, links, kept, change, first, second, position),
        Err(rule) => Stepped::refused(kept, rule),
    }
}
