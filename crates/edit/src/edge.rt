// An edge added to the lent table in place, or dropped from it: two links.
ghost use Rattle.anchored.specs.Events.{edge_event, Editable, edge_graph};
ghost use Rattle.pool.specs.Input.{graph_of};
ghost use Rattle.edit.specs.Edit.{Tabled};
ghost use Rattle.edit.specs.Change.{is_adding};

use crate::link;

// What an event does to its edge.
#[derive(Clone, Copy, Debug, PartialEq, Eq)]
pub enum Change {
    Add,
    Drop,
}

// Adds the edge between a and b, or drops it; the table stays one, of the graph with that edge or without it.
pub fn edit(starts: &mut [u16], links: &mut [u16], change: Change, a: usize, b: usize)
    requires tabled { Tabled starts.old links.old (graph_of starts.old links.old) }
    requires editable { Editable (graph_of starts.old links.old) (edge_event (is_adding change) a b) }
    ensures { Tabled starts.new links.new (edge_graph (graph_of starts.old links.old) (edge_event (is_adding change) a b)) }
{
    match change {
        Change::Add => {
            link::put(starts, links, a, b as u16);
            link::put(starts, links, b, a as u16);
        }
        Change::Drop => {
            link::take(starts, links, a, b as u16);
            link::take(starts, links, b, a as u16);
        }
    }
}
