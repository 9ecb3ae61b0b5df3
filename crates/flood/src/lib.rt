// Components: a flood from each vertex that has no number yet, in ascending order, through vertices of one level.
#![tactic(auto)]

ghost use Rattle.std.specs.Prelude.{◌≡◌, ◌+◌, ◌≤◌, ◌<◌, length, get_or, set};
ghost use Rattle.table.specs.Table.{vertices, neighbors};
ghost use Rattle.anchored.specs.Component.{component as component_of};
ghost use Rattle.pool.specs.Input.{graph_of, anchored_by};
ghost use Rattle.pool.specs.Arrays.{Holds};
ghost use Rattle.pool.specs.Sheet.{Leveled};
ghost use Rattle.flood.specs.Numbering.{SameNumbers, CanVisitFrom, VisitsFrom, CanSpreadFrom, SpreadsFrom};

// The numbers given so far. The array `pending` has the level of a vertex without a number and 65,535 for any other, so that one test
// tells who joins a flood; the queue holds the vertices that have a number: `tail` of them.
#[derive(Drop)]
struct Numbering<'a> {
    pending: [u16; 1024],
    component: &'a mut [u16; 1024],
    queue: [u16; 1024],
    tail: usize,
}

impl<'a> Numbering<'a> {
    // Gives w the number of the flood from `start`, and this place in the queue. The end of the queue is the caller's to move, which
    // keeps it at hand in its loop.
    fn number(&mut self, w: usize, start: usize, place: usize)
        requires bounds { (w < 1024) × (start < 1024) × (place < 1024) }
        ensures same_numbers { SameNumbers self.old self.new }
        ensures pending { self.new.pending ≡ set self.old.pending w 65535 }
        ensures component { self.new.component.now ≡ set self.old.component.now w start }
        ensures queue { self.new.queue ≡ set self.old.queue place w }
        ensures tail { self.new.tail ≡ self.old.tail }
    {
        self.pending[w] = 65535;
        self.component[w] = start as u16;
        self.queue[place] = w as u16;
    }

    // Numbers the neighbors of u that join it, of level k and without a number, and puts them at the end of the queue.
    fn visit(&mut self, starts: &[u16], links: &[u16], k: u16, start: usize, u: usize)
        requires { CanVisitFrom starts.now links.now self.old k start u }
        ensures same_numbers { SameNumbers self.old self.new }
        ensures visits { VisitsFrom starts.now links.now self.old self.new k start u (neighbors starts.now links.now u) }
    {
        let part = table::neighbors(starts, links, u);
        let mut end = self.tail;
        for neighbor in part {
            let w = *neighbor as usize;
            if self.pending[w] == k {
                self.number(w, start, end);
                end += 1;
            }
        }
        self.tail = end;
    }

    // The flood from a vertex that is not anchored and has no number.
    fn spread(&mut self, starts: &[u16], links: &[u16], start: usize)
        requires { CanSpreadFrom starts.now links.now self.old start }
        ensures same_numbers { SameNumbers self.old self.new }
        ensures spreads { SpreadsFrom starts.now links.now self.old self.new start }
    {
        let k = self.pending[start];
        let mut head = self.tail;
        self.number(start, start, head);
        self.tail += 1;
        // The queue grows while it is read.
        while head < self.tail {
            let u = self.queue[head] as usize;
            self.visit(starts, links, k, start, u);
            head += 1;
        }
    }
}

// The first n levels: no vertex has a number yet.
fn pend(level: &[u16], n: usize, pending: &mut [u16; 1024])
    requires { (n ≤ length level.now) × (n ≤ 1024) }
    ensures { (length pending.new ≡ 1024) × Holds pending.new n (λ v. get_or level.now v 0) }
{
    pending[..n].copy_from_slice(&level[..n]);
}

// The component number of every vertex, into the first n places; 65,535 for an anchored one. `level` holds the levels.
pub fn flood(
    starts: &[u16],
    links: &[u16],
    anchored: &[u8],
    level: &[u16],
    component: &mut [u16; 1024],
)
    requires { Leveled starts.now links.now anchored.now level.now }
    ensures { Holds component.new (vertices starts.now) (component_of (graph_of starts.now links.now) (anchored_by anchored.now)) }
{
    let n = starts.len() - 1;
    component.fill(65535);
    let mut numbering = Numbering {
        pending: [0; 1024],
        component,
        queue: [0; 1024],
        tail: 0,
    };
    pend(level, n, &mut numbering.pending);
    for start in 0..n {
        if anchored[start] == 0 && numbering.component[start] == 65535 {
            numbering.spread(starts, links, start);
        }
    }
}
