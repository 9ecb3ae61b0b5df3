// The candidates of a vertex: those that an upstair walk from it reaches, put into a queue one after the other.
#![tactic(auto)]

ghost use Rattle.std.specs.Prelude.{◌≡◌, ◌+◌, ◌≤◌, ◌<◌, length, set, take, replicate};
ghost use Rattle.table.specs.Table.{vertices, neighbors as neighbors_of};
ghost use Rattle.pool.specs.Sheet.{Sheet};
ghost use Rattle.candidates.specs.Reaching.{is_first, steps_of, visit_all, Queued, Reached};

use pool::pair::is_above;

// Which step of a walk: the first may change the level, a further one may not.
#[derive(Clone, Copy, Debug, PartialEq, Eq)]
pub enum Step {
    First,
    Further,
}

// Vertices in the order in which they were put: the first `tail` places.
#[derive(Drop)]
pub struct Queue {
    pub places: [u16; 1024],
    pub tail: usize,
}

impl Queue {
    // An empty queue.
    pub fn new() -> Self
        ensures places { result.places ≡ replicate 1024 0 }
        ensures tail { result.tail ≡ 0 }
    {
        Queue {
            places: [0; 1024],
            tail: 0,
        }
    }

    // The vertices in it.
    pub fn as_slice(&self) -> &[u16]
        requires { self.now.tail ≤ 1024 }
        ensures { result.now ≡ take self.now.tail self.now.places }
    {
        &self.places[..self.tail]
    }

    // Puts v at the end.
    pub fn push(&mut self, v: u16)
        requires { self.old.tail < 1024 }
        ensures places { self.new.places ≡ set self.old.places self.old.tail v }
        ensures tail { self.new.tail ≡ self.old.tail + 1 }
    {
        let tail = self.tail; // read once, not again after the write
        self.places[tail] = v;
        self.tail = tail + 1;
    }
}

// Empties the queue, then puts the candidates into it and marks them 2.
pub fn reach(
    starts: &[u16],
    links: &[u16],
    anchored: &[u8],
    levels: &[u16],
    layers: &[u16],
    x: usize,
    marks: &mut [u8; 1024],
    queue: &mut Queue,
)
    requires sheet { Sheet starts.now links.now anchored.now levels.now layers.now }
    requires x_bound { x < vertices starts.now }
    requires queued { Queued (vertices starts.now) marks.old queue.old.places 0 }
    ensures { Reached starts.now links.now anchored.now x marks.new queue.new.places queue.new.tail }
{
    queue.tail = 0;
    expand(
        starts,
        links,
        anchored,
        levels,
        layers,
        Step::First,
        x,
        marks,
        queue,
    );
    let mut head: usize = 0;
    // The queue grows while it is read.
    while head < queue.tail {
        let u = queue.places[head] as usize;
        expand(
            starts,
            links,
            anchored,
            levels,
            layers,
            Step::Further,
            u,
            marks,
            queue,
        );
        head += 1;
    }
}

// Puts the vertices that a walk steps to from u, and that are not marked yet, at the queue's end, and marks them.
fn expand(
    starts: &[u16],
    links: &[u16],
    anchored: &[u8],
    levels: &[u16],
    layers: &[u16],
    step: Step,
    u: usize,
    marks: &mut [u8; 1024],
    queue: &mut Queue,
)
    requires sheet { Sheet starts.now links.now anchored.now levels.now layers.now }
    requires u_bound { u < vertices starts.now }
    requires queued_2 { Queued (vertices starts.now) marks.old queue.old.places queue.old.tail }
    ensures queued { Queued (vertices starts.now) marks.new queue.new.places queue.new.tail }
    ensures pushed { let passes = steps_of anchored.now levels.now layers.now (is_first step) u in
        take queue.new.tail queue.new.places ≡ visit_all passes (take queue.old.tail queue.old.places) (neighbors_of starts.now links.now u) }
{
    for next in table::neighbors(starts, links, u) {
        let w = *next as usize;
        if steps(anchored, levels, layers, step, u, w) && marks[w] == 0 {
            marks[w] = 2;
            queue.push(*next);
        }
    }
}

// Whether a walk steps from u to w; the first step may change the level.
#[tactic(auto, unfolding(crate::specs::Reaching::steps_of))]
pub fn steps(
    anchored: &[u8],
    levels: &[u16],
    layers: &[u16],
    step: Step,
    u: usize,
    w: usize,
) -> bool
    requires w_in_bounds { w < length anchored.now }
    requires w_in_bounds_2 { w < length levels.now }
    requires w_in_bounds_3 { w < length layers.now }
    requires u_in_bounds { u < length levels.now }
    requires u_in_bounds_2 { u < length layers.now }
    ensures { result ≡ steps_of anchored.now levels.now layers.now (is_first step) u w }
{
    anchored[w] == 0
        && (matches!(step, Step::First) || levels[w] == levels[u])
        && is_above(levels, layers, w, u)
}
