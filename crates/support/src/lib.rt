// The support of the candidates: counted, and those of too little struck out until all others have enough.
#![tactic(auto)]

ghost use Rattle.std.specs.Prelude.{◌≡◌, ℕ, ◌≤◌, ◌<◌, length, get_or, take, replicate};
ghost use Rattle.finite.specs.Count.{count, In};
ghost use Rattle.finite.specs.Search.{member};
ghost use Rattle.table.specs.Table.{vertices, neighbors as neighbors_of, SoundTable};
ghost use Rattle.pool.specs.Sheet.{Leveled};
ghost use Rattle.candidates.specs.Reaching.{Queued};
ghost use Rattle.support.specs.Striking.{supports_of, marked, state_of, strike_of, weaken_of, Weighed, Settled};

use candidates::Queue;
use pool::pair::is_higher;

// The supporters that each candidate still has, and those struck out, in order. Their marks stand apart, since they are lent.
#[derive(Drop)]
pub struct Support {
    pub counts: [u16; 1024],
    pub struck: Queue,
}

impl Support {
    // Nothing counted, nobody struck out.
    pub fn new() -> Self
        ensures counts { result.counts ≡ replicate 1024 0 }
        ensures struck { result.struck.places ≡ replicate 1024 0 }
    {
        Support {
            counts: [0; 1024],
            struck: Queue::new(),
        }
    }

    // u, struck out, no longer supports its neighbor w: if w is of its level and still in, w loses a supporter, and may be struck out too.
    #[tactic(auto, unfolding(crate::specs::Striking::weaken_of))]
    fn weaken(&mut self, levels: &[u16], u: usize, w: usize, marks: &mut [u8; 1024])
        requires u_in_bounds { u < length levels.now }
        requires w_in_bounds { w < length levels.now }
        requires w_bound { w < 1024 }
        requires nonzero { get_or marks.old w 0 ≡ 2 → (0 < get_or self.old.counts w 0) × (self.old.struck.tail < 1024) }
        ensures { state_of marks.new self.new ≡ weaken_of levels.now u w (state_of marks.old self.old) }
    {
        if marks[w] == 2 && levels[w] == levels[u] {
            self.counts[w] -= 1;
            self.strike(levels, w, marks);
        }
    }

    // Strikes v out if its support does not exceed its level.
    #[tactic(auto, unfolding(crate::specs::Striking::strike_of))]
    fn strike(&mut self, levels: &[u16], v: usize, marks: &mut [u8; 1024])
        requires v_in_bounds { v < length levels.now }
        requires v_bound { v < 1024 }
        requires end_bound { self.old.struck.tail < 1024 }
        ensures { state_of marks.new self.new ≡ strike_of levels.now v (state_of marks.old self.old) }
    {
        if self.counts[v] <= levels[v] {
            marks[v] = 1;
            self.struck.push(v as u16);
        }
    }
}

// Counts the support of each candidate and strikes out those of too little.
pub fn weigh(
    starts: &[u16],
    links: &[u16],
    anchored: &[u8],
    levels: &[u16],
    x: usize,
    queue: &Queue,
    marks: &mut [u8; 1024],
    support: &mut Support,
)
    requires leveled { Leveled starts.now links.now anchored.now levels.now }
    requires queued { Queued (vertices starts.now) marks.old queue.now.places queue.now.tail }
    requires starts_in_bounds { (vertices starts.now ≤ length support.old.counts) × (vertices starts.now ≤ length support.old.struck.places) }
    ensures weighed { Weighed (vertices starts.now) levels.now (marked marks.new) (state_of marks.new support.new) }
    ensures candidates { (v : ℕ) → marked marks.new v ≡ member v (take queue.now.tail queue.now.places) }
    ensures counted { let reached = take queue.now.tail queue.now.places in
        let supporters : ℕ → ℕ = λ v. count (supports_of anchored.now levels.now (λ p. member p reached) x v) (neighbors_of starts.now links.now v) in
        ((v : ℕ) → In v reached → get_or support.new.counts v 0 ≡ supporters v) }
{
    support.struck.tail = 0;
    for next in queue.as_slice() {
        let v = *next as usize;
        support.counts[v] = count_supporters(starts, links, anchored, levels, marks, x, v);
        support.strike(levels, v, marks);
    }
}

// How many neighbors support v.
fn count_supporters(
    starts: &[u16],
    links: &[u16],
    anchored: &[u8],
    levels: &[u16],
    marks: &[u8; 1024],
    x: usize,
    v: usize,
) -> u16
    requires leveled { Leveled starts.now links.now anchored.now levels.now }
    requires v_bound { v < vertices starts.now }
    ensures { result ≡ count (supports_of anchored.now levels.now (marked marks.now) x v) (neighbors_of starts.now links.now v) }
{
    let mut total: u16 = 0;
    for p in table::neighbors(starts, links, v) {
        total += supports(anchored, levels, marks, x, v, *p as usize) as u16;
    }
    total
}

// Whether p supports v: it is anchored, or x, or of higher level, or a candidate of the same level.
#[tactic(auto, unfolding(crate::specs::Striking::supports_of))]
fn supports(
    anchored: &[u8],
    levels: &[u16],
    marks: &[u8; 1024],
    x: usize,
    v: usize,
    p: usize,
) -> bool
    requires p_in_bounds { p < length anchored.now }
    requires p_in_bounds_2 { p < length levels.now }
    requires v_in_bounds { v < length levels.now }
    requires p_bound { p < 1024 }
    ensures { result ≡ supports_of anchored.now levels.now (marked marks.now) x v p }
{
    anchored[p] == 1
        || x == p
        || is_higher(levels, p, v)
        || (marks[p] != 0 && levels[p] == levels[v])
}

// Strikes out until every candidate still in has enough support.
pub fn settle(
    starts: &[u16],
    links: &[u16],
    levels: &[u16],
    marks: &mut [u8; 1024],
    support: &mut Support,
)
    requires sound_table { SoundTable starts.now links.now }
    requires starts_in_bounds { vertices starts.now ≤ length levels.now }
    requires weighed { Weighed (vertices starts.now) levels.now (marked marks.old) (state_of marks.old support.old) }
    ensures { Settled starts.now links.now levels.now (λ v. get_or support.old.counts v 0) (marked marks.old) (state_of marks.new support.new) }
{
    let mut head: usize = 0;
    // Those struck out are read while more are.
    while head < support.struck.tail {
        let u = support.struck.places[head] as usize;
        for w in table::neighbors(starts, links, u) {
            support.weaken(levels, u, *w as usize, marks);
        }
        head += 1;
    }
}
