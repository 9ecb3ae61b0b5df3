// The rows that an event makes stale, found by columns and marks: a byte for each place, 1 where marked. Each pass adds to its marks.
#![tactic(auto)]

ghost use Rattle.std.specs.Prelude.{◌≡◌, ◌≤◌, ◌<◌};
ghost use Rattle.table.specs.Table.{vertices, SoundTable};
ghost use Rattle.pool.specs.Arrays.{Holds};
ghost use Rattle.stale.specs.Marks.{Added, up_to, differs, carried, marking, inside_by, looks_through};
ghost use Rattle.stale.specs.Marks.{marked as marked_in, looks as looks_by};
ghost use Rattle.stale.specs.Columns.{above_by, Brought, Finds};

// The columns of a record that tell which rows an event makes stale; `above` counts the neighbors that are anchored or of higher level.
#[derive(Clone, Copy)]
pub struct Columns {
    pub level: [u16; 1024],
    pub layer: [u16; 1024],
    pub component: [u16; 1024],
    pub above: [u16; 1024],
}

// How many neighbors of v have a higher level than v.
fn count_above(starts: &[u16], links: &[u16], level: &[u16; 1024], v: usize) -> usize
    requires sound_table { SoundTable starts.now links.now }
    requires v_bound { v < vertices starts.now }
    ensures { result ≡ above_by starts.now links.now level.now v }
{
    // added up and not filtered: there is no branch on what a comparison says, which is hard to foresee
    let mut count = 0;
    for w in table::neighbors(starts, links, v) {
        count += usize::from(pool::pair::is_higher(level, usize::from(*w), v));
    }
    count
}

// Fills the column of the numbers above, from the levels. An anchored vertex has level 65,535, so it stands above every other.
pub fn fill_above(starts: &[u16], links: &[u16], level: &[u16; 1024], above: &mut [u16; 1024])
    requires sound_table { SoundTable starts.now links.now }
    ensures { Holds above.new (vertices starts.now) (above_by starts.now links.now level.now) }
{
    let n = starts.len() - 1;
    for v in 0..n {
        above[v] = count_above(starts, links, level, v) as u16;
    }
}

// Marks the places below n where two columns differ.
fn mark_differing(n: usize, before: &[u16; 1024], after: &[u16; 1024], marks: &mut [u8; 1024])
    requires n_bound { n ≤ 1024 }
    ensures { Added (up_to (differs before.now after.now) n) marks.old marks.new }
{
    for v in 0..n {
        if before[v] != after[v] {
            marks[v] = 1;
        }
    }
}

// Marks a component number; 65,535, which an anchored vertex has, is none and leaves the marks.
fn mark(changed: &mut [u8; 1024], number: u16)
    ensures { changed.new ≡ marking changed.old number }
{
    // by index: of a write through `get_mut` std does not say what the array is after it
    let c = usize::from(number);
    if c < changed.len() {
        changed[c] = 1;
    }
}

// Marks the component numbers of the unsteady vertices below n.
fn mark_numbers(n: usize, component: &[u16; 1024], unsteady: &[u8; 1024], changed: &mut [u8; 1024])
    requires n_bound { n ≤ 1024 }
    ensures { Added (up_to (carried component.now unsteady.now n) 1024) changed.old changed.new }
{
    for v in 0..n {
        if unsteady[v] == 1 {
            mark(changed, component[v]);
        }
    }
}

// Whether a component number is marked; 65,535 is not.
fn is_marked(changed: &[u8; 1024], number: u16) -> bool
    ensures { result ≡ up_to (marked_in changed.now) 1024 number }
{
    changed.get(usize::from(number)).is_some_and(|m| *m == 1)
}

impl Columns {
    // Whether v leads u into a marked component: its number is marked, which is asked first as most are not, and its pair greater.
    fn looks_through(&self, changed: &[u8; 1024], u: usize, v: usize) -> bool
        requires u_bound { u < 1024 }
        requires v_bound { v < 1024 }
        ensures { result ≡ looks_through self.now.level self.now.layer self.now.component changed.now u v }
    {
        is_marked(changed, self.component[v])
            && pool::pair::is_above(&self.level, &self.layer, v, u)
    }

    // Whether u looks into a component whose number is marked; an anchored vertex, which has no number, does not.
    fn looks(&self, starts: &[u16], links: &[u16], changed: &[u8; 1024], u: usize) -> bool
        requires sound_table { SoundTable starts.now links.now }
        requires u_bound { u < vertices starts.now }
        ensures { result ≡ looks_by starts.now links.now self.now.level self.now.layer self.now.component changed.now u }
    {
        if 1023 < self.component[u] {
            return false;
        }
        let part = table::neighbors(starts, links, u);
        part.iter()
            .any(|v| self.looks_through(changed, u, usize::from(*v)))
    }

    // Marks the vertices that look into a component whose number is marked.
    fn mark_lookers(
        &self,
        starts: &[u16],
        links: &[u16],
        changed: &[u8; 1024],
        stale: &mut [u8; 1024],
    )
        requires sound_table { SoundTable starts.now links.now }
        ensures { let looking = looks_by starts.now links.now self.now.level self.now.layer self.now.component changed.now in
            Added (up_to looking (vertices starts.now)) stale.old stale.new }
    {
        let n = starts.len() - 1;
        for u in 0..n {
            if self.looks(starts, links, changed, u) {
                stale[u] = 1;
            }
        }
    }
}

// Marks a if a and b have one component number: an edge between them is inside a component.
fn mark_inside(component: &[u16; 1024], a: usize, b: usize, bound: &mut [u8; 1024])
    requires a_bound { a < 1024 }
    requires b_bound { b < 1024 }
    ensures { Added (inside_by component.now a b) bound.old bound.new }
{
    if component[a] == component[b] {
        bound[a] = 1;
    }
}

// What the edge between a and b brings when it is added or dropped, from the columns before and after, and the bare levels before, `bare`, and
// after, `fresh`: as stale the rows of the two and of those whose bare level changed, and a as bound if the edge is inside a component before or after.
pub fn mark_edge(
    n: usize,
    before: &Columns,
    after: &Columns,
    bare: &[u16; 1024],
    fresh: &[u16; 1024],
    a: usize,
    b: usize,
    bound: &mut [u8; 1024],
    stale: &mut [u8; 1024],
)
    requires n_bound { n ≤ 1024 }
    requires a_bound { a < 1024 }
    requires b_bound { b < 1024 }
    ensures { Brought n before.now after.now bare.now fresh.now a b bound.new stale.new }
{
    *bound = [0; 1024];
    mark_inside(&before.component, a, b, bound);
    mark_inside(&after.component, a, b, bound);
    *stale = [0; 1024];
    mark_differing(n, bare, fresh, stale);
    stale[a] = 1;
    stale[b] = 1;
}

// The rows that an event makes stale, from the columns before it and after it; the table is the one after it. `bound` marks vertices by whose
// component numbers changed edges inside a component are told; `stale` comes in with the rows that the event itself brings: changed bare levels,
// and the ends of its edge. Only these ends have other neighbors than before, so one table serves for who looks into a component before and after.
pub fn mark_stale(
    starts: &[u16],
    links: &[u16],
    before: &Columns,
    after: &Columns,
    bound: &[u8; 1024],
    stale: &mut [u8; 1024],
)
    requires sound_table { SoundTable starts.now links.now }
    ensures { Finds starts.now links.now before.now after.now bound.now stale.old stale.new }
{
    let n = starts.len() - 1;
    let mut unsteady = *bound;
    mark_differing(n, &before.level, &after.level, &mut unsteady);
    mark_differing(n, &before.component, &after.component, &mut unsteady);
    mark_differing(n, &before.above, &after.above, &mut unsteady);
    let mut changed = [0u8; 1024];
    mark_numbers(n, &before.component, &unsteady, &mut changed);
    mark_numbers(n, &after.component, &unsteady, &mut changed);
    mark_differing(n, &before.level, &after.level, stale);
    before.mark_lookers(starts, links, &changed, stale);
    after.mark_lookers(starts, links, &changed, stale);
}
