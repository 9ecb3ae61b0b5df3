// The cascade: x is withdrawn from its neighbors; whom too few then hold falls, and is withdrawn in turn. How many hold a vertex is
// counted when it first loses one, and kept from then on.
#![tactic(auto)]

ghost use Rattle.std.specs.Prelude.{◌≡◌, [], cond, ℕ, ◌+◌, ◌-◌, ◌≤◌, ◌<◌, length, get_or, set, T};
ghost use Rattle.finite.specs.Count.{bit, count};
ghost use Rattle.table.specs.Table.{vertices, neighbors as neighbors_of, SoundTable};
ghost use Rattle.anchored.specs.Collapse.{fall_mark, exposed};
ghost use Rattle.pool.specs.Input.{graph_of, anchored_by};
ghost use Rattle.pool.specs.Sheet.{Leveled};
ghost use Rattle.cascade.specs.Cascade.{upholds, relies_of, held_by, tight, fell_by, withdrawn, Falling};

use pool::pair::is_higher;

// In place of a count, for a vertex that lost nobody yet: no level is above it. A code and no option: the lent array has 16 bits a vertex.
const UNTOUCHED: u16 = 65535;

// What the cascade keeps: `support`, how many hold each vertex, and the list of the fallen, each once, up to `end`.
#[derive(Drop)]
struct Fallen<'a> {
    support: &'a mut [u16; 1024],
    list: [u16; 1024],
    end: usize,
}

impl Fallen<'_> {
    // Withdraws the vertex at `head` of those fallen from its neighbors, and puts those that then fall at the end.
    fn withdraw(
        &mut self,
        starts: &[u16],
        links: &[u16],
        anchored: &[u8],
        levels: &[u16],
        x: usize,
        head: usize,
    )
        requires leveled { Leveled starts.now links.now anchored.now levels.now }
        requires head_lt_end { head < self.old.end }
        requires falling_before { Falling starts.now links.now anchored.now levels.now x (withdrawn self.old.list head []) self.old.support.now self.old.list self.old.end }
        ensures same_reference { self.new.support.ghost_name ≡ self.old.support.ghost_name }
        ensures falling { Falling starts.now links.now anchored.now levels.now x (withdrawn self.new.list (head + 1) []) self.new.support.now self.new.list self.new.end }
        ensures longer { head < self.new.end }
    {
        let u = self.list[head] as usize;
        for w in table::neighbors(starts, links, u) {
            let w = *w as usize;
            if relies(anchored, levels, self.support, x, u, w) {
                self.weaken(starts, links, levels, w);
            }
        }
    }

    // One less holds w: if that was just enough, w is put at the end of those fallen.
    fn weaken(&mut self, starts: &[u16], links: &[u16], levels: &[u16], w: usize)
        requires sound_table { SoundTable starts.now links.now }
        requires starts_in_bounds { vertices starts.now ≤ length levels.now }
        requires w_bound { w < vertices starts.now }
        requires w_nonzero { 0 < held_by levels.now starts.now links.now self.old.support.now w }
        requires end_bound { held_by levels.now starts.now links.now self.old.support.now w ≡ get_or levels.now w 0 → self.old.end < 1024 }
        ensures same_reference { self.new.support.ghost_name ≡ self.old.support.ghost_name }
        ensures support { self.new.support.now ≡ set self.old.support.now w (held_by levels.now starts.now links.now self.old.support.now w - 1) }
        ensures fallen { self.new.list ≡ cond (tight levels.now starts.now links.now self.old.support.now w) (set self.old.list self.old.end w) self.old.list }
        ensures end { self.new.end ≡ self.old.end + bit (tight levels.now starts.now links.now self.old.support.now w) }
    {
        let held = count_held(starts, links, levels, self.support, w);
        self.support[w] = held - 1;
        if held == levels[w] {
            self.list[self.end] = w as u16;
            self.end += 1;
        }
    }
}

// Whether w, not found to fall yet and neither anchored nor x, loses a neighbor that holds it when u is withdrawn: x, or one of its level.
fn relies(
    anchored: &[u8],
    levels: &[u16],
    support: &[u16; 1024],
    x: usize,
    u: usize,
    w: usize,
) -> bool
    requires w_in_bounds { w < length anchored.now }
    requires u_in_bounds { (u < length levels.now) × (w < length levels.now) }
    requires w_bound { w < 1024 }
    ensures { result ≡ relies_of levels.now anchored.now support.now x u w }
{
    support[w] >= levels[w]
        && anchored[w] != 1
        && x != w
        && !is_higher(levels, w, u)
        && (x == u || levels[u] == levels[w])
}

// How many hold w: as kept, or counted if w lost nobody yet.
fn count_held(starts: &[u16], links: &[u16], levels: &[u16], support: &[u16; 1024], w: usize) -> u16
    requires sound_table { SoundTable starts.now links.now }
    requires starts_in_bounds { vertices starts.now ≤ length levels.now }
    requires w_bound { w < vertices starts.now }
    ensures { result ≡ held_by levels.now starts.now links.now support.now w }
{
    let kept = support[w];
    if kept == UNTOUCHED {
        count_holders(starts, links, levels, w)
    } else {
        kept
    }
}

// How many neighbors of w are of no lower level.
fn count_holders(starts: &[u16], links: &[u16], levels: &[u16], w: usize) -> u16
    requires sound_table { SoundTable starts.now links.now }
    requires starts_in_bounds { vertices starts.now ≤ length levels.now }
    requires w_bound { w < vertices starts.now }
    ensures { result ≡ count (upholds levels.now w) (neighbors_of starts.now links.now w) }
{
    // added up and not filtered: there is no branch on what a comparison says, which is hard to foresee
    let mut total: u16 = 0;
    for p in table::neighbors(starts, links, w) {
        total += !is_higher(levels, w, *p as usize) as u16;
    }
    total
}

// Keeps, for each vertex that loses a neighbor that held it, how many are left: less than its level for exactly those that fall with x.
// Only vertices of components to be searched are counted: `local`.
pub fn cascade(
    starts: &[u16],
    links: &[u16],
    anchored: &[u8],
    levels: &[u16],
    x: usize,
    support: &mut [u16; 1024],
)
    requires leveled { Leveled starts.now links.now anchored.now levels.now }
    requires x_bound { x < vertices starts.now }
    ensures falls { let mark = fall_mark (graph_of starts.now links.now) (anchored_by anchored.now) x in
        ((v : ℕ) → v < vertices starts.now → fell_by levels.now support.new v ≡ mark v) }
    ensures local { let near = exposed (graph_of starts.now links.now) (anchored_by anchored.now) x in
        ((v : ℕ) → v < vertices starts.now → (get_or support.new v 0 ≡ 65535 → ⊥) → T (near v)) }
{
    *support = [UNTOUCHED; 1024];
    let mut fallen = Fallen {
        support,
        list: [0; 1024],
        end: 1,
    };
    fallen.list[0] = x as u16;
    let mut head = 0;
    // No `for`: the list grows while it is read.
    while head < fallen.end {
        fallen.withdraw(starts, links, anchored, levels, x, head);
        head += 1;
    }
}
