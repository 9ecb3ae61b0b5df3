// Whom a round anchors: of the vertices of a house that are not anchored the one of the greatest net yield, the lowest among equals.
ghost use Rattle.std.specs.Prelude.{◌≡◌, cond, ◌≤◌, length, eqb, Some, None};
ghost use Rattle.records.specs.Yield.{yield_by, yield_at, Small, Smalls};
ghost use Rattle.turns.specs.Found.{found_below};
ghost use Rattle.turns.specs.Choice.{choice_by, yield_in};

use records::Record;

// The net yield of a vertex of house `own`, if that is house c.
fn yield_in(
    own: usize,
    c: usize,
    anchored: u8,
    followers: u16,
    level: u16,
    bare: u16,
) -> Option<i16>
    requires { Small anchored followers level bare }
    ensures { result ≡ cond (eqb own c) (Some (yield_by anchored followers level bare)) None }
{
    if own == c {
        return Some(records::yields::net_yield(anchored, followers, level, bare));
    }
    None
}

// The choice of house c by a record of n vertices; nobody if all of its are anchored. An anchored vertex has -32,768, less than any other, and
// is never chosen.
pub fn choose(n: usize, kept: &Record, house: &[u16], c: usize) -> Option<usize>
    requires n_bound { n ≤ 1024 }
    requires n_in_bounds { n ≤ length house.now }
    requires smalls { Smalls kept.now n }
    ensures { result ≡ found_below n (choice_by n (yield_in house.now c (yield_at kept.now))) }
{
    let mut chosen = None;
    let mut greatest = -32768;
    for v in 0..n {
        let own = usize::from(house[v]);
        let level = kept.columns.level[v];
        let y = yield_in(
            own,
            c,
            kept.anchored[v],
            kept.followers[v],
            level,
            kept.bare[v],
        );
        if let Some(y) = y {
            if greatest < y {
                chosen = Some(v);
                greatest = y;
            }
        }
    }
    chosen
}
