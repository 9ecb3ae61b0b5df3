// Whose turn it is: houses take turns by number, and one with its quota spent or nobody left to anchor is passed.
ghost use Rattle.std.specs.Prelude.{◌≡◌, not, ◌&&◌, ◌||◌, ◌≤◌, ◌<◌, length, get_or, eqb, IfSome, unwrap_or};
ghost use Rattle.finite.specs.Count.{below};
ghost use Rattle.finite.specs.Search.{any};
ghost use Rattle.anchored.specs.Houses.{turns_after, free_in, served, after_turn};
ghost use Rattle.pool.specs.Input.{anchored_by};
ghost use Rattle.turns.specs.Found.{found_below};
ghost use Rattle.turns.specs.Turns.{houses_by, quota_by, turns_by};

// Whose turn is next, and what is left of the quota of each of up to 16 houses.
#[derive(Clone, Copy)]
pub struct Turns {
    pub next: usize,
    pub left: [u16; 16],
}

// The turns at the start: house 0 is next, and every quota whole.
pub fn begin_turns(quotas: &[u16]) -> Turns
    requires { length quotas.now ≤ 16 }
    ensures { turns_by result ≡ record { next = 0; left = quota_by quotas.now } }
{
    let mut left = [0u16; 16];
    left[..quotas.len()].copy_from_slice(quotas);
    Turns { next: 0, left }
}

// The house d turns after house c.
#[tactic(auto, unfolding(anchored::specs::Houses::turns_after))]
fn turns_after(houses: usize, c: usize, d: usize) -> usize
    requires houses_bound { houses ≤ 16 }
    requires c_lt_houses { c < houses }
    requires d_le_houses { d ≤ houses }
    ensures house { result ≡ turns_after houses c d }
    ensures bound { result < houses }
{
    let turn = c + d;
    if turn < houses {
        return turn;
    }
    turn - houses
}

// Whether house c may anchor a vertex of house `own` that has this anchored byte.
fn is_free(own: usize, c: usize, anchored: u8) -> bool
    ensures { result ≡ eqb own c && not (eqb anchored 1) }
{
    own == c && anchored != 1
}

// Whether house c has a vertex left that is not anchored.
fn has_free(n: usize, anchored: &[u8; 1024], house: &[u16], c: usize) -> bool
    requires n_bound { n ≤ 1024 }
    requires n_in_bounds { n ≤ length house.now }
    ensures { result ≡ any (free_in (houses_by house.now 0) (anchored_by anchored.now) c) (below n) }
{
    house[..n]
        .iter()
        .zip(anchored)
        .any(|(own, a)| is_free(usize::from(*own), c, *a))
}

// Whether house c, of whose quota so much is left, is passed.
fn is_passed(n: usize, anchored: &[u8; 1024], house: &[u16], left: u16, c: usize) -> bool
    requires n_bound { n ≤ 1024 }
    requires n_in_bounds { n ≤ length house.now }
    ensures { result ≡ eqb left 0 || not (any (free_in (houses_by house.now 0) (anchored_by anchored.now) c) (below n)) }
{
    left == 0 || !has_free(n, anchored, house, c)
}

// The house that is served next; none if every house is passed.
pub fn find_house(
    n: usize,
    anchored: &[u8; 1024],
    house: &[u16],
    houses: usize,
    turns: &Turns,
) -> Option<usize>
    requires n_bound { n ≤ 1024 }
    requires n_in_bounds { n ≤ length house.now }
    requires houses_bound { houses ≤ 16 }
    requires next_lt_houses { turns.now.next < houses }
    ensures { result ≡ found_below houses (served (houses_by house.now houses) n (anchored_by anchored.now) (turns_by turns.now)) }
{
    for d in 0..houses {
        let c = turns_after(houses, turns.next, d);
        if !is_passed(n, anchored, house, turns.left[c], c) {
            return Some(c);
        }
    }
    None
}

// The turns after house c is served; they stay if it is none, or a number past the houses.
pub fn take_turn(turns: &mut Turns, houses: usize, c: Option<usize>)
    requires houses_bound { houses ≤ 16 }
    requires left { IfSome c (λ e. e < houses → 0 < get_or turns.old.left e 0) }
    ensures { turns_by turns.new ≡ after_turn houses (unwrap_or c houses) (turns_by turns.old) }
{
    if let Some(c) = c {
        if c < houses {
            turns.next = turns_after(houses, c, 1);
            turns.left[c] -= 1;
        }
    }
}
