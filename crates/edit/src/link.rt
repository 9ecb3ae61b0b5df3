// One link put into a table in place, or taken out: the starts behind its vertex move by one, and so do the links behind its place.
ghost use Rattle.std.specs.Prelude.{◌≡◌, ℕ, ◌+◌, ◌≤◌, ◌<◌, length, get_or, T};
ghost use Rattle.finite.specs.Count.{In, tabulate};
ghost use Rattle.finite.specs.Search.{ascending};
ghost use Rattle.finite.specs.Edits.{insert, remove};
ghost use Rattle.table.specs.Table.{vertices};
ghost use Rattle.table.specs.Table.{neighbors as neighbors_of};
ghost use Rattle.edit.specs.Edit.{last_start, Padded, put_at, taken_at, place_of, Relisted};

// The place among all links of the first neighbor of v that is w or more.
fn find(starts: &[u16], links: &[u16], v: usize, w: u16) -> usize
    requires padded { Padded starts.now links.now }
    requires v_bound { v < vertices starts.now }
    ensures { result ≡ get_or starts.now v 0 + place_of (neighbors_of starts.now links.now v) w }
{
    let part = table::neighbors(starts, links, v);
    let place = part.iter().position(|u| w <= *u).unwrap_or(part.len());
    starts[v] as usize + place
}

// Changes each start behind v.
fn change_behind<F: Fn(u16) -> u16>(starts: &mut [u16], v: usize, change: F)
    requires v_in_bounds { v < length starts.old }
    requires callable { (i : ℕ) → v < i → i < length starts.old → F.pre change (get_or starts.old i 0) }
    ensures long { length starts.new ≡ length starts.old }
    ensures before { (i : ℕ) → i ≤ v → get_or starts.new i 0 ≡ get_or starts.old i 0 }
    ensures behind { (i : ℕ) → v < i → i < length starts.old → F.post change (get_or starts.old i 0) (get_or starts.new i 0) }
{
    for start in &mut starts[v + 1..] {
        *start = change(*start);
    }
}

// Puts w at place p; the links from there on, up to `last`, move up by one.
fn open(links: &mut [u16], p: usize, last: usize, w: u16)
    requires p_le_last { p ≤ last }
    requires last_in_bounds { last < length links.old }
    requires by_index { (i : ℕ) → last ≤ i → get_or links.old i 0 ≡ 0 }
    ensures { links.new ≡ tabulate (put_at links.old p w) (length links.old) }
{
    links.copy_within(p..last, p + 1);
    links[p] = w;
}

// Takes the link at place p out; the links behind it, up to `last`, move down by one, and 0 comes behind them.
fn close(links: &mut [u16], p: usize, last: usize)
    requires p_lt_last { p < last }
    requires last_in_bounds { last ≤ length links.old }
    requires by_index { (i : ℕ) → last ≤ i → get_or links.old i 0 ≡ 0 }
    ensures { links.new ≡ tabulate (taken_at links.old p) (length links.old) }
{
    links.copy_within(p + 1..last, p);
    links[last - 1] = 0;
}

// Puts w, which is no neighbor of v, into the neighbors of v.
pub fn put(starts: &mut [u16], links: &mut [u16], v: usize, w: u16)
    requires padded { Padded starts.old links.old }
    requires v_bound { v < vertices starts.old }
    requires starts_in_bounds { last_start starts.old < length links.old }
    requires fact { In w (neighbors_of starts.old links.old v) → ⊥ }
    ensures { Relisted starts.old links.old v (insert w (neighbors_of starts.old links.old v)) starts.new links.new }
{
    let p = find(starts, links, v, w);
    let last = starts[starts.len() - 1] as usize;
    change_behind(starts, v, |start| start + 1);
    open(links, p, last, w);
}

// Takes w, a neighbor of v, out of the ascending neighbors of v.
pub fn take(starts: &mut [u16], links: &mut [u16], v: usize, w: u16)
    requires padded { Padded starts.old links.old }
    requires v_bound { v < vertices starts.old }
    requires t { T (ascending (neighbors_of starts.old links.old v)) }
    requires fact { In w (neighbors_of starts.old links.old v) }
    ensures { Relisted starts.old links.old v (remove w (neighbors_of starts.old links.old v)) starts.new links.new }
{
    let p = find(starts, links, v, w);
    let last = starts[starts.len() - 1] as usize;
    change_behind(starts, v, |start| start - 1);
    close(links, p, last);
}
