// Whether a table is sound, in one pass: each link to a lower vertex is paired with the next link of that vertex, which must lead back.
ghost use Rattle.std.specs.Prelude.{◌≡◌, true, ◌+◌, ◌≤◌, ◌<◌, length};
ghost use Rattle.table.specs.Table.{vertices, Framed, SoundTable};
ghost use Rattle.table.specs.Paired.{Paired, Spent};

// Pairs the links of v to lower vertices, in ascending order; `next` is the place of each vertex's first unpaired link.
fn pair_lower(starts: &[u16], links: &[u16], v: usize, next: &mut [u16; 1024]) -> bool
    requires framed { Framed starts.now links.now }
    requires v_bound { (v < vertices starts.now) × (vertices starts.now ≤ 1024) }
    requires paired { Paired starts.now links.now v next.old }
    ensures { result ≡ true → Paired starts.now links.now (v + 1) next.new }
{
    let end = starts[v + 1];
    let mut least: usize = 0;
    for at in starts[v]..end {
        let u = links[at as usize] as usize;
        if v <= u {
            next[v] = at;
            return true;
        }
        let place = next[u];
        if u < least || starts[u + 1] <= place || links[place as usize] as usize != v {
            return false;
        }
        next[u] = place + 1;
        least = u + 1;
    }
    next[v] = end;
    true
}

// Whether no vertex has an unpaired link.
fn all_spent(starts: &[u16], next: &[u16; 1024]) -> bool
    requires { (0 < length starts.now) × (vertices starts.now ≤ 1024) }
    ensures { result ≡ true → Spent starts.now next.now }
{
    starts[1..].iter().zip(next).all(|(end, at)| at == end)
}

// Whether every link is paired: then the table is sound. A link of n or more and a link to oneself never are.
pub fn all_paired(starts: &[u16], links: &[u16]) -> bool
    requires framed { Framed starts.now links.now }
    requires starts_bound { (vertices starts.now ≤ 1024) × (length links.now ≤ 16384) }
    ensures { result ≡ true → SoundTable starts.now links.now }
{
    let mut next = [0u16; 1024];
    for v in 0..starts.len() - 1 {
        if !pair_lower(starts, links, v, &mut next) {
            return false;
        }
    }
    all_spent(starts, &next)
}
