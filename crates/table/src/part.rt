// Functions of one vertex's neighbors, handed on as a part of the links.
ghost use Rattle.std.specs.Prelude.{◌≡◌, T, leb};
ghost use Rattle.finite.specs.Count.{count};
ghost use Rattle.finite.specs.Search.{member, ascending};

// How many numbers of the part are `least` or more.
pub fn count_at_least(part: &[u16], least: usize) -> usize
    ensures { result ≡ count (leb least) part.now }
{
    // added up and not filtered: there is no branch on what a comparison says, which is hard to foresee
    let mut count = 0;
    for w in part {
        count += (least <= *w as usize) as usize;
    }
    count
}

// Whether the part is strictly ascending.
pub fn is_ascending(part: &[u16]) -> bool
    ensures { result ≡ ascending part.now }
{
    part.is_sorted_by(|a, b| *a < *b)
}

// Whether `v` stands in an ascending part.
pub fn contains(part: &[u16], v: usize) -> bool
    requires { T (ascending part.now) }
    ensures { result ≡ member v part.now }
{
    let mut low = 0;
    let mut high = part.len();
    // halved until it is found or nothing is left
    while low < high {
        let middle = low + (high - low) / 2;
        let w = part[middle] as usize;
        if w == v {
            return true;
        }
        if w < v {
            low = middle + 1;
        } else {
            high = middle;
        }
    }
    false
}
