// A list of numbers, a space before each: neighbors go to the links, the retained to the anchored bytes.
ghost use Rattle.std.specs.Prelude.{◌≡◌, ◌≤◌, set};
ghost use Rattle.std.proofs.lemmas.List.Edits.{sets};
ghost use Rattle.reader.specs.Number.{placed};
ghost use Rattle.lines.specs.List.{list_at, listed_of, retained_of, anchor};

use reader::Reader;

// Stores the value where there is room for it, by its index: what a `get_mut` wrote has no name that a proof may cite.
pub fn store<T: Drop>(values: &mut [T], place: usize, value: T)
    ensures { values.new ≡ set values.old place value }
{
    if place < values.len() {
        values[place] = value;
    }
}

// A list of neighbors goes to the links from a place on. The count is that of all links so far, stored or not.
pub fn take_neighbors(reader: &mut Reader, links: &mut [u16], before: usize) -> Option<usize>
    requires { before ≤ reader.old.at }
    ensures value { placed result reader.new.at ≡ listed_of before (list_at reader.old.text.now reader.old.at) }
    ensures text { reader.new.text ≡ reader.old.text }
    ensures links_value { links.new ≡ sets links.old before (list_at reader.old.text.now reader.old.at).values }
{
    let mut count = before;
    while reader.skip(b" ").is_some() {
        let w = reader.number()?;
        store(links, count, w);
        count += 1;
    }
    Some(count)
}

// The list of the retained, strictly ascending, goes to the anchored bytes. The answer is its first number of n or more.
pub fn take_retained(reader: &mut Reader, n: u16, anchored: &mut [u8]) -> Option<Option<u16>>
    ensures value { placed result reader.new.at ≡ retained_of n (list_at reader.old.text.now reader.old.at) }
    ensures text { reader.new.text ≡ reader.old.text }
    ensures anchored_value { anchored.new ≡ anchor anchored.old (list_at reader.old.text.now reader.old.at).values }
{
    let mut ascending = true;
    let mut least: usize = 0;
    let mut beyond = None;
    while reader.skip(b" ").is_some() {
        let v = reader.number()?;
        ascending &= least <= v as usize;
        least = v as usize + 1;
        beyond = beyond.or((n <= v).then_some(v));
        store(anchored, v as usize, 1);
    }
    ascending.then_some(beyond)
}
