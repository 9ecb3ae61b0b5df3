// The whole text: the number of riders, a line for each, the retained, the rounds, and nothing more. A text that departs
// is answered by the number of the first line that departs from its form, is missing or is extra.
ghost use Rattle.std.specs.Prelude.{◌≡◌, ◌≤◌, length};
ghost use mathlib.Core.List.{flatten};
ghost use Rattle.std.proofs.lemmas.List.Edits.{sets};
ghost use Rattle.lines.specs.List.{anchor};
ghost use Rattle.lines.specs.Line.{retained_at};
ghost use Rattle.text.specs.Text.{rider_lines_at, rider_lines_of, read_to, starts_of, rest_of, reading_of, starts_read, links_read, retained_read};

use lines::line::{retained_line, rider_line, riders_line, rounds_line};
use lines::list::store;
use reader::Reader;

// What the text says beside its lists. `beyond` is the first retained number of n or more, if there is one.
#[derive(Clone, Copy, Debug, PartialEq, Eq)]
pub struct Summary {
    pub riders: u16,
    pub links: usize,
    pub beyond: Option<u16>,
    pub rounds: u16,
}

// The lines of riders 0 to n - 1, and how many links they have. Starts and links are stored as far as there is room for
// them.
fn rider_lines(
    reader: &mut Reader,
    n: u16,
    starts: &mut [u16],
    links: &mut [u16],
) -> Result<usize, usize>
    requires text_len_bound { length reader.old.text.now ≤ 65536 }
    requires at_in_bounds { reader.old.at ≤ length reader.old.text.now }
    ensures value { read_to result reader.new.at ≡ rider_lines_of (rider_lines_at n reader.old.text.now reader.old.at) }
    ensures text { reader.new.text ≡ reader.old.text }
    ensures starts_value { starts.new ≡ sets starts.old 0 (starts_of (rider_lines_at n reader.old.text.now reader.old.at)) }
    ensures links_value { links.new ≡ sets links.old 0 (flatten (rider_lines_at n reader.old.text.now reader.old.at).lists) }
{
    let mut count: usize = 0;
    let mut number: usize = 2;
    for v in 0..n {
        store(starts, v as usize, count as u16);
        let (line, more) = rider_line(reader, number, v, links, count).ok_or(number)?;
        count = more;
        number = line.number + 1;
    }
    store(starts, n as usize, count as u16);
    Ok(count)
}

// What follows the riders' lines: the retained, the rounds, and nothing more.
fn read_rest(
    reader: &mut Reader,
    n: u16,
    links: usize,
    anchored: &mut [u8],
) -> Result<Summary, usize>
    ensures value { result ≡ rest_of reader.old.text.now n links reader.old.at }
    ensures anchored_value { anchored.new ≡ anchor anchored.old (retained_at reader.old.text.now reader.old.at).values }
{
    let number = n as usize + 2;
    let (line, beyond) = retained_line(reader, number, n, anchored).ok_or(number)?;
    let after = line.number + 1;
    let (last, rounds) = rounds_line(reader, after).ok_or(after)?;
    if !reader.at_end() {
        return Err(last.number + 1);
    }
    Ok(Summary {
        riders: n,
        links,
        beyond,
        rounds,
    })
}

// Reads a text of at most 65,536 bytes. Starts, links and anchored bytes are stored as far as there is room for them,
// up to a line that departs.
pub fn read_text(
    text: &[u8],
    starts: &mut [u16],
    links: &mut [u16],
    anchored: &mut [u8],
) -> Result<Summary, usize>
    requires { length text.now ≤ 65536 }
    ensures value { result ≡ reading_of text.now }
    ensures starts_value { starts.new ≡ sets starts.old 0 (starts_read text.now) }
    ensures links_value { links.new ≡ sets links.old 0 (links_read text.now) }
    ensures anchored_value { anchored.new ≡ anchor anchored.old (retained_read text.now) }
{
    let mut reader = Reader::new(text);
    let first: usize = 1;
    let (_, n) = riders_line(&mut reader, first).ok_or(first)?;
    let count = rider_lines(&mut reader, n, starts, links)?;
    read_rest(&mut reader, n, count, anchored)
}
