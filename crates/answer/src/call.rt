// A text is read, its table checked, its rounds played, and the sheet written.
ghost use Rattle.std.specs.Prelude.{◌≡◌, ℕ, ◌+◌, ◌≤◌, ◌<◌, length, get_or, take, Ok, Err};
ghost use Rattle.table.specs.Guard.{answer, held, front};
ghost use Rattle.pool.specs.Input.{anchored_by};
ghost use Rattle.answer.specs.Answer.{room_of, asked_of, text_of, answer_of, rounds_sheet, sheet_of_text};

use table::{Refusal, Rule};
use text::Summary;

// Refusals 11, 12 and 15.
fn test_room(asked: Summary, room: usize) -> Result<(), Refusal>
    ensures { result ≡ room_of asked room }
{
    if 60 < asked.rounds {
        return Err(Refusal::new(Rule::TooMany, 0));
    }
    if room < asked.rounds as usize * (48 + asked.riders as usize) {
        return Err(Refusal::new(Rule::Lent, 0));
    }
    table::refuse(Rule::NoVertex, asked.beyond.map(usize::from))
}

// Refusals 2 to 15: the table stands at the front of starts and links.
fn admit(asked: Summary, starts: &[u16], links: &[u16], room: usize) -> Result<(), Refusal>
    requires in_bounds { 1025 ≤ length starts.now }
    requires in_bounds_2 { 16384 ≤ length links.now }
    ensures { result ≡ asked_of asked (take (asked.riders + 1) starts.now) (take asked.links links.now) room }
{
    if 1024 < asked.riders {
        return Err(Refusal::new(Rule::ManyVertices, 0));
    }
    if 16384 < asked.links {
        return Err(Refusal::new(Rule::ManyLinks, 0));
    }
    let n = asked.riders as usize;
    table::test_table(&starts[..n + 1], &links[..asked.links])?;
    test_room(asked, room)
}

// The answer for a text read into the arrays, and its sheet.
fn answer_read(
    asked: Summary,
    starts: &[u16],
    links: &[u16],
    anchored: &[u8],
    sheet: &mut [u8],
) -> Result<usize, Refusal>
    requires in_bounds { 1025 ≤ length starts.now }
    requires in_bounds_2 { 16384 ≤ length links.now }
    requires in_bounds_3 { 1024 ≤ length anchored.now }
    requires by_index { (v : ℕ) → v < 1024 → get_or anchored.now v 0 ≤ 1 }
    ensures { let s = take (asked.riders + 1) starts.now in
        let l = take asked.links links.now in
        let written = rounds_sheet s l (anchored_by (take asked.riders anchored.now)) asked.rounds in
        let guard = asked_of asked s l (length sheet.old) in
        (result ≡ answer guard (Ok (length written)) Err)
        × (sheet.new ≡ held guard (front written sheet.old) sheet.old) }
{
    admit(asked, starts, links, sheet.len())?;
    let n = asked.riders as usize;
    let size = rounds::write::write_rounds(
        &starts[..n + 1],
        &links[..asked.links],
        &anchored[..n],
        asked.rounds,
        sheet,
    );
    Ok(size)
}

// The length of a text's sheet: accepted, the bytes behind the sheet stay; refused, every byte stays.
pub fn text_to_sheet(text: &[u8], sheet: &mut [u8]) -> Result<usize, Refusal>
    ensures answer { result ≡ answer_of text.now (length sheet.old) }
    ensures sheet { let guard = text_of text.now (length sheet.old) in
        sheet.new ≡ held guard (front (sheet_of_text text.now) sheet.old) sheet.old }
{
    if 65536 < text.len() {
        return Err(Refusal::new(Rule::LongText, 0));
    }
    let mut starts = [0u16; 1025];
    let mut links = [0u16; 16384];
    let mut anchored = [0u8; 1024];
    match text::read_text(text, &mut starts, &mut links, &mut anchored) {
        Err(line) => Err(Refusal::new(Rule::Departs, line)),
        Ok(asked) => answer_read(asked, &starts, &links, &anchored, sheet),
    }
}
