// The lines of the text, a function for each kind of form. A line that is read is kept with its number and its form,
// and beside it stands what it says; a line that departs from its form is `None`.
ghost use Rattle.std.specs.Prelude.{◌≡◌, ◌+◌, ◌≤◌, length};
ghost use Rattle.std.proofs.lemmas.List.Edits.{sets};
ghost use Rattle.reader.specs.Number.{placed};
ghost use Rattle.lines.specs.List.{first_beyond, anchor};
ghost use Rattle.lines.specs.Line.{riders_at, rider_at, retained_at, rounds_at, kept_form, kept_list};
ghost use Rattle.lines.specs.declared.line.Form.{Form};

use crate::list::{take_neighbors, take_retained};
use reader::Reader;

// What kind of form a line has, with that form's single number.
#[derive(Clone, Copy, Debug, PartialEq, Eq)]
pub enum Form {
    Riders(u16),
    Rider(u16),
    Retained,
    Rounds(u16),
}

// A line that was read: its number, from 1, and its form.
#[derive(Clone, Copy, Debug, PartialEq, Eq)]
pub struct Line {
    pub number: usize,
    pub form: Form,
}

// `(riders n)`, which says n.
pub fn riders_line(reader: &mut Reader, number: usize) -> Option<(Line, u16)>
    ensures value { placed result reader.new.at ≡ kept_form number Form.Riders (riders_at reader.old.text.now reader.old.at) }
    ensures text { reader.new.text ≡ reader.old.text }
{
    let n = reader.form(b"(riders ", b")\n")?;
    let form = Form::Riders(n);
    Some((Line { number, form }, n))
}

// `(rider v (with ..))`: the neighbors go to the links, of which there are `before` already; it says how many there are
// with them.
pub fn rider_line(
    reader: &mut Reader,
    number: usize,
    v: u16,
    links: &mut [u16],
    before: usize,
) -> Option<(Line, usize)>
    requires { before ≤ reader.old.at }
    ensures value { let r = rider_at reader.old.text.now v reader.old.at in
        placed result reader.new.at ≡ kept_list number (Form.Rider v) (before + length r.values) r }
    ensures text { reader.new.text ≡ reader.old.text }
    ensures links_value { links.new ≡ sets links.old before (rider_at reader.old.text.now v reader.old.at).values }
{
    let rider = reader.form(b"(rider ", b" (with")?;
    if rider != v {
        return None;
    }
    let count = take_neighbors(reader, links, before)?;
    reader.skip(b"))\n")?;
    let form = Form::Rider(v);
    Some((Line { number, form }, count))
}

// `(retained ..)`: the numbers go to the anchored bytes; it says its first number of n or more, if it has one.
pub fn retained_line(
    reader: &mut Reader,
    number: usize,
    n: u16,
    anchored: &mut [u8],
) -> Option<(Line, Option<u16>)>
    ensures value { let r = retained_at reader.old.text.now reader.old.at in
        placed result reader.new.at ≡ kept_list number Form.Retained (first_beyond n r.values) r }
    ensures text { reader.new.text ≡ reader.old.text }
    ensures anchored_value { anchored.new ≡ anchor anchored.old (retained_at reader.old.text.now reader.old.at).values }
{
    reader.skip(b"(retained")?;
    let beyond = take_retained(reader, n, anchored)?;
    reader.skip(b")\n")?;
    let form = Form::Retained;
    Some((Line { number, form }, beyond))
}

// `(rounds r)`, which says r.
pub fn rounds_line(reader: &mut Reader, number: usize) -> Option<(Line, u16)>
    ensures value { placed result reader.new.at ≡ kept_form number Form.Rounds (rounds_at reader.old.text.now reader.old.at) }
    ensures text { reader.new.text ≡ reader.old.text }
{
    let r = reader.form(b"(rounds ", b")\n")?;
    let form = Form::Rounds(r);
    Some((Line { number, form }, r))
}
