// Houses share the rounds of a sheet: the operation tests its input, then writes the lines.
#![tactic(auto)]

ghost use Rattle.std.specs.Prelude.{◌≡◌, ◌≤◌, min, length, Ok, Err};
ghost use Rattle.table.specs.Size.{size_of};
ghost use Rattle.table.specs.Guard.{answer, held, front};
ghost use Rattle.houses.specs.Answers.{quota_sum, quotas_of, members_of, houses_of, shared_sheet};

use table::{Refusal, Rule, Size, refuse, test_table};

// The sum of the quotas; 61 if it is above 60: the list may be long, and its numbers great.
fn total(quotas: &[u16]) -> u16
    ensures { result ≡ min 61 (quota_sum quotas.now) }
{
    let mut sum: u16 = 0;
    for quota in quotas {
        sum = sum.saturating_add(*quota).min(61);
    }
    sum
}

// Refusals 11, 26, 27 and 12 for n vertices and so much room.
fn test_quotas(n: usize, house: &[u16], quotas: &[u16], room: usize) -> Result<(), Refusal>
    requires { n ≤ 1024 }
    ensures { result ≡ quotas_of n house.now quotas.now room }
{
    let lines = total(quotas);
    if 60 < lines {
        return Err(Refusal::new(Rule::TooMany, 0));
    }
    if !(1..=16).contains(&quotas.len()) {
        return Err(Refusal::new(Rule::Houses, 0));
    }
    refuse(
        Rule::NoHouse,
        pool::lent::first_outside(house, quotas.len()),
    )?;
    if room < lines as usize * (48 + n) {
        return Err(Refusal::new(Rule::Lent, 0));
    }
    Ok(())
}

// Refusals 9 and 10, then of the quotas.
fn test_members(
    n: usize,
    anchored: &[u8],
    house: &[u16],
    quotas: &[u16],
    room: usize,
) -> Result<(), Refusal>
    requires { n ≤ 1024 }
    ensures { result ≡ members_of n anchored.now house.now quotas.now room }
{
    let lengths = [anchored.len(), house.len()];
    if !pool::lent::all_are(&lengths, n) {
        return Err(Refusal::new(Rule::Length, 0));
    }
    refuse(Rule::Byte, pool::input::first_bad_byte(anchored))?;
    test_quotas(n, house, quotas, room)
}

// The refusals of a call.
fn test_houses(
    starts: &[u16],
    links: &[u16],
    anchored: &[u8],
    house: &[u16],
    quotas: &[u16],
    room: usize,
) -> Result<(), Refusal>
    ensures { result ≡ houses_of starts.now links.now anchored.now house.now quotas.now room }
{
    test_table(starts, links)?;
    test_members(starts.len() - 1, anchored, house, quotas, room)
}

// The sheet of the lines that houses share, by the house of each vertex and the quota of each house: accepted, its length and the size of the
// table, and the bytes behind the sheet stay; refused, every byte stays.
pub fn share_rounds(
    starts: &[u16],
    links: &[u16],
    anchored: &[u8],
    house: &[u16],
    quotas: &[u16],
    sheet: &mut [u8],
) -> Result<(usize, Size), Refusal>
    ensures { let guard = houses_of starts.now links.now anchored.now house.now quotas.now (length sheet.old) in
        let text = shared_sheet starts.now links.now anchored.now house.now quotas.now in
        (result ≡ answer guard (Ok (length text, size_of starts.now links.now)) Err)
        × (sheet.new ≡ held guard (front text sheet.old) sheet.old) }
{
    test_houses(starts, links, anchored, house, quotas, sheet.len())?;
    let size = Size::measure(starts, links);
    let lines = total(quotas);
    let end = rounds::write::write_shared(starts, links, anchored, house, quotas, lines, sheet);
    Ok((end, size))
}
