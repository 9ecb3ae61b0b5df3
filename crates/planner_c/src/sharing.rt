// The sheet of the rounds that houses share.
ghost use Rattle.std.specs.Prelude.{◌≡◌, length, Ok, Err};
ghost use Rattle.table.specs.Size.{size_of};
ghost use Rattle.table.specs.Guard.{answer, held, front};
ghost use Rattle.houses.specs.Answers.{houses_of, shared_sheet};
ghost use Rattle.numbers.specs.Numbers.{accepted_as, refused_as, shared_as};

use numbers::Answer;

#[unsafe(no_mangle)]
pub extern "C" fn planner_houses(
    starts: &[u16],
    links: &[u16],
    anchored: &[u8],
    houses: &[u16],
    quotas: &[u16],
    sheet: &mut [u8],
) -> Answer
    ensures fact { let guard = houses_of starts.now links.now anchored.now houses.now quotas.now (length sheet.old) in
        let text = shared_sheet starts.now links.now anchored.now houses.now quotas.now in
        (result ≡ answer guard (accepted_as (length text) 0 (size_of starts.now links.now)) refused_as)
        × (sheet.new ≡ held guard (front text sheet.old) sheet.old) }
    ensures told { let guard = houses_of starts.now links.now anchored.now houses.now quotas.now (length sheet.old) in
        let text = shared_sheet starts.now links.now anchored.now houses.now quotas.now in
        result ≡ shared_as (answer guard (Ok (length text, size_of starts.now links.now)) Err) }
{
    Answer::from(houses::share_rounds(starts, links, anchored, houses, quotas, sheet))
}
