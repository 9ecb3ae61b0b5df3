// The text-to-sheet call, on two byte slices.
ghost use Rattle.std.specs.Prelude.{◌≡◌, length};
ghost use Rattle.table.specs.Guard.{held, front};
ghost use Rattle.answer.specs.Answer.{text_of, answer_of, sheet_of_text};
ghost use Rattle.numbers.specs.Numbers.{answered_as};

use numbers::Sheeted;

#[unsafe(no_mangle)]
pub extern "C" fn planner_text_to_sheet(text: &[u8], sheet: &mut [u8]) -> Sheeted
    ensures answer { result ≡ answered_as (answer_of text.now (length sheet.old)) }
    ensures sheet { let guard = text_of text.now (length sheet.old) in
        sheet.new ≡ held guard (front (sheet_of_text text.now) sheet.old) sheet.old }
{
    Sheeted::from(answer::text_to_sheet(text, sheet))
}
