// The check of a table.
ghost use Rattle.std.specs.Prelude.{◌≡◌, Ok, Err};
ghost use Rattle.table.specs.Table.{check_of};
ghost use Rattle.table.specs.Size.{size_of};
ghost use Rattle.table.specs.Guard.{answer};
ghost use Rattle.numbers.specs.Numbers.{accepted_as, refused_as, checked_as};

use numbers::Answer;

#[unsafe(no_mangle)]
pub extern "C" fn planner_check(starts: &[u16], links: &[u16]) -> Answer
    ensures answer { result ≡ answer (check_of starts.now links.now) (accepted_as 0 0 (size_of starts.now links.now)) refused_as }
    ensures told { result ≡ checked_as (answer (check_of starts.now links.now) (Ok (size_of starts.now links.now)) Err) }
{
    Answer::from(table::check(starts, links))
}
