// The first day on which a level is under k, vertices being anchored by term.
ghost use Rattle.std.specs.Prelude.{◌≡◌, Ok, Err};
ghost use Rattle.table.specs.Size.{size_of};
ghost use Rattle.table.specs.Guard.{answer};
ghost use Rattle.anchored.specs.Terms.{terms, first_under};
ghost use Rattle.pool.specs.Input.{graph_of};
ghost use Rattle.first_day.specs.Answers.{first_day_of, day_of};
ghost use Rattle.numbers.specs.Numbers.{dated_as, refused_as};

use numbers::Answer;

#[unsafe(no_mangle)]
pub extern "C" fn planner_first_day(
    starts: &[u16],
    links: &[u16],
    vertices: &[u16],
    firsts: &[u16],
    ends: &[u16],
    from: u16,
    until: u16,
    x: usize,
    k: u16,
) -> Answer
    ensures answer { let day = first_under (terms vertices.now firsts.now ends.now) (graph_of starts.now links.now) x k from until in
        let guard = first_day_of starts.now links.now vertices.now firsts.now ends.now x in
        result ≡ answer guard (dated_as (Ok (day_of day until (size_of starts.now links.now)))) refused_as }
    ensures told { let day = first_under (terms vertices.now firsts.now ends.now) (graph_of starts.now links.now) x k from until in
        let guard = first_day_of starts.now links.now vertices.now firsts.now ends.now x in
        result ≡ dated_as (answer guard (Ok (day_of day until (size_of starts.now links.now))) Err) }
{
    Answer::from(first_day::first_day(starts, links, vertices, firsts, ends, from, until, x, k))
}
