// A session over a list of events. `claim` is demand 3 of document 01, of every call that answers 0; the size is that of the table before the events.
ghost use Rattle.std.specs.Prelude.{◌≡◌, Ok, Err};
ghost use Rattle.table.specs.Size.{size_of};
ghost use Rattle.table.specs.Guard.{answer, held};
ghost use Rattle.session.specs.Run.{lists, slices, run_of, ended};
ghost use Rattle.session.specs.Claim.{Claim};
ghost use Rattle.numbers.specs.Numbers.{accepted_as, refused_as, ran_as};

use numbers::Answer;

#[unsafe(no_mangle)]
pub extern "C" fn planner_run(
    starts: &mut [u16],
    links: &mut [u16],
    given: &[u8],
    kinds: &[u16],
    firsts: &[u16],
    seconds: &[u16],
    anchored: &mut [u8],
    levels: &mut [u16],
    layers: &mut [u16],
    components: &mut [u16],
    yields: &mut [i16],
    reached: &mut [u16],
    stamps: &mut [u16],
    status: &mut [u16],
    lifted: &mut [u16],
    redone: &mut [u16],
) -> Answer
    ensures fact { let events = lists kinds.now firsts.now seconds.now in
        let lent = slices starts.old links.old anchored.old levels.old layers.old components.old
        yields.old reached.old stamps.old status.old lifted.old redone.old in
        let after = slices starts.new links.new anchored.new levels.new layers.new components.new
        yields.new reached.new stamps.new status.new lifted.new redone.new in
        let guard = run_of given.now events lent in
        (result ≡ answer guard (accepted_as 0 0 (size_of starts.old links.old)) refused_as) × (after ≡ held guard (ended starts.old links.old given.now events) lent) }
    ensures told { let events = lists kinds.now firsts.now seconds.now in
        let lent = slices starts.old links.old anchored.old levels.old layers.old components.old
        yields.old reached.old stamps.old status.old lifted.old redone.old in
        result ≡ ran_as (answer (run_of given.now events lent) (Ok (size_of starts.old links.old)) Err) }
    ensures claim { result.number ≡ 0 → Claim starts.old links.old given.now (lists kinds.now firsts.now seconds.now) }
{
    Answer::from(session::run::run(
        starts, links, given, kinds, firsts, seconds, anchored, levels, layers, components, yields,
        reached, stamps, status, lifted, redone,
    ))
}
