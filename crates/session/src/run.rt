// A session: the record at the start, each event on what the one before left, and the table and the record at the end.
ghost use Rattle.std.specs.Prelude.{◌≡◌, true, cond, ◌&&◌, length, ltb, eqb, Ok, Err};
ghost use Rattle.finite.specs.Count.{tabulate};
ghost use Rattle.finite.specs.Search.{all};
ghost use Rattle.table.specs.Table.{vertices};
ghost use Rattle.table.specs.Size.{size_of};
ghost use Rattle.table.specs.declared.size.Size.{Size};
ghost use Rattle.table.specs.Guard.{clear, refused, answer, held};
ghost use Rattle.edit.specs.Edit.{Tabled};
ghost use Rattle.records.specs.Record.{Keeps};
ghost use Rattle.session.specs.Run.{lists, slices, admit_run, run_of, pool_of, row_at, ended};
ghost use Rattle.session.specs.Runs.{Runs, Fits};
ghost use Rattle.session.specs.Claim.{Claim};

use pool::input::first_bad_byte;
use pool::lent::all_are;
use records::Record;
use table::{Refusal, Rule, Size, refuse};

// The events, in three lists of one length.
#[derive(Clone, Copy)]
struct EventLists<'a> {
    kinds: &'a [u16],
    firsts: &'a [u16],
    seconds: &'a [u16],
}

// Stores the zeros past the last start, then serves the events: the table and the record after all of them, and the three numbers of each.
fn serve(
    starts: &mut [u16],
    links: &mut [u16],
    given: &[u8],
    events: &EventLists,
    status: &mut [u16],
    lifted: &mut [u16],
    redone: &mut [u16],
) -> Record
    requires runs { Runs starts.old links.old given.now (lists events.now.kinds.now events.now.firsts.now events.now.seconds.now) }
    requires status_len { length status.old ≡ length events.now.kinds.now }
    requires lifted_len { length lifted.old ≡ length events.now.kinds.now }
    requires redone_len { length redone.old ≡ length events.now.kinds.now }
    ensures kept { let end = pool_of starts.old links.old given.now (lists events.now.kinds.now events.now.firsts.now events.now.seconds.now) (length events.now.kinds.now) in
        Tabled starts.new links.new end.graph × Keeps starts.new links.new result end.plain × (result.reaching ≡ true) }
    ensures status { let served = lists events.now.kinds.now events.now.firsts.now events.now.seconds.now in
        status.new ≡ tabulate (λ i. (row_at starts.old links.old given.now served i).status) (length events.now.kinds.now) }
    ensures lifted { let served = lists events.now.kinds.now events.now.firsts.now events.now.seconds.now in
        lifted.new ≡ tabulate (λ i. (row_at starts.old links.old given.now served i).lifted) (length events.now.kinds.now) }
    ensures redone { let served = lists events.now.kinds.now events.now.firsts.now events.now.seconds.now in
        redone.new ≡ tabulate (λ i. (row_at starts.old links.old given.now served i).redone) (length events.now.kinds.now) }
{
    edit::lent::zero_behind(starts, links);
    let mut kept = records::begin::begin(starts, links, given, true);
    for i in 0..events.kinds.len() {
        let first = events.firsts[i] as usize;
        let second = events.seconds[i] as usize;
        let kind = events.kinds[i];
        let stepped = events::turn(starts, links, &kept, kind, first, second, i as u16 + 1);
        kept = stepped.kept;
        let row = stepped.row;
        status[i] = row.status;
        lifted[i] = row.lifted;
        redone[i] = row.redone;
    }
    kept
}

// Serves the events, and writes the record at the end.
fn write(
    starts: &mut [u16],
    links: &mut [u16],
    given: &[u8],
    events: &EventLists,
    anchored: &mut [u8],
    levels: &mut [u16],
    layers: &mut [u16],
    components: &mut [u16],
    yields: &mut [i16],
    reached: &mut [u16],
    stamps: &mut [u16],
    status: &mut [u16],
    lifted: &mut [u16],
    redone: &mut [u16],
)
    requires runs { Runs starts.old links.old given.now (lists events.now.kinds.now events.now.firsts.now events.now.seconds.now) }
    requires fits { let lent = slices starts.old links.old anchored.old levels.old layers.old components.old
        yields.old reached.old stamps.old status.old lifted.old redone.old in
        Fits (vertices starts.old) (length events.now.kinds.now) lent }
    ensures { let after = slices starts.new links.new anchored.new levels.new layers.new components.new
        yields.new reached.new stamps.new status.new lifted.new redone.new in
        after ≡ ended starts.old links.old given.now (lists events.now.kinds.now events.now.firsts.now events.now.seconds.now) }
{
    let kept = serve(starts, links, given, events, status, lifted, redone);
    super::lent::copy_sheet(&kept, levels, layers, components);
    super::lent::copy_rows(&kept, anchored, yields, reached, stamps);
}

// Refusals 11 and 12: `records` and `numbers` are the lengths of the lent slices, to be n and `count`, the number of events.
fn test_lengths(n: usize, count: usize, records: &[usize], numbers: &[usize]) -> Result<(), Refusal>
    ensures { let fits = all (eqb n) records.now && all (eqb count) numbers.now in
        result ≡ cond (ltb 4096 count) (refused 11 0) (cond fits clear (refused 12 0)) }
{
    if 4096 < count {
        return Err(Refusal::new(Rule::TooMany, 0));
    }
    if all_are(records, n) && all_are(numbers, count) {
        return Ok(());
    }
    Err(Refusal::new(Rule::Lent, 0))
}

// Refusals 1 to 12: `others` are the lengths of the lists beside the one of `count` kinds.
fn admit(
    starts: &[u16],
    links: &[u16],
    given: &[u8],
    count: usize,
    others: &[usize],
    records: &[usize],
    numbers: &[usize],
) -> Result<(), Refusal>
    ensures { let matches = all (eqb count) others.now in
        let fits = all (eqb (vertices starts.now)) records.now && all (eqb count) numbers.now in
        result ≡ admit_run starts.now links.now given.now count matches fits }
{
    edit::lent::check_lent(starts, links)?;
    let n = starts.len() - 1;
    if given.len() != n || !all_are(others, count) {
        return Err(Refusal::new(Rule::Length, 0));
    }
    refuse(Rule::Byte, first_bad_byte(given))?;
    test_lengths(n, count, records, numbers)
}

// A session: the table and the record after the last event, and the three numbers of each; a refusal leaves the table and the slices as they
// are. `claim` is demand 3 of document 01. The slices stay apart, as C lends them.
pub fn run(
    starts: &mut [u16],
    links: &mut [u16],
    given: &[u8],
    kinds: &[u16],
    firsts: &[u16],
    seconds: &[u16],
    anchored: &mut [u8],
    levels: &mut [u16],
    layers: &mut [u16],
    components: &mut [u16],
    yields: &mut [i16],
    reached: &mut [u16],
    stamps: &mut [u16],
    status: &mut [u16],
    lifted: &mut [u16],
    redone: &mut [u16],
) -> Result<Size, Refusal>
    ensures fact { let events = lists kinds.now firsts.now seconds.now in
        let lent = slices starts.old links.old anchored.old levels.old layers.old components.old
        yields.old reached.old stamps.old status.old lifted.old redone.old in
        let after = slices starts.new links.new anchored.new levels.new layers.new components.new
        yields.new reached.new stamps.new status.new lifted.new redone.new in
        let guard = run_of given.now events lent in
        (result ≡ answer guard (Ok (size_of starts.old links.old)) Err) × (after ≡ held guard (ended starts.old links.old given.now events) lent) }
    ensures claim { let events = lists kinds.now firsts.now seconds.now in
        ((size : Size) → result ≡ Ok size → Claim starts.old links.old given.now events) }
{
    let rest = [firsts.len(), seconds.len()];
    let records = [
        anchored.len(),
        levels.len(),
        layers.len(),
        components.len(),
        yields.len(),
        reached.len(),
        stamps.len(),
    ];
    let numbers = [status.len(), lifted.len(), redone.len()];
    admit(starts, links, given, kinds.len(), &rest, &records, &numbers)?;
    let size = Size::measure(starts, links);
    let events = EventLists {
        kinds,
        firsts,
        seconds,
    };
    write(
        starts, links, given, &events, anchored, levels, layers, components, yields, reached,
        stamps, status, lifted, redone,
    );
    Ok(size)
}
