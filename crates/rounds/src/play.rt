// One round: a vertex is anchored, in one step of a session, and the round's line is written.
ghost use Rattle.std.specs.Prelude.{◌≡◌, ◌+◌, ◌≤◌, ◌<◌, length, get_or, IfSome, unwrap_or, option_and_then};
ghost use Rattle.table.specs.Table.{vertices};
ghost use Rattle.anchored.specs.Session.{turn};
ghost use Rattle.anchored.specs.Houses.{served, after_turn};
ghost use Rattle.pool.specs.Input.{graph_of, anchored_by};
ghost use Rattle.records.specs.Record.{Right, plain_of, Keeps};
ghost use Rattle.records.specs.Yield.{yield_at, Smalls};
ghost use Rattle.sheet.specs.Written.{Written};
ghost use Rattle.turns.specs.Found.{found_below};
ghost use Rattle.turns.specs.Choice.{choice_by, yield_in};
ghost use Rattle.turns.specs.Turns.{houses_by, turns_by};
ghost use Rattle.rounds.specs.Rounds.{shown, round_for};
ghost use Rattle.rounds.specs.Shared.{name_on, sharing_by};

use records::Record;
use turns::next::Turns;

// Round `round` on a record that is right, naming x or nobody; its line is written at `at`. Answers the place behind the line.
fn play(
    starts: &[u16],
    links: &[u16],
    kept: &mut Record,
    x: Option<usize>,
    round: u16,
    out: &mut [u8],
    at: usize,
) -> usize
    requires right { Right starts.now links.now kept.old }
    requires free { IfSome x (λ v. (v < vertices starts.now) × (get_or kept.old.anchored v 0 ≡ 0)) }
    requires starts_in_bounds { at + (48 + vertices starts.now) ≤ length out.old }
    ensures keeps { let x = unwrap_or x (vertices starts.now) in
        Keeps starts.now links.now kept.new (turn (graph_of starts.now links.now) round x (plain_of kept.old)) }
    ensures line { let G = graph_of starts.now links.now in
        Written out.old at (shown G.size round (round_for G (plain_of kept.old) (unwrap_or x G.size))) out.new result }
{
    let n = starts.len() - 1;
    let mut marks = [0u8; 1024];
    let Some(x) = x else {
        return sheet::line::put_line(out, at, round, None, &marks[..n], 0);
    };
    let columns = &kept.columns;
    search::search(
        starts,
        links,
        &kept.anchored,
        &columns.level,
        &columns.layer,
        x,
        &mut marks,
    );
    let stepped = step::step(starts, links, kept, x, round);
    *kept = stepped.kept;
    sheet::line::put_line(
        out,
        at,
        round,
        Some(x as u16),
        &marks[..n],
        stepped.row.redone,
    )
}

// Whom the line names that serves house c: its choice; nobody if it serves none.
fn name(n: usize, kept: &Record, house: &[u16], c: Option<usize>) -> Option<usize>
    requires n_bound { n ≤ 1024 }
    requires n_in_bounds { n ≤ length house.now }
    requires smalls { Smalls kept.now n }
    ensures { result ≡ option_and_then (λ e. found_below n (choice_by n (yield_in house.now e (yield_at kept.now)))) c }
{
    turns::choose::choose(n, kept, house, c?)
}

// Round `round` on what the lines before left: the house whose turn it is names its choice. Answers the place behind the line.
pub fn play_turn(
    starts: &[u16],
    links: &[u16],
    kept: &mut Record,
    house: &[u16],
    houses: usize,
    turns: &mut Turns,
    round: u16,
    out: &mut [u8],
    at: usize,
) -> usize
    requires right { Right starts.now links.now kept.old }
    requires starts_in_bounds { vertices starts.now ≤ length house.now }
    requires houses_bound { houses ≤ 16 }
    requires next_lt_houses { turns.old.next < houses }
    requires starts_in_bounds_2 { at + (48 + vertices starts.now) ≤ length out.old }
    ensures keeps { let G = graph_of starts.now links.now in
        let x = name_on G (houses_by house.now houses) (sharing_by kept.old turns.old) in
        Keeps starts.now links.now kept.new (turn G round x (plain_of kept.old)) }
    ensures turns { let t = turns_by turns.old in
        let c = served (houses_by house.now houses) (vertices starts.now) (anchored_by kept.old.anchored) t in
        turns_by turns.new ≡ after_turn houses c t }
    ensures line { let G = graph_of starts.now links.now in
        let x = name_on G (houses_by house.now houses) (sharing_by kept.old turns.old) in
        Written out.old at (shown G.size round (round_for G (plain_of kept.old) x)) out.new result }
{
    let n = starts.len() - 1;
    let c = turns::next::find_house(n, &kept.anchored, house, houses, turns);
    let x = name(n, kept, house, c);
    let end = play(starts, links, kept, x, round, out, at);
    turns::next::take_turn(turns, houses, c);
    end
}
