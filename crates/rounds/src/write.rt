// The answer sheet: a line for each round, on what the one before left.
ghost use Rattle.std.specs.Prelude.{◌≡◌, ◌+◌, ◌*◌, ◌≤◌, ◌<◌, length};
ghost use Rattle.table.specs.Table.{vertices};
ghost use Rattle.pool.specs.Input.{graph_of, anchored_by, Admitted};
ghost use Rattle.sheet.specs.Line.{sheet_of};
ghost use Rattle.sheet.specs.Written.{Written};
ghost use Rattle.turns.specs.Turns.{houses_by, quota_by};
ghost use Rattle.rounds.specs.Rounds.{rounds_of};
ghost use Rattle.rounds.specs.Shared.{shared_rounds};

// The sheet of some lines that houses share, from the given bytes, at the front of `out`; its length.
pub fn write_shared(
    starts: &[u16],
    links: &[u16],
    given: &[u8],
    house: &[u16],
    quotas: &[u16],
    lines: u16,
    out: &mut [u8],
) -> usize
    requires admitted { Admitted starts.now links.now given.now }
    requires given_len { length given.now ≡ vertices starts.now }
    requires starts_in_bounds { vertices starts.now ≤ length house.now }
    requires quotas_nonzero { 0 < length quotas.now }
    requires quotas_len_bound { length quotas.now ≤ 16 }
    requires starts_in_bounds_2 { lines * (48 + vertices starts.now) ≤ length out.old }
    ensures { let G = graph_of starts.now links.now in
        let rounds = shared_rounds G (houses_by house.now (length quotas.now)) (quota_by quotas.now) (anchored_by given.now) lines in
        Written out.old 0 (sheet_of (vertices starts.now) rounds) out.new result }
{
    let houses = quotas.len();
    // no line shows a reached count
    let mut kept = records::begin::begin(starts, links, given, false);
    let mut turns = turns::next::begin_turns(quotas);
    let mut at: usize = 0;
    for i in 0..lines {
        at = super::play::play_turn(
            starts,
            links,
            &mut kept,
            house,
            houses,
            &mut turns,
            i + 1,
            out,
            at,
        );
    }
    at
}

// The sheet of some rounds from the given bytes, at the front of `out`; its length. They are the lines of one house, which has every vertex.
pub fn write_rounds(
    starts: &[u16],
    links: &[u16],
    given: &[u8],
    rounds: u16,
    out: &mut [u8],
) -> usize
    requires admitted { Admitted starts.now links.now given.now }
    requires given_len { length given.now ≡ vertices starts.now }
    requires starts_in_bounds { rounds * (48 + vertices starts.now) ≤ length out.old }
    ensures { let sheet = sheet_of (vertices starts.now) (rounds_of (graph_of starts.now links.now) (anchored_by given.now) rounds) in
        Written out.old 0 sheet out.new result }
{
    let house = [0u16; 1024];
    let quotas = [rounds];
    write_shared(starts, links, given, &house, &quotas, rounds, out)
}
