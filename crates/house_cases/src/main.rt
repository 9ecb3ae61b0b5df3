// The shared sheet of each line of standard input, `NAME: STARTS: LINKS: ANCHORED: HOUSES: QUOTAS: ROOM`, the last so many lent bytes, each a
// dash before, and at most 400: turns on a chain, a star and a kite, quotas spent and of 0, nobody left, and a refusal of each kind after the
// table's.
#![tactic(auto)]

use cases::Extent;
use cases::print::{Shown, answer};
use cases::read::Case;
use houses::share_rounds;
use std::io;

fn run_case(rt: &impl Print, case: &Case<'_>) -> io::Result<()> {
    let (mut starts, mut links, mut anchored) = ([0; 6], [0; 12], [0; 6]);
    let pool = case.pool(&mut starts, &mut links, &mut anchored);
    let mut house = [0; 6];
    let house = case.numbers(4, &mut house);
    let mut quotas = [0; 20];
    let quotas = case.numbers(5, &mut quotas);
    let mut bytes = [b'-'; 400];
    let Some(sheet) = bytes.get_mut(..case.number(6) as usize) else {
        return Ok(());
    };
    let rounds = share_rounds(pool.starts, pool.links, pool.anchored, house, quotas, sheet);
    rt.write_all(case.field(0))?;
    answer(
        rt,
        rounds,
        |(length, size)| println!(rt; " sheet {length} {}", Shown(size)),
    )?;
    rt.write_all(sheet)?;
    println!(rt)
}

fn main(rt: HostRuntime) -> io::Result<()> {
    let lines = Extent {
        bytes: 4096,
        mark: b'\n',
        cases: 26,
    };
    cases::run(&rt, lines, |case| run_case(&rt, case))
}
