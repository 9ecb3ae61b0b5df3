// The ceiling of the search of each line of standard input, `NAME: STARTS: LINKS: ANCHORED: LEVELS: LAYERS: X: MARKS`, of which the last, the
// marks that the search is lent, plays no part: from every vertex of the pools A to H of document 01, of a star whose hub is anchored and of a
// kite, which has two levels, from three of a fork, where two walks end at one vertex, and a refusal of each kind after the table's.
#![tactic(auto)]

use cases::Extent;
use cases::print::{Shown, answer};
use cases::read::Case;
use ceiling::ceiling;
use std::io;

fn run_case(rt: &impl Print, case: &Case<'_>) -> io::Result<()> {
    let (mut starts, mut links, mut anchored) = ([0; 6], [0; 12], [0; 5]);
    let pool = case.pool(&mut starts, &mut links, &mut anchored);
    let (mut levels, mut layers) = ([0; 5], [0; 5]);
    let sheet = case.sheet(&mut levels, &mut layers);
    let bound = ceiling(
        pool.starts,
        pool.links,
        pool.anchored,
        sheet.levels,
        sheet.layers,
        case.number(6) as usize,
    );
    rt.write_all(case.field(0))?;
    print!(rt; " ceiling")?;
    answer(
        rt,
        bound,
        |(bound, size)| println!(rt; " {bound} {}", Shown(size)),
    )
}

fn main(rt: HostRuntime) -> io::Result<()> {
    let lines = Extent {
        bytes: 4096,
        mark: b'\n',
        cases: 46,
    };
    cases::run(&rt, lines, |case| run_case(&rt, case))
}
