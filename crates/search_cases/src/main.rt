// The follower search and the collapse of each line of standard input, `NAME: STARTS: LINKS: ANCHORED: LEVELS: LAYERS: X: MARKS`, the
// last what the marks' slice holds before: from every vertex of the pools A to H of document 01, of a star whose hub is anchored and of a
// kite, which has two levels, and a refusal of each kind after the table's.
#![tactic(auto)]

use cases::Extent;
use cases::print::{Row, Shown, answer, sound};
use cases::read::{Case, Pool, Sheet};
use collapse::collapse;
use search::{Found, followers};
use std::io;

fn run_search(
    rt: &impl Print,
    name: &[u8],
    pool: Pool<'_>,
    sheet: Sheet<'_>,
    x: usize,
    marks: &mut [u8],
) -> io::Result<()> {
    let searched = followers(
        pool.starts,
        pool.links,
        pool.anchored,
        sheet.levels,
        sheet.layers,
        x,
        marks,
    );
    rt.write_all(name)?;
    print!(rt; " marks{}", Row(marks))?;
    answer(rt, searched, |(Found { lifted, reached }, size)| {
        println!(rt; " lifted {lifted} reached {reached} {}", Shown(size))
    })
}

fn run_collapse(
    rt: &impl Print,
    name: &[u8],
    pool: Pool<'_>,
    sheet: Sheet<'_>,
    x: usize,
    marks: &mut [u8],
) -> io::Result<()> {
    let fallen = collapse(
        pool.starts,
        pool.links,
        pool.anchored,
        sheet.levels,
        sheet.layers,
        x,
        marks,
    );
    rt.write_all(name)?;
    print!(rt; " falls{}", Row(marks))?;
    sound(rt, fallen)
}

fn run_case(rt: &impl Print, case: &Case<'_>) -> io::Result<()> {
    let name = case.field(0);
    let (mut starts, mut links, mut anchored) = ([0; 5], [0; 12], [0; 4]);
    let pool = case.pool(&mut starts, &mut links, &mut anchored);
    let (mut levels, mut layers) = ([0; 4], [0; 5]);
    let sheet = case.sheet(&mut levels, &mut layers);
    let x = case.number(6) as usize;
    let mut marks = [0; 4];
    run_search(rt, name, pool, sheet, x, case.bytes(7, &mut marks))?;
    run_collapse(rt, name, pool, sheet, x, case.bytes(7, &mut marks))
}

fn main(rt: HostRuntime) -> io::Result<()> {
    let lines = Extent {
        bytes: 4096,
        mark: b'\n',
        cases: 43,
    };
    cases::run(&rt, lines, |case| run_case(&rt, case))
}
