// The first day of each line of standard input, `NAME: STARTS: LINKS: VERTICES: FIRSTS: ENDS: FROM: UNTIL: X: K`: on a chain and on a kite,
// with terms that meet, overlap and lie outside the span, and a refusal of each kind after the table's.
#![tactic(auto)]

use cases::Extent;
use cases::print::{Shown, answer};
use cases::read::Case;
use first_day::first_day;
use std::io;

fn run_case(rt: &impl Print, case: &Case<'_>) -> io::Result<()> {
    let (mut starts, mut links) = ([0; 5], [0; 12]);
    let (mut vertices, mut firsts, mut ends) = ([0; 4], [0; 4], [0; 4]);
    let starts = case.numbers(1, &mut starts);
    let links = case.numbers(2, &mut links);
    let vertices = case.numbers(3, &mut vertices);
    let firsts = case.numbers(4, &mut firsts);
    let ends = case.numbers(5, &mut ends);
    let from = case.number(6);
    let until = case.number(7);
    let x = case.number(8) as usize;
    let k = case.number(9);
    let day = first_day(starts, links, vertices, firsts, ends, from, until, x, k);
    rt.write_all(case.field(0))?;
    answer(rt, day, |(day, size)| match day {
        Some(day) => println!(rt; " day {day} {}", Shown(size)),
        None => println!(rt; " never {}", Shown(size)),
    })
}

fn main(rt: HostRuntime) -> io::Result<()> {
    let lines = Extent {
        bytes: 4096,
        mark: b'\n',
        cases: 29,
    };
    cases::run(&rt, lines, |case| run_case(&rt, case))
}
