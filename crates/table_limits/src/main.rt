// Runs the check on tables at and past the limits, then on those of standard input: small sound ones, and a wrong one for each
// way of refusal, on a line `NAME: STARTS: LINKS` each.
#![tactic(auto)]

ghost use Rattle.std.specs.Prelude.{◌≡◌, ◌<◌, length};

use cases::Extent;
use cases::read::Case;
use std::io;

// Prints `NAME: sound` and the size, or `NAME: refused NUMBER PLACE`.
fn run(rt: &impl Print, name: &[u8], starts: &[u16], links: &[u16]) -> io::Result<()> {
    rt.write_all(name)?;
    print!(rt; ":")?;
    cases::print::sound(rt, table::check(starts, links))
}

fn run_vertices(rt: &impl Print) -> io::Result<()> {
    let zeros = [0u16; 1026];
    run(rt, b"1024 vertices", &zeros[..1025], &[])?;
    run(rt, b"1025 vertices", &zeros, &[])
}

// Start v of the table in which each of the vertices 0 to 63 is paired with each of 64 to 191, and then 192 with 193.
fn start(v: usize) -> u16
    requires { v < 195 }
{
    match v {
        ..=64 => (v * 128) as u16,
        ..=192 => (4096 + v * 64) as u16,
        _ => (16192 + v) as u16,
    }
}

// Link i of that table.
fn link(i: usize) -> u16
    requires { i < 16386 }
{
    match i {
        ..8192 => (64 + i % 128) as u16,
        ..16384 => (i % 64) as u16,
        _ => (16577 - i) as u16,
    }
}

fn all_starts() -> [u16; 195]
    ensures { 195 ≡ length result }
{
    let mut starts = [0; 195];
    for v in 0..195 {
        starts[v] = start(v);
    }
    starts
}

fn all_links() -> [u16; 16386]
    ensures { 16386 ≡ length result }
{
    let mut links = [0; 16386];
    for i in 0..16386 {
        links[i] = link(i);
    }
    links
}

fn run_links(rt: &impl Print) -> io::Result<()> {
    let starts = all_starts();
    let links = all_links();
    run(rt, b"16384 links", &starts[0..193], &links[0..16384])?;
    run(rt, b"16386 links", &starts, &links)
}

fn run_case(rt: &impl Print, case: &Case<'_>) -> io::Result<()> {
    let mut starts = [0; 5];
    let starts = case.numbers(1, &mut starts);
    let mut links = [0; 6];
    let links = case.numbers(2, &mut links);
    run(rt, case.field(0), starts, links)
}

fn main(rt: HostRuntime) -> io::Result<()> {
    run_vertices(&rt)?;
    run_links(&rt)?;
    let lines = Extent {
        bytes: 1024,
        mark: b'\n',
        cases: 14,
    };
    cases::run(&rt, lines, |case| run_case(&rt, case))
}
