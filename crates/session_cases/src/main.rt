// Runs sessions on the chain of document 01, without events, with edges added and dropped on it, without vertices, and with as many events
// as a session takes and one more. The lent slices are parts of rows of 7s, the places past the last link too; of each but the anchored bytes the
// first eight places are printed.
#![tactic(auto)]

ghost use Rattle.std.specs.Prelude.{◌≤◌, length};

use cases::print::{Row, sound};
use std::io;

// A session's table, the anchored bytes that it is given, and its events.
#[derive(Drop)]
struct Session<'a> {
    name: &'a str,
    starts: &'a [u16],
    links: &'a [u16],
    given: &'a [u8],
    kinds: &'a [u16],
    firsts: &'a [u16],
    seconds: &'a [u16],
}

// What a session keeps of each vertex, and answers to each event.
#[derive(Drop)]
struct Record {
    anchored: [u8; 4],
    levels: [u16; 4],
    layers: [u16; 4],
    components: [u16; 4],
    yields: [i16; 4],
    reached: [u16; 4],
    stamps: [u16; 4],
    status: [u16; 4097],
    lifted: [u16; 4097],
    redone: [u16; 4097],
}

impl Record {
    fn of_sevens() -> Record {
        Record {
            anchored: [7; 4],
            levels: [7; 4],
            layers: [7; 4],
            components: [7; 4],
            yields: [7; 4],
            reached: [7; 4],
            stamps: [7; 4],
            status: [7; 4097],
            lifted: [7; 4097],
            redone: [7; 4097],
        }
    }

    fn print(&self, rt: &impl Print, name: &str) -> io::Result<()> {
        println!(rt; "{name} status{}", Row(&self.status))?;
        println!(rt; "{name} lifted{}", Row(&self.lifted))?;
        println!(rt; "{name} redone{}", Row(&self.redone))?;
        println!(rt; "{name} stamps{}", Row(&self.stamps))?;
        println!(rt; "{name} levels{}", Row(&self.levels))?;
        println!(rt; "{name} layers{}", Row(&self.layers))?;
        println!(rt; "{name} components{}", Row(&self.components))?;
        println!(rt; "{name} yields{}", Row(&self.yields))?;
        println!(rt; "{name} reached{}", Row(&self.reached))
    }
}

// Prints the events, then the answer, and the record and the table as they are afterwards. The record has a place for each
// vertex and event, and the table is copied into arrays, so no heap is needed.
fn run(rt: &impl Print, session: &Session<'_>) -> io::Result<()>
    requires starts_bound { length session.now.starts.now ≤ 5 }
    requires links_bound { length session.now.links.now ≤ 16384 }
    requires given_bound { length session.now.given.now ≤ 4 }
    requires kinds_bound { length session.now.kinds.now ≤ 4097 }
{
    let name = session.name;
    println!(rt; "{name} kinds{}", Row(session.kinds))?;
    println!(rt; "{name} firsts{}", Row(session.firsts))?;
    println!(rt; "{name} seconds{}", Row(session.seconds))?;
    let mut places = [0; 5];
    let starts = &mut places[..session.starts.len()];
    starts.copy_from_slice(session.starts);
    let mut links = [7; 16384];
    links[..session.links.len()].copy_from_slice(session.links);
    let n = session.given.len();
    let m = session.kinds.len();
    let mut record = Record::of_sevens();
    let answer = session::run::run(
        starts,
        &mut links,
        session.given,
        session.kinds,
        session.firsts,
        session.seconds,
        &mut record.anchored[..n],
        &mut record.levels[..n],
        &mut record.layers[..n],
        &mut record.components[..n],
        &mut record.yields[..n],
        &mut record.reached[..n],
        &mut record.stamps[..n],
        &mut record.status[..m],
        &mut record.lifted[..m],
        &mut record.redone[..m],
    );
    print!(rt; "{name}")?;
    sound(rt, answer)?;
    record.print(rt, name)?;
    println!(rt; "{name} starts{}", Row(starts))?;
    println!(rt; "{name} links{}", Row(&links))
}

// Events of these kinds, on vertex 0, which is the only one.
fn run_limit(rt: &impl Print, name: &str, kinds: &[u16]) -> io::Result<()>
    requires { length kinds.now ≤ 4097 }
{
    run(
        rt,
        &Session {
            name,
            starts: &[0, 0],
            links: &[],
            given: &[0],
            kinds,
            firsts: kinds,
            seconds: kinds,
        },
    )
}

fn run_nobody(rt: &impl Print) -> io::Result<()> {
    run(
        rt,
        &Session {
            name: "nobody",
            starts: &[0],
            links: &[],
            given: &[],
            kinds: &[1],
            firsts: &[0],
            seconds: &[0],
        },
    )
}

// Events on the chain of four vertices.
fn run_chain(
    rt: &impl Print,
    name: &str,
    kinds: &[u16],
    firsts: &[u16],
    seconds: &[u16],
) -> io::Result<()>
    requires { length kinds.now ≤ 4097 }
{
    run(
        rt,
        &Session {
            name,
            starts: &[0, 1, 3, 5, 6],
            links: &[1, 0, 2, 1, 3, 2],
            given: &[0; 4],
            kinds,
            firsts,
            seconds,
        },
    )
}

fn main(rt: HostRuntime) -> io::Result<()> {
    run_chain(&rt, "still", &[], &[], &[])?;
    run_chain(&rt, "chain", &[0, 0, 0, 0], &[0, 0, 3, 9], &[9, 8, 7, 6])?;
    run_chain(&rt, "ring", &[0, 1, 2, 1], &[0, 0, 1, 3], &[7, 3, 2, 3])?;
    run_nobody(&rt)?;
    run_limit(&rt, "4096 events", &[0; 4096])?;
    run_limit(&rt, "4097 events", &[0; 4097])
}
