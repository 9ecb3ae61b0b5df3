// Runs the text-to-sheet call on the cases of standard input, `NAME: ROOM:TEXT` each, parted by semicolons: at its limits, and on
// texts that it refuses; then on bytes past the greatest size.
#![tactic(auto)]

use answer::text_to_sheet;
use cases::Extent;
use cases::read::Case;
use std::io;
use table::Refusal;

// Prints `NAME: sheet of SIZE bytes` or `NAME: refused NUMBER PLACE`.
fn show(rt: &impl Print, name: &[u8], answer: Result<usize, Refusal>) -> io::Result<()> {
    rt.write_all(name)?;
    print!(rt; ":")?;
    cases::print::answer(rt, answer, |size| println!(rt; " sheet of {size} bytes"))
}

// Of the bytes asked for at most as many as the longest sheet has are lent.
fn run_case(rt: &impl Print, case: &Case<'_>) -> io::Result<()> {
    let mut sheet = [0u8; 64320];
    let room = sheet.len().min(case.number(1) as usize);
    let answer = text_to_sheet(case.field(2), &mut sheet[..room]);
    show(rt, case.field(0), answer)
}

fn main(rt: HostRuntime) -> io::Result<()> {
    let cases = Extent {
        bytes: 2048,
        mark: b';',
        cases: 15,
    };
    cases::run(&rt, cases, |case| run_case(&rt, case))?;
    let answer = text_to_sheet(&[b'x'; 65537], &mut [0; 48]);
    show(&rt, b"65,537 bytes", answer)
}
