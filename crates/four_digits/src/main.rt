// Prints the numbers from 0 to 9,999 as the answer sheet has them in its fields of four digits, a line each.
#![tactic(auto)]

use std::io;

fn print_number(rt: &impl Print, v: u16) -> io::Result<()> {
    let mut field = [0u8; 4];
    let end = sheet::line::put_four(&mut field, 0, v);
    rt.write_all(&field[..end])?;
    rt.write_all(b"\n")
}

fn main(rt: HostRuntime) -> io::Result<()> {
    for v in 0..10000 {
        print_number(&rt, v)?;
    }
    Ok(())
}
