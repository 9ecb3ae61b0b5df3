// What the programs of cases share: the cases of standard input, and answers and labelled rows on standard output.
#![tactic(auto)]

pub mod print; // answers, rows and sizes as they are printed
pub mod read; // the fields of a case

use read::Case;
use std::io;
use std::io::Read;

// What is read of standard input: its first so many bytes, and of these so many cases, parted by a mark.
#[derive(Clone, Copy, Debug, PartialEq, Eq)]
pub struct Extent {
    pub bytes: u64,
    pub mark: u8,
    pub cases: usize,
}

// Hands each case of standard input to `run`, in order; where the input has fewer, the others are empty.
pub fn run<R: Input + AllocGlobal, F: FnMut(&Case<'_>) -> io::Result<()>>(
    rt: &R,
    extent: Extent,
    mut run: F,
) -> io::Result<()>
    requires { F.IsAlwaysCallable run }
{
    let mut text = Vec::new(rt.alloc());
    rt.reader().take(extent.bytes).read_to_end(&mut text)?;
    for k in 0..extent.cases {
        run(&Case::new(read::piece(&text, extent.mark, k)))?;
    }
    Ok(())
}
