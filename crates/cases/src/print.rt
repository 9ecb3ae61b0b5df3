// Answers, rows and sizes as they are printed. A case's name is printed byte for byte as it was read.
use std::fmt::{Display, Formatter};
use std::{fmt, io};
use table::{Refusal, Size};

// `edges NUMBER max degree NUMBER`.
#[derive(Drop)]
pub struct Shown(pub Size);

impl Display for Shown {
    fn fmt<W: fmt::Write>(&self, f: &mut Formatter<W>) -> fmt::Result {
        write!(f, "edges {} max degree {}", self.0.edges, self.0.max_degree)
    }
}

// Each number behind a space; of a longer row the first eight.
#[derive(Drop)]
pub struct Row<'a, T>(pub &'a [T]);

impl<'a, T: Display> Display for Row<'a, T> {
    fn fmt<W: fmt::Write>(&self, f: &mut Formatter<W>) -> fmt::Result {
        for number in self.0.iter().take(8) {
            write!(f, " {number}")?;
        }
        if self.0.len() > 8 {
            write!(f, " ..")?;
        }
        Ok(())
    }
}

// `NAME TITLE` and the row.
pub fn labelled_row<T: Display>(
    rt: &impl Print,
    name: &[u8],
    title: &str,
    numbers: &[T],
) -> io::Result<()> {
    rt.write_all(name)?;
    println!(rt; " {title}{}", Row(numbers))
}

// Ends a line by what `show` prints of the answer, or by ` refused NUMBER PLACE`.
pub fn answer<R: Print, T: Drop, F: FnOnce(T) -> io::Result<()> + Drop>(
    rt: &R,
    answer: Result<T, Refusal>,
    show: F,
) -> io::Result<()>
    requires { F.IsAlwaysCallable show }
{
    match answer {
        Ok(value) => show(value),
        Err(refusal) => println!(rt; " {refusal}"),
    }
}

// Ends a line by ` sound` and the size, or by ` refused NUMBER PLACE`.
pub fn sound(rt: &impl Print, checked: Result<Size, Refusal>) -> io::Result<()> {
    answer(rt, checked, |size| println!(rt; " sound {}", Shown(size)))
}
