// Lines of output: a label, then what the case gave. A write that fails ends the line with its error.
ghost use Rattle.tool_print.specs.Row.{row_text};

use crate::board::Board;
use std::fmt::Display;
use std::{fmt, io};

// Numbers, a space before each.
#[derive_where(Clone, Copy)]
pub struct Row<'a, T>(pub &'a [T]);

impl<T: Display> Display for Row<'_, T> {
    ghost output = { λ row. row_text T.output row.0.now };

    fn fmt<W: fmt::Write>(&self, f: &mut fmt::Formatter<W>) -> fmt::Result {
        for n in self.0 {
            write!(f, " {n}")?;
        }
        Ok(())
    }
}

// Where the cases of a board are written.
#[derive(Drop)]
pub struct Cases<'a, P: Print> {
    pub rt: &'a P,
    pub board: Board,
}

impl<P: Print> Cases<'_, P> {
    // A label and a value. No contract: it changes nothing, and of what is printed a clause can say nothing, since `Print` has none.
    pub fn line(&self, label: &str, value: impl Display + Drop) -> io::Result<()> {
        println!(self.rt; "{label}: {value}")
    }

    // A label and the bytes of a slice, each as a number. No contract, as of `line`.
    pub fn bytes(&self, label: &str, bytes: &[u8]) -> io::Result<()> {
        println!(self.rt; "{label}:{}", Row(bytes))
    }
}
