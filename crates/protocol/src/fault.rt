use std::fmt;

// Why a line has no answer.
#[derive(Clone, Copy, Debug, PartialEq, Eq)]
pub enum Fault {
    BadNumbers,
    NoSuchLine,
    BadState,
    TooLong,
}

impl fmt::Display for Fault {
    fn fmt<W: fmt::Write>(&self, f: &mut fmt::Formatter<W>) -> fmt::Result {
        match self {
            Fault::BadNumbers => write!(f, "bad numbers"),
            Fault::NoSuchLine => write!(f, "no such line"),
            Fault::BadState => write!(f, "bad state"),
            Fault::TooLong => write!(f, "too long"),
        }
    }
}

// What the line of that number gets.
#[derive(Clone, Copy)]
pub struct FaultAt {
    pub line: u64,
    pub fault: Fault,
}

impl fmt::Display for FaultAt {
    fn fmt<W: fmt::Write>(&self, f: &mut fmt::Formatter<W>) -> fmt::Result {
        write!(f, "error: line {}: {}", self.line, self.fault)
    }
}
