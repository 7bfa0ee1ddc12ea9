// Lines of marks, which say for each index of one list the index of another, or that it has none.
#![tactic(auto)]

use std::fmt;

// The index that a mark is.
fn index_of(m: i64) -> Option<usize> {
    if lapjv_walk::is_free(m) {
        None
    } else {
        Some(lapjv_walk::index_of(m))
    }
}

// The line `matches`: the indices that have a mark, and their marks.
#[derive(Clone, Copy)]
pub struct Matches<'a>(pub &'a [i64]);

impl fmt::Display for Matches<'_> {
    fn fmt<W: fmt::Write>(&self, f: &mut fmt::Formatter<W>) -> fmt::Result {
        write!(f, "matches")?;
        for (i, m) in self.0.iter().enumerate() {
            if let Some(j) = index_of(*m) {
                write!(f, " {i},{j}")?;
            }
        }
        writeln!(f)
    }
}

// The line `dets`: the indices that have none.
#[derive(Clone, Copy)]
pub struct Unmarked<'a>(pub &'a [i64]);

impl fmt::Display for Unmarked<'_> {
    fn fmt<W: fmt::Write>(&self, f: &mut fmt::Formatter<W>) -> fmt::Result {
        write!(f, "dets")?;
        for (i, m) in self.0.iter().enumerate() {
            if index_of(*m).is_none() {
                write!(f, " {i}")?;
            }
        }
        writeln!(f)
    }
}

// The line `tracks`: the first so many indices, without those that are marks.
#[derive(Clone, Copy)]
pub struct Untaken<'a> {
    pub marks: &'a [i64],
    pub tracks: usize,
}

impl fmt::Display for Untaken<'_> {
    fn fmt<W: fmt::Write>(&self, f: &mut fmt::Formatter<W>) -> fmt::Result {
        write!(f, "tracks")?;
        for j in 0..self.tracks {
            if !self.marks.iter().any(|m| index_of(*m) == Some(j)) {
                write!(f, " {j}")?;
            }
        }
        writeln!(f)
    }
}

// The marks of all indices, each behind a blank. What is no index is put as 0.
#[derive(Clone, Copy)]
pub struct Marks<'a>(pub &'a [i64]);

impl fmt::Display for Marks<'_> {
    fn fmt<W: fmt::Write>(&self, f: &mut fmt::Formatter<W>) -> fmt::Result {
        for m in self.0 {
            let j = index_of(*m).unwrap_or(0);
            write!(f, " {j}")?;
        }
        Ok(())
    }
}
