// What a call that assigns is given and what it answers.
ghost use Rattle.std.specs.Prelude.{◌≤◌, length, IfOk, OnOk};
ghost use Rattle.protocol.specs.Words.{words_left};

use mark_lines::Marks;
use object::Refusal;
use protocol::{Fault, FromWord, Words};
use std::fmt;

// What every cell of the lists holds before a call.
const LENT: i64 = 77;

// How the call ended, and how many costs it read, where the line asks for it.
#[derive(Clone, Copy)]
pub struct Solved {
    pub outcome: Result<(), Refusal>,
    pub reads: Option<usize>,
}

// What a call left: the marks of n rows and columns, and whether it wrote others.
#[derive(Clone, Copy)]
pub struct Pairs {
    solved: Solved,
    spoiled: bool,
    n: usize,
    x: [i64; 128],
    y: [i64; 128],
}

// Whether a mark from a place on isn't as it was lent.
fn is_changed(marks: &[i64], from: usize) -> bool {
    marks.iter().skip(from).any(|m| *m != LENT)
}

// `N XLEN YLEN` and the costs, for which there is some room, given to a call. Longer lists and more costs than any n allows are cut to
// as many as still fit none. It may write n marks to each list, and none where it refuses.
pub fn paired<T: FromWord, F: FnOnce(usize, &[T], &mut [i64], &mut [i64]) -> Solved>(
    mut words: Words<'_>,
    costs: &mut [T],
    call: F,
) -> Result<Pairs, Fault>
    requires { F.IsAlwaysCallable call }
    ensures shown { IfOk result (λ p. p.n ≤ 128) }
    ensures words { OnOk result (3 ≤ length (words_left words.entry)) }
{
    let n = words.read::<u32>()? as usize;
    let rows = words.read::<u32>()? as usize;
    let columns = words.read::<u32>()? as usize;
    let count = words.fill(costs)?.min(costs.len());
    let mut x = [LENT; 128];
    let mut y = [LENT; 128];
    let solved = call(
        n,
        &costs[..count],
        &mut x[..rows.min(128)],
        &mut y[..columns.min(128)],
    );
    let from = if solved.outcome.is_ok() { n } else { 0 };
    let spoiled = is_changed(&x, from) || is_changed(&y, from);
    Ok(Pairs {
        solved,
        spoiled,
        n: n.min(128),
        x,
        y,
    })
}

impl fmt::Display for Pairs {
    fn fmt<W: fmt::Write>(&self, f: &mut fmt::Formatter<W>) -> fmt::Result {
        match self.solved.outcome {
            Ok(()) => writeln!(f, "ok")?,
            Err(refusal) => writeln!(f, "refused {}", u8::from(refusal))?,
        }
        if let Some(reads) = self.solved.reads {
            writeln!(f, "reads {reads}")?;
        }
        if self.solved.outcome.is_ok() {
            let n = self.n.min(128);
            writeln!(f, "x{}", Marks(&self.x[..n]))?;
            writeln!(f, "y{}", Marks(&self.y[..n]))?;
        }
        if self.spoiled {
            writeln!(f, "spoiled")?;
        }
        Ok(())
    }
}
