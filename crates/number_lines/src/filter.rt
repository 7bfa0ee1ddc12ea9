// The lines that ask for a step of the Kalman filter, and their answer.
use kalman_filter::{DetectBox, Filter};
use protocol::{Fault, Row, Words};
use std::fmt;

// A filter after its step.
#[derive(Clone, Copy)]
pub struct Stepped(Filter);

impl fmt::Display for Stepped {
    fn fmt<W: fmt::Write>(&self, f: &mut fmt::Formatter<W>) -> fmt::Result {
        writeln!(f, "x {}", Row(&self.0.x))?;
        writeln!(f, "p {}", Row(&self.0.p))
    }
}

// The measured box that the next four numbers are.
fn next_box(words: &mut Words<'_>) -> Result<DetectBox, Fault> {
    let [x, y, s, r] = words.numbers::<4>()?;
    Ok(DetectBox { x, y, s, r })
}

// The filter at a line's end: its state, then its covariance.
fn filter(mut words: Words<'_>) -> Result<Filter, Fault> {
    let x = words.numbers::<7>()?;
    let p = words.all::<49>()?;
    Ok(Filter { x, p })
}

// `predict` and a filter.
pub fn predicted(words: Words<'_>) -> Result<Stepped, Fault> {
    Ok(Stepped(kalman_filter::predict(filter(words)?)))
}

// `update`, a box and a filter.
pub fn updated(mut words: Words<'_>) -> Result<Stepped, Fault> {
    let z = next_box(&mut words)?;
    Ok(Stepped(kalman_filter::update(filter(words)?, z)))
}

// `replay`, a gap from 2 to a million frames, the last box and the new one, and a filter.
pub fn replayed(mut words: Words<'_>) -> Result<Stepped, Fault> {
    let gap: u32 = words.read()?;
    let last = next_box(&mut words)?;
    let z = next_box(&mut words)?;
    let f = filter(words)?;
    if gap < 2 || 1_000_000 < gap {
        return Err(Fault::BadNumbers);
    }
    Ok(Stepped(gap::replay(f, last, z, gap)))
}
