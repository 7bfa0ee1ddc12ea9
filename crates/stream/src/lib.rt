// The lines of the comparison with the original, answered one after another from standard input to standard output until the input
// ends: the programs `replay` and `edges` are this on their own lines.
#![tactic(auto)]

ghost use Rattle.std.specs.Prelude.{◌≤◌, length};

use protocol::{Buffer, Fault, FaultAt};
use session::Session;
use std::io;
use std::io::{Read, Write};

// How much is read at a time.
const CHUNK: usize = 65536;

// Room for the longest line, and for the longest answer behind others that wait.
const LINE: usize = 131072;

const ANSWER: usize = 131072;

// An input that is read by chunks, and where what was read and not yet taken begins and ends in the last one.
#[derive(Drop)]
struct Lines<'a, R> {
    input: &'a mut R,
    chunk: &'a mut [u8],
    at: usize,
    end: usize,
    is_open: bool,
    ghost in_order: { at ≤ end },
    ghost within: { end ≤ length chunk.now },
}

impl<'a, R: Read> Lines<'a, R> {
    fn new(input: &'a mut R, chunk: &'a mut [u8]) -> Lines<'a, R> {
        Lines {
            input,
            chunk,
            at: 0,
            end: 0,
            is_open: true,
        }
    }

    // Reads on.
    fn refill(&mut self) -> io::Result<()> {
        let n = self.input.read(self.chunk)?;
        self.at = 0;
        self.end = n.min(self.chunk.len());
        self.is_open = 0 < n;
        Ok(())
    }

    // Moves what was read to a line, up to the next line feed; whether there is one.
    fn pour(&mut self, line: &mut Buffer<'_>) -> (bool, Result<(), Fault>) {
        let rest = &self.chunk[self.at..self.end];
        match rest.iter().position(|b| *b == b'\n') {
            Some(n) => {
                let told = line.push(&rest[..n]);
                self.at += n + 1;
                (true, told)
            }
            None => {
                let told = line.push(rest);
                self.at = self.end;
                (false, told)
            }
        }
    }

    // Takes the next line, if there is one. What waits is written before more is read: every line is answered before the next is waited
    // for. Nothing says that a line ends, so the turns are counted, to a number that no run comes to.
    fn take<W: Write>(
        &mut self,
        line: &mut Buffer<'_>,
        answers: &mut Buffer<'_>,
        output: &mut W,
    ) -> io::Result<Option<Result<(), Fault>>> {
        line.clear();
        let mut fits = Ok(());
        for _ in 0..u64::MAX {
            if self.at == self.end {
                if !self.is_open {
                    break;
                }
                flush(answers, output)?;
                self.refill()?;
            } else {
                let (is_whole, told) = self.pour(line);
                fits = fits.and(told);
                if is_whole {
                    return Ok(Some(fits));
                }
            }
        }
        if line.bytes().is_empty() {
            Ok(None)
        } else {
            Ok(Some(fits))
        }
    }
}

fn flush<W: Write>(answers: &mut Buffer<'_>, output: &mut W) -> io::Result<()> {
    output.write_all(answers.bytes())?;
    answers.clear();
    Ok(())
}

// Puts the answer to a line that was taken.
fn respond(
    session: &mut Session,
    line: &[u8],
    number: u64,
    fits: Result<(), Fault>,
    answers: &mut Buffer<'_>,
) {
    let told = match fits {
        Ok(()) => session.answer(line, answers),
        Err(fault) => Err(fault),
    };
    if let Err(fault) = told {
        answers.put_line(FaultAt {
            line: number,
            fault,
        });
    }
}

// Answers the input's lines. A read or a write that fails ends it: what was written before stays, and answers that waited are lost.
pub fn run<R: Read, W: Write>(input: &mut R, output: &mut W) -> io::Result<()> {
    let mut chunk = [0u8; CHUNK];
    let mut line = [0u8; LINE];
    let mut answers = [0u8; 2 * ANSWER];
    let mut lines = Lines::new(input, &mut chunk);
    let mut line = Buffer::new(&mut line);
    let mut answers = Buffer::new(&mut answers);
    let mut session = Session::new();
    for number in 1..u64::MAX {
        let Some(fits) = lines.take(&mut line, &mut answers, output)? else {
            break;
        };
        if ANSWER < answers.bytes().len() {
            flush(&mut answers, output)?;
        }
        respond(&mut session, line.bytes(), number, fits, &mut answers);
    }
    flush(&mut answers, output)
}
