// The answer to a line of the comparison with the original, and the tracker that is held after it.
#![tactic(auto)]

ghost use Rattle.std.specs.Prelude.{◌≡◌, OnErr};

use frame_lines::Asked;
use image::TrackerImage;
use protocol::{Buffer, Fault, Words};
use state_lines::{Loading, StateText};

// What is held between two lines.
#[derive(Clone, Copy)]
pub enum Session {
    Empty,
    Held(TrackerImage),
    // A tracker whose lines are still coming; none where one of them can't be read.
    Loading(Option<Loading>),
}

impl Session {
    pub fn new() -> Session
        ensures { result ≡ Session.Empty }
    {
        Session::Empty
    }

    // Puts the answer to a line: nothing to an empty one or a remark.
    pub fn answer(&mut self, line: &[u8], out: &mut Buffer<'_>) -> Result<(), Fault>
        ensures { OnErr result (out.new ≡ out.old) }
    {
        if line.is_empty() || line.starts_with(b"#") {
            return Ok(());
        }
        match self {
            Session::Loading(load) if line == b"end".as_slice() => {
                let whole = match load {
                    Some(l) => l.whole(),
                    None => Err(Fault::BadState),
                };
                self.end_load(whole)
            }
            Session::Loading(load) => {
                if let Some(l) = load {
                    if l.take(line).is_err() {
                        *load = None;
                    }
                }
                Ok(())
            }
            Session::Empty | Session::Held(_) => self.respond(line, out),
        }
    }

    // What is wrong with a load is said at its end.
    fn end_load(&mut self, whole: Result<TrackerImage, Fault>) -> Result<(), Fault> {
        *self = Session::Empty;
        *self = Session::Held(whole?);
        Ok(())
    }

    // A load drops what was held, and a line that can't be read leaves it.
    fn respond(&mut self, line: &[u8], out: &mut Buffer<'_>) -> Result<(), Fault>
        ensures unsaid { OnErr result (out.new ≡ out.old) }
        ensures kept { OnErr result (self.new ≡ self.old) }
    {
        let (word, words) = Words::of(line);
        match word {
            b"load" => *self = Session::Loading(Loading::begin(words).ok()),
            b"new" => {
                *self = match frame_lines::new(words, out)? {
                    Some(image) => Session::Held(image),
                    None => Session::Empty,
                }
            }
            b"frame" => self.give(&Asked::frame(words)?, out),
            b"repeat" => self.give(&Asked::repeat(words)?, out),
            b"state" => {
                words.end()?;
                self.show(out);
            }
            b"hash" => {
                words.end()?;
                self.show_hash(out);
            }
            _ => match number_lines::answer(word, words, out) {
                Err(Fault::NoSuchLine) => pair_lines::answer(word, words, out)?,
                told => told?,
            },
        }
        Ok(())
    }

    fn give(&mut self, asked: &Asked, out: &mut Buffer<'_>) {
        match self {
            Session::Held(image) => out.put(asked.give(image)),
            _ => out.put_line("no tracker"),
        }
    }

    fn show(&self, out: &mut Buffer<'_>) {
        match self {
            Session::Held(image) => out.put(StateText(image)),
            _ => out.put_line("no tracker"),
        }
    }

    fn show_hash(&self, out: &mut Buffer<'_>) {
        match self {
            Session::Held(image) => {
                let hash = state_lines::hash(image);
                out.put_line(format_args!("{hash:016X}"));
            }
            _ => out.put_line("no tracker"),
        }
    }
}
