// The text of a tracker's whole state, by which it is compared with the original's: put line by line from the lists of its image
// (crate `image`), hashed, and read back into such lists.
#![tactic(auto)]

mod load;
mod part;

ghost use Rattle.std.specs.Prelude.{◌<◌, ◌≤◌};

use image::TrackerImage;
pub use load::{Loading, settings};
use part::{PARTS, Part, name, span, tag_of};
use protocol::Row;
use std::fmt;
use std::fmt::Write;

// A state as text.
#[derive(Clone, Copy)]
pub struct StateText<'a>(pub &'a TrackerImage);

impl fmt::Display for StateText<'_> {
    fn fmt<W: fmt::Write>(&self, f: &mut fmt::Formatter<W>) -> fmt::Result {
        let i = self.0;
        let issued = i.wide[0];
        let count = i.wide[1];
        let frames = i.words[4];
        writeln!(f, "state {frames} {issued} {count}")?;
        for k in 0..held(count) {
            write_track(f, i, k)?;
        }
        writeln!(f, "end")
    }
}

// How many tracks of the table a count stands for.
fn held(count: u64) -> usize
    ensures { result ≤ 64 }
{
    if count < 64 { count as usize } else { 64 }
}

// Writes track k's lines, first its id, age, streak, frames since update, and whether it is frozen.
fn write_track<W: fmt::Write>(f: &mut fmt::Formatter<W>, i: &TrackerImage, k: usize) -> fmt::Result
    requires { k < 64 }
{
    let w = 5 + 15 * k;
    let id = i.wide[2 + k];
    let frozen = i.words[w];
    let age = i.words[w + 1];
    let streak = i.words[w + 2];
    let since = i.words[w + 3];
    writeln!(f, "track {id} {age} {streak} {since} {frozen}")?;
    for part in &PARTS {
        write_part(f, i, k, *part)?;
    }
    Ok(())
}

// Writes a line of track k. Of a track that isn't frozen there is no saved filter.
fn write_part<W: fmt::Write>(
    f: &mut fmt::Formatter<W>,
    i: &TrackerImage,
    k: usize,
    part: Part,
) -> fmt::Result
    requires { k < 64 }
{
    let name = name(part);
    let s = span(part);
    let from = 3 + 163 * k + s.from;
    match tag_of(part) {
        Some(tag) if i.words[5 + 15 * k + tag] == 0 => match part {
            Part::SavedX | Part::SavedP => Ok(()),
            _ => writeln!(f, "{name} none"),
        },
        _ => writeln!(f, "{name} {}", Row(&i.floats[from..from + s.count])),
    }
}

// FNV-1a, 64 bits, of the text that is written to it.
#[derive(Clone, Copy)]
struct Hasher(u64);

impl fmt::Write for Hasher {
    fn write_str(&mut self, s: &str) -> fmt::Result {
        self.0 = s.as_bytes().iter().fold(
            self.0,
            |h, b| (h ^ u64::from(*b)).wrapping_mul(0x100_0000_01B3),
        );
        Ok(())
    }
}

// The hash of a state's text.
pub fn hash(image: &TrackerImage) -> u64 {
    let mut hasher = Hasher(0xCBF2_9CE4_8422_2325);
    let _ = hasher.write(StateText(image));
    hasher.0
}
