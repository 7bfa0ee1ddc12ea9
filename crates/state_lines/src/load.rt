// Reading a state's text: a `load` line with the settings and counts, then the lines of each track in the order in which they are put.
ghost use Rattle.std.specs.Prelude.{◌≡◌, ◌+◌, ◌<◌, ◌≤◌, length, IfOk, OnOk};
ghost use Rattle.protocol.specs.Blank.{Taken};
ghost use Rattle.protocol.specs.Words.{words_left};

use crate::held;
use crate::part::{PARTS, Part, name, span, tag_of};
use frame::Settings;
use image::TrackerImage;
use protocol::{Fault, Words};

// A state of which some lines have come: the track whose lines come next, and those of its lines that are to come, of which there is
// none where its first line is.
#[derive(Clone, Copy)]
pub struct Loading {
    index: usize,
    due: &'static [Part],
    image: TrackerImage,
}

// The settings that the next words are.
pub fn settings(words: &mut Words<'_>) -> Result<Settings, Fault>
    ensures { OnOk result (Taken 7 (words_left words.old) (words_left words.new)) }
{
    Ok(Settings {
        det_thresh: words.read()?,
        iou_threshold: words.read()?,
        inertia: words.read()?,
        max_age: words.read()?,
        min_hits: words.read()?,
        delta_t: words.read()?,
        use_byte: words.size(1)? == 1,
    })
}

impl Loading {
    // Behind the word `load`: settings, frames, ids and count. The state has no track yet.
    pub fn begin(mut words: Words<'_>) -> Result<Loading, Fault>
        ensures words { OnOk result (length (words_left words.entry) ≡ 10) }
        ensures new { IfOk result (λ l. (l.index ≡ 0) × (length l.due.now ≡ 0)) }
    {
        let s = settings(&mut words)?;
        let frames: u32 = words.read()?;
        let issued: u32 = words.read()?;
        let count: u32 = words.read()?;
        words.end()?;
        let mut wide = [0u64; 66];
        let mut floats = [0.0f32; 10435];
        let mut numbers = [0u32; 965];
        wide[0] = u64::from(issued);
        wide[1] = u64::from(count);
        floats[0] = s.det_thresh;
        floats[1] = s.iou_threshold;
        floats[2] = s.inertia;
        numbers[0] = s.max_age;
        numbers[1] = s.min_hits;
        numbers[2] = s.delta_t;
        numbers[3] = u32::from(s.use_byte);
        numbers[4] = frames;
        Ok(Loading {
            index: 0,
            due: &[],
            image: TrackerImage {
                wide,
                floats,
                words: numbers,
            },
        })
    }

    // Takes one more line, which is not the last. After a fault the state means nothing.
    pub fn take(&mut self, line: &[u8]) -> Result<(), Fault>
        ensures room { OnOk result (self.old.index < 64) }
        ensures order { (self.old.index ≤ self.new.index) × (self.new.index ≤ self.old.index + 1) }
    {
        let k = self.index;
        if 63 < k {
            return Err(Fault::BadState);
        }
        let (first, words) = Words::of(line);
        let is_frozen = self.image.words[5 + 15 * k] != 0;
        let due = match self.due {
            [Part::SavedX, Part::SavedP, rest @ ..] if !is_frozen => rest,
            due => due,
        };
        let Some((part, rest)) = due.split_first() else {
            if first != b"track".as_slice() {
                return Err(Fault::BadState);
            }
            self.due = &PARTS;
            return self.take_head(words, k);
        };
        if first != name(*part).as_bytes() {
            return Err(Fault::BadState);
        }
        self.due = rest;
        if rest.is_empty() {
            self.index = k + 1;
        }
        self.take_part(words, k, *part)
    }

    // Track k's first line: id, age, streak, frames since update, and whether it is frozen.
    fn take_head(&mut self, mut words: Words<'_>, k: usize) -> Result<(), Fault>
        requires { k < 64 }
        ensures { self.new.index ≡ self.old.index }
    {
        let w = 5 + 15 * k;
        let id: u32 = words.read()?;
        self.image.wide[2 + k] = u64::from(id);
        self.image.words[w + 1] = words.read()?;
        self.image.words[w + 2] = words.read()?;
        self.image.words[w + 3] = words.read()?;
        self.image.words[w] = words.size(1)? as u32;
        words.end()
    }

    // A line of track k behind its first: its numbers, or for a box or a direction the word `none`. The newest box is not kept apart.
    fn take_part(&mut self, words: Words<'_>, k: usize, part: Part) -> Result<(), Fault>
        requires { k < 64 }
        ensures { self.new.index ≡ self.old.index }
    {
        let is_none = words.is_only(b"none");
        match part {
            Part::X | Part::P | Part::SavedX | Part::SavedP => self.take_numbers(words, k, part),
            Part::Newest if is_none => Ok(()),
            Part::Newest => words.all::<5>().map(|_| ()),
            _ => {
                if let Some(tag) = tag_of(part) {
                    self.image.words[5 + 15 * k + tag] = u32::from(!is_none);
                }
                if is_none {
                    Ok(())
                } else {
                    self.take_numbers(words, k, part)
                }
            }
        }
    }

    // The numbers of a line go to their place, and have to be as many as the line has.
    fn take_numbers(&mut self, words: Words<'_>, k: usize, part: Part) -> Result<(), Fault>
        requires { k < 64 }
        ensures { self.new.index ≡ self.old.index }
    {
        let s = span(part);
        let from = 3 + 163 * k + s.from;
        if words.fill(&mut self.image.floats[from..from + s.count])? == s.count {
            Ok(())
        } else {
            Err(Fault::BadState)
        }
    }

    // The state, if the lines so far are a whole one.
    pub fn whole(&self) -> Result<TrackerImage, Fault>
        ensures { IfOk result (λ i. (i ≡ self.now.image) × (self.now.index ≤ 64) × (length self.now.due.now ≡ 0)) }
    {
        if self.due.is_empty() && self.index == held(self.image.wide[1]) {
            Ok(self.image)
        } else {
            Err(Fault::BadState)
        }
    }
}
