// The lines that make a tracker and give it frames, answered by the tracker itself.
#![tactic(auto)]

ghost use Rattle.std.specs.Prelude.{◌≡◌, ◌+◌, ◌≤◌, length, IfOk, OnErr};
ghost use Rattle.std.specs.Bool.{OnFalse};
ghost use Rattle.protocol.specs.Words.{words_left};

use frame::Tracker;
use image::TrackerImage;
use object::Refusal;
use protocol::{Buffer, Fault, Row, Words};
use std::fmt;

// ---- `new`

// `new` and the seven settings. Answers the tracker's image, if one is made.
pub fn new(mut words: Words<'_>, out: &mut Buffer<'_>) -> Result<Option<TrackerImage>, Fault>
    ensures { OnErr result (out.new ≡ out.old) }
{
    let settings = state_lines::settings(&mut words)?;
    words.end()?;
    let made = oc_sort_tracker::with_settings(settings);
    match made.outcome {
        Ok(()) => {
            out.put_line("ok");
            Ok(Some(to_image::freeze(made.tracker)))
        }
        Err(refusal) => {
            out.put_line(format_args!("refused {}", u8::from(refusal)));
            Ok(None)
        }
    }
}

// ---- `frame` and `repeat`

// What the cells of a lent buffer hold before a frame: 4B4B4B4B, and 5A5A5A5A5A5A5A5A.
const BOX: f32 = 13323083.0;

const ID: u64 = 0x5A5A_5A5A_5A5A_5A5A;

// How often to give a frame, the lengths of the buffers to lend, how many numbers it has, and the numbers, as far as there is room.
#[derive(Clone, Copy)]
pub struct Asked {
    times: u32,
    boxes: usize,
    ids: usize,
    count: usize,
    input: [f32; 329],
}

// How many numbers of a line are given to the frame. More than any frame takes are cut to as many as are still too many, and as
// ragged.
fn given(n: usize) -> usize
    ensures { result ≤ 329 }
{
    if n < 326 { n } else { 325 + n % 5 }
}

// Whether the cells past so many reports are as they were lent.
fn are_kept(boxes: &[f32], ids: &[u64], reports: usize) -> bool {
    ids.iter().skip(reports).all(|id| *id == ID)
        && boxes
            .iter()
            .skip(reports.saturating_mul(4))
            .all(|b| *b == BOX)
}

impl Asked {
    // Behind the word `frame`: the lengths of the buffers, and then the objects' numbers.
    pub fn frame(words: Words<'_>) -> Result<Asked, Fault>
        ensures { IfOk result (λ a. (a.times ≡ 1) × (a.count + 2 ≡ length (words_left words.entry))) }
    {
        Asked::frames(1, words)
    }

    // Behind the word `repeat`: how often, once at least, and the same behind it.
    pub fn repeat(mut words: Words<'_>) -> Result<Asked, Fault>
        ensures { IfOk result (λ a. (1 ≤ a.times) × (a.count + 3 ≡ length (words_left words.entry))) }
    {
        let times: u32 = words.read()?;
        if times == 0 {
            return Err(Fault::BadNumbers);
        }
        Asked::frames(times, words)
    }

    fn frames(times: u32, mut words: Words<'_>) -> Result<Asked, Fault>
        ensures { IfOk result (λ a. (a.times ≡ times) × (a.count + 2 ≡ length (words_left words.entry))) }
    {
        let boxes: u32 = words.read()?;
        let ids: u32 = words.read()?;
        let mut input = [0.0f32; 329];
        let count = words.fill(&mut input)?;
        Ok(Asked {
            times,
            boxes: boxes as usize,
            ids: ids as usize,
            count,
            input,
        })
    }

    // Gives the frames to the tracker of an image.
    pub fn give(&self, image: &mut TrackerImage) -> Left
        ensures { IfOk result.outcome (λ n. OnFalse result.spoiled (n ≤ 64)) }
    {
        let mut tracker = from_image::thaw(*image);
        let mut left = self.step(&mut tracker);
        for _ in 1..self.times {
            let was_spoiled = left.spoiled;
            left = self.step(&mut tracker);
            left.spoiled = left.spoiled || was_spoiled;
        }
        *image = to_image::freeze(tracker);
        left
    }

    // One frame on freshly filled buffers.
    fn step(&self, tracker: &mut Tracker) -> Left
        ensures { IfOk result.outcome (λ n. OnFalse result.spoiled (n ≤ 64)) }
    {
        let mut boxes = [BOX; 1024];
        let mut ids = [ID; 256];
        let answer = oc_sort_tracker::update(
            *tracker,
            &self.input[..given(self.count)],
            &mut boxes[..self.boxes.min(1024)],
            &mut ids[..self.ids.min(256)],
        );
        *tracker = answer.tracker;
        let outcome = answer.outcome;
        let reports = outcome.unwrap_or(0);
        Left {
            outcome,
            boxes,
            ids,
            spoiled: !are_kept(&boxes, &ids, reports) || 64 < reports,
        }
    }
}

// What a frame left: how many reports, or why there are none, the buffers, and whether a cell changed that must not.
#[derive(Clone, Copy)]
pub struct Left {
    outcome: Result<usize, Refusal>,
    boxes: [f32; 1024],
    ids: [u64; 256],
    spoiled: bool,
}

impl fmt::Display for Left {
    fn fmt<W: fmt::Write>(&self, f: &mut fmt::Formatter<W>) -> fmt::Result {
        match self.outcome {
            Ok(count) => {
                writeln!(f, "ok {count}")?;
                let reports = self.ids.iter().zip(self.boxes.chunks_exact(4));
                for (id, numbers) in reports.take(count) {
                    writeln!(f, "{id} {}", Row(numbers))?;
                }
            }
            Err(refusal) => writeln!(f, "refused {}", u8::from(refusal))?,
        }
        if self.spoiled {
            writeln!(f, "spoiled")?;
        }
        Ok(())
    }
}
