// The objects of a frame, told apart by their scores: document 01, item 6.
#![tactic(auto)]

ghost use Rattle.std.specs.Prelude.{◌≡◌, ◌+◌, ◌*◌, ◌≤◌, ◌<◌, length, []};
ghost use Rattle.std.specs.Float.{nan};
ghost use Rattle.lists.specs.Lists.{pick};
ghost use Rattle.frame.specs.Objects.{detection_at, objects_of, first_score, spare_score, first_class, spares};
ghost use Rattle.objects.specs.Dets.{dets_of, pushed, Passing};

use frame::Settings;
use object::{Detection, Object, Rect};

// Up to 64 detections, five numbers each: corners and score. Cells past them are NaN.
// Stays: fixed memory, and the pairing takes the numbers one after another.
#[derive(Clone, Copy)]
pub struct Dets {
    pub n: usize,
    pub cells: [f32; 320],
}

// The detection at a place of the input: its rectangle's corners, and its score.
fn detection(input: &[f32], p: usize) -> Detection
    requires { 5 * p + 5 ≤ length input.now }
    ensures { result ≡ detection_at input.now p }
{
    let at = 5 * p;
    let rect = Rect::new(input[at], input[at + 1], input[at + 2], input[at + 3]);
    let o = Object::new(rect, input[at + 4]);
    let r = o.get_rect().get_xyxy();
    Detection {
        x1: r[0],
        y1: r[1],
        x2: r[2],
        y2: r[3],
        score: o.get_prob(),
    }
}

// What stands in a cell that holds no number.
pub fn nan() -> f32
    ensures { result ≡ nan }
{
    0.0 / 0.0
}

impl Dets {
    // No detections.
    pub fn none() -> Dets
        ensures { result ≡ dets_of [] }
    {
        Dets {
            n: 0,
            cells: [nan(); 320],
        }
    }

    // One detection more.
    pub fn push(&mut self, o: Detection)
        requires { self.old.n < 64 }
        ensures { self.new ≡ pushed self.old o }
    {
        let at = 5 * self.n;
        self.cells[at] = o.x1;
        self.cells[at + 1] = o.y1;
        self.cells[at + 2] = o.x2;
        self.cells[at + 3] = o.y2;
        self.cells[at + 4] = o.score;
        self.n += 1;
    }

    // One detection more where the test passed.
    pub fn push_if(&mut self, passes: bool, o: Detection)
        requires { self.old.n < 64 }
        ensures { self.new ≡ pick passes (pushed self.old o) self.old }
    {
        if passes {
            self.push(o);
        }
    }
}

fn is_first(s: Settings, score: f32) -> bool
    ensures { result ≡ first_score s score }
{
    s.det_thresh < score
}

#[tactic(auto, unfolding(frame::specs::Objects::spare_score))]
fn is_spare(s: Settings, score: f32) -> bool
    ensures { result ≡ spare_score s score }
{
    !is_first(s, score) && 0.1 < score
}

// The objects whose score passes, in the order of the frame.
fn passing<F: Fn(f32) -> bool>(input: &[f32], passes: F) -> Dets
    requires { (length input.now ≤ 320) × F.IsAlwaysCallable passes }
    ensures { Passing (F.post passes) input.now result }
{
    let mut out = Dets::none();
    for p in 0..input.len() / 5 {
        let o = detection(input, p);
        out.push_if(passes(o.score), o);
    }
    out
}

// The first-class objects, in the order of the frame.
pub fn first_class(s: Settings, input: &[f32]) -> Dets
    requires { length input.now ≤ 320 }
    ensures { result ≡ dets_of (first_class s (objects_of input.now)) }
{
    passing(input, |score| is_first(s, score))
}

// The spare objects, in the order of the frame.
pub fn spare(s: Settings, input: &[f32]) -> Dets
    requires { length input.now ≤ 320 }
    ensures { result ≡ dets_of (spares s (objects_of input.now)) }
{
    passing(input, |score| is_spare(s, score))
}
