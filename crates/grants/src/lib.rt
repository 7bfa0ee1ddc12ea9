// What each track was granted, which tracks are still open, and what a round gives and leaves.
#![tactic(auto)]

ghost use Rattle.std.specs.Prelude.{◌≡◌, [], map, ◌≤◌, ◌<◌, take, replicate};
ghost use Rattle.lists.specs.Lists.{pick, All};
ghost use Rattle.matching.specs.Associate.{corners_at};
ghost use Rattle.frame.specs.Rounds.{place_of};
ghost use Rattle.objects.specs.Dets.{dets_in};
ghost use Rattle.grants.specs.Grants.{granted, seated, open_in, places_of, pushed_place, Names, boxes_of, LeftOf};

use matching::put_corners;
use object::Detection;
use objects::Dets;

// The places of n slots. Cells past them are 0.
// Stays: a count beside an array: memory is fixed, without a heap.
#[derive(Clone, Copy)]
pub struct Places {
    pub n: usize,
    pub at: [usize; 64],
}

// ---- open slots

// Nothing is granted yet.
pub fn no_grants() -> [Option<Detection>; 64]
    ensures { result ≡ replicate 64 None }
{
    [None; 64]
}

fn no_places() -> Places
    ensures { result ≡ places_of [] }
{
    Places { n: 0, at: [0; 64] }
}

// One place more where the test passed.
fn push_place(p: Places, passes: bool, j: usize) -> Places
    requires { p.n < 64 }
    ensures { result ≡ pick passes (pushed_place p j) p }
{
    if passes {
        let at = p.n;
        let mut out = p;
        out.at[at] = j;
        out.n = at + 1;
        return out;
    }
    p
}

// The places without a grant among the first `count`.
pub fn open_places(count: usize, grants: [Option<Detection>; 64]) -> Places
    requires { count ≤ 64 }
    ensures { result ≡ places_of (open_in count grants) }
{
    let mut out = no_places();
    for j in 0..count {
        out = push_place(out, grants[j].is_none(), j);
    }
    out
}

// The boxes at the places, one after another.
pub fn gather(boxes: [f32; 256], places: Places) -> [f32; 256]
    requires { (places.n ≤ 64) × All (λ j. j < 64) places.at }
    ensures { result ≡ boxes_of (map (corners_at boxes) (take places.n places.at)) }
{
    let mut out = [objects::nan(); 256];
    for i in 0..places.n {
        put_corners(&mut out, i, matching::corners_at(&boxes, places.at[i]));
    }
    out
}

// ---- grants by marks

// The slot that a mark names through the places is granted the detection.
fn grant(grants: &mut [Option<Detection>; 64], at: &[usize; 64], m: i64, d: Detection)
    requires { Names at.now 64 m }
    ensures { grants.new ≡ granted (place_of at.now m) d grants.old }
{
    if lapjv_walk::is_free(m) {
        return;
    }
    let t = at[lapjv_walk::index_of(m)];
    grants[t] = Some(d);
}

// Each detection in turn goes to the slot that its mark names through the places.
pub fn seat(
    marks: [i64; 64],
    places: Places,
    dets: Dets,
    grants: [Option<Detection>; 64],
) -> [Option<Detection>; 64]
    requires { (dets.n ≤ 64) × All (Names places.at 64) marks }
    ensures { result ≡ seated (take dets.n (map (place_of places.at) marks)) (dets_in dets) grants }
{
    let mut out = grants;
    for i in 0..dets.n {
        let d = matching::detection_at(&dets.cells, i);
        grant(&mut out, &places.at, marks[i], d);
    }
    out
}

// The detections whose mark is free.
pub fn left(marks: [i64; 64], dets: Dets) -> Dets
    requires { dets.n ≤ 64 }
    ensures { LeftOf marks dets result }
{
    let mut out = Dets::none();
    for i in 0..dets.n {
        out.push_if(
            lapjv_walk::is_free(marks[i]),
            matching::detection_at(&dets.cells, i),
        );
    }
    out
}
