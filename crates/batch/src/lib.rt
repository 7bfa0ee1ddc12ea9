// The matrices of all objects and all tracks, row after row, an object each: overlaps, and overlap plus angle term. assoc.rs, document 01, item 3.
#![tactic(auto)]

ghost use Rattle.std.specs.Prelude.{◌≡◌, ◌++◌, ◌*◌, ◌≤◌, length, get_or, drop};
ghost use Rattle.std.specs.Float.{binary32, nan};
ghost use Rattle.std.specs.Float.Ieee.{add, sub};
ghost use Rattle.lists.specs.Lists.{tab};
ghost use Rattle.pair.specs.Overlap.{overlap_of};
ghost use Rattle.pair.specs.Angle.{unit_of, angle_of, cosine_of, mask_of, term_of};
ghost use Rattle.matching.specs.Passes.{centre_x, centre_y, Centred};
ghost use Rattle.matching.specs.Associate.{angle_term, overlaps};
ghost use Rattle.matching.specs.Cells.{overlap_cells};
ghost use Rattle.matching.specs.Lent.{det_of, box_of, step_of, matrix_of};

use matching::{Boxes, Detections, Grid, Motions, fill};
use object::{Corners, Detection};
use pair::{angle, centre, cosine, mask, overlap, term};

// The overlaps of one object and all boxes; cells past them stay. A function of its own: so LLVM lifts more tests of d out of the loop.
fn overlap_row(d: Corners, boxes: Boxes, out: &mut [f32])
    requires { boxes.n ≤ length out.old }
    ensures { out.new ≡ tab (λ j. overlap_of d (box_of boxes.entry j)) boxes.entry.n ++ drop boxes.entry.n out.old }
{
    fill(out, boxes.n, |j| overlap(d, boxes.get(j)));
}

// The overlaps of all objects and all boxes; cells past them stay.
pub fn iou_batch(dets: Detections, boxes: Boxes, out: &mut [f32])
    requires { dets.n * boxes.n ≤ length out.old }
    ensures { out.new ≡ overlap_cells dets.entry.n boxes.entry.n (overlaps (det_of dets.entry) (box_of boxes.entry)) ++ drop (dets.entry.n * boxes.entry.n) out.old }
{
    for i in 0..dets.n {
        let from = i * boxes.n;
        overlap_row(Corners::from(dets.get(i)), boxes, &mut out[from..]);
    }
}

// The centres' x and y of boxes; cells past them stay.
fn centres(boxes: Detections, xs: &mut [f32; 64], ys: &mut [f32; 64])
    ensures x { xs.new ≡ tab (λ j. centre_x (det_of boxes.entry j)) boxes.entry.n ++ drop boxes.entry.n xs.old }
    ensures y { ys.new ≡ tab (λ j. centre_y (det_of boxes.entry j)) boxes.entry.n ++ drop boxes.entry.n ys.old }
{
    fill(xs, boxes.n, |j| {
        let d = boxes.get(j);
        centre(d.x1, d.x2)
    });
    fill(ys, boxes.n, |j| {
        let d = boxes.get(j);
        centre(d.y1, d.y2)
    });
}

// The cosines between the tracks' directions and the steps from xs, ys to x, y; cells past them stay.
fn cosines(x: f32, y: f32, xs: &[f32; 64], ys: &[f32; 64], tracks: Motions, out: &mut [f32; 64])
    ensures { out.new ≡ tab (λ j. cosine_of (step_of tracks.entry j) (unit_of (sub binary32 x (get_or xs.now j nan)) (sub binary32 y (get_or ys.now j nan)))) tracks.entry.previous.n ++ drop tracks.entry.previous.n out.old }
{
    fill(out, tracks.previous.n, |j| {
        let at = j * 2;
        cosine(
            tracks.directions[at],
            tracks.directions[at + 1],
            x - xs[j],
            y - ys[j],
        )
    });
}

// Overlap plus angle term of one object, from its cosines; cells past them stay.
fn sums(
    inertia: f32,
    score: f32,
    previous: Detections,
    cosines: &[f32; 64],
    iou: &[f32],
    out: &mut [f32],
)
    requires read { previous.n ≤ length iou.now }
    requires room { previous.n ≤ length out.old }
    ensures { out.new ≡ tab (λ j. add binary32 (get_or iou.now j nan) (term_of (mask_of (det_of previous.entry j).score) (angle_of (get_or cosines.now j nan)) inertia score)) previous.entry.n ++ drop previous.entry.n out.old }
{
    fill(out, previous.n, |j| {
        let p = previous.get(j).score;
        iou[j] + term(mask(p), angle(cosines[j]), inertia, score)
    });
}

// Overlap plus angle term of object d and all tracks, whose previous centres are xs, ys.
// A pass for all cosines, then one for all angles: measured a third faster in a crowd than pair by pair.
fn combined_row(
    inertia: f32,
    d: Detection,
    xs: &[f32; 64],
    ys: &[f32; 64],
    tracks: Motions,
    iou: &[f32],
    out: &mut [f32],
)
    requires centred { Centred tracks.previous.n (det_of tracks.previous) xs.now ys.now }
    requires read { tracks.previous.n ≤ length iou.now }
    requires room { tracks.previous.n ≤ length out.old }
    ensures { out.new ≡ tab (λ j. add binary32 (get_or iou.now j nan) (angle_term inertia d (step_of tracks.entry j) (det_of tracks.entry.previous j))) tracks.entry.previous.n ++ drop tracks.entry.previous.n out.old }
{
    let mut all = [0.0f32; 64];
    let x = centre(d.x1, d.x2);
    let y = centre(d.y1, d.y2);
    cosines(x, y, xs, ys, tracks, &mut all);
    sums(inertia, d.score, tracks.previous, &all, iou, out);
}

// Overlap plus angle term of all objects and all tracks, from the overlaps; cells past them stay.
pub fn speed_direction_batch(
    inertia: f32,
    dets: Detections,
    tracks: Motions,
    iou: Grid,
    out: &mut [f32],
)
    requires objects { iou.objects ≡ dets.n }
    requires tracks { iou.tracks ≡ tracks.previous.n }
    requires room { iou.objects * iou.tracks ≤ length out.old }
    ensures { out.new ≡ overlap_cells iou.entry.objects iou.entry.tracks (λ i j. add binary32 (matrix_of iou.entry i j) (angle_term inertia (det_of dets.entry i) (step_of tracks.entry j) (det_of tracks.entry.previous j))) ++ drop (iou.entry.objects * iou.entry.tracks) out.old }
{
    let mut xs = [0.0f32; 64];
    let mut ys = [0.0f32; 64];
    centres(tracks.previous, &mut xs, &mut ys);
    for i in 0..iou.objects {
        let from = i * iou.tracks;
        combined_row(
            inertia,
            dets.get(i),
            &xs,
            &ys,
            tracks,
            &iou.cells[from..],
            &mut out[from..],
        );
    }
}
