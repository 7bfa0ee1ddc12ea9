// Association of detections with tracks: assoc.rs, document 01, item 3, and the later rounds' matching of item 6.
#![tactic(auto)]

ghost use Rattle.std.specs.Prelude.{◌≡◌, ◌++◌, ◌-◌, ◌*◌, ◌≤◌, replicate};
ghost use Rattle.std.specs.Float.{binary32};
ghost use Rattle.std.specs.Float.Ieee.{add};
ghost use Rattle.lapjv_walk.specs.Marks.{free};
ghost use Rattle.matching.specs.Matching.{assigned, match_or_lapjv};
ghost use Rattle.matching.specs.Associate.{overlaps, angle_term, associate, reassociate};
ghost use Rattle.matching.specs.Split.{Round};
ghost use Rattle.matching.specs.Lent.{det_of, box_of, step_of, matrix_of};

use assign::assigned;
use batch::{iou_batch, speed_direction_batch};
use matching::{Boxes, Detections, Grid, Marks, Motions, unmarked};
use shortcut::{is_shortcut, shortcut_marks, some_above};
use threshold::{kept_at_or_above, kept_unless_below};

// The assignment on overlap plus angle term, for at most CELLS pairs.
fn assigned_combined<const CELLS: usize>(
    inertia: f32,
    dets: Detections,
    tracks: Motions,
    iou: Grid,
) -> Marks
    requires objects { iou.objects ≡ dets.n }
    requires tracks { iou.tracks ≡ tracks.previous.n }
    requires room { (iou.objects * iou.tracks ≤ CELLS) × (CELLS ≤ 4096) }
    ensures { result.at ≡ assigned iou.entry.objects iou.entry.tracks (λ i j. add binary32 (matrix_of iou.entry i j) (angle_term inertia (det_of dets.entry i) (step_of tracks.entry j) (det_of tracks.entry.previous j))) ++ replicate (64 - iou.entry.objects) free }
{
    let mut combined = [0.0f32; CELLS];
    speed_direction_batch(inertia, dets, tracks, iou, &mut combined);
    assigned(Grid {
        cells: &combined,
        objects: iou.objects,
        tracks: iou.tracks,
    })
}

// The shortcut's pairs, else the assignment's; angles are only worked out for the latter. No track, no pair.
pub fn match_or_lapjv(thr: f32, inertia: f32, dets: Detections, tracks: Motions, iou: Grid) -> Marks
    requires objects { iou.objects ≡ dets.n }
    requires tracks { iou.tracks ≡ tracks.previous.n }
    ensures { result.at ≡ match_or_lapjv iou.entry.objects iou.entry.tracks thr (matrix_of iou.entry) (λ i j. add binary32 (matrix_of iou.entry i j) (angle_term inertia (det_of dets.entry i) (step_of tracks.entry j) (det_of tracks.entry.previous j))) ++ replicate (64 - iou.entry.objects) free }
{
    if iou.tracks == 0 {
        unmarked()
    } else if is_shortcut(iou, thr) {
        shortcut_marks(iou, thr)
    } else if iou.objects * iou.tracks <= 256 {
        // Few pairs, few cells to zero.
        assigned_combined::<256>(inertia, dets, tracks, iou)
    } else {
        assigned_combined::<4096>(inertia, dets, tracks, iou)
    }
}

// `associate` of at most CELLS pairs.
fn associate_in<const CELLS: usize>(
    thr: f32,
    inertia: f32,
    dets: Detections,
    boxes: Boxes,
    tracks: Motions,
) -> Marks
    requires tracks { boxes.n ≡ tracks.previous.n }
    requires room { (dets.n * boxes.n ≤ CELLS) × (CELLS ≤ 4096) }
    ensures { Round dets.entry.n boxes.entry.n thr (overlaps (det_of dets.entry) (box_of boxes.entry)) (associate thr inertia dets.entry.n boxes.entry.n (det_of dets.entry) (box_of boxes.entry) (step_of tracks.entry) (det_of tracks.entry.previous)) result.at }
{
    let mut cells = [0.0f32; CELLS];
    iou_batch(dets, boxes, &mut cells);
    let iou = Grid {
        cells: &cells,
        objects: dets.n,
        tracks: boxes.n,
    };
    let marks = match_or_lapjv(thr, inertia, dets, tracks, iou);
    kept_unless_below(marks, iou, thr)
}

// The first round: predicted boxes, directions and previous boxes of the tracks.
pub fn associate(thr: f32, inertia: f32, dets: Detections, boxes: Boxes, tracks: Motions) -> Marks
    requires { boxes.n ≡ tracks.previous.n }
    ensures { Round dets.entry.n boxes.entry.n thr (overlaps (det_of dets.entry) (box_of boxes.entry)) (associate thr inertia dets.entry.n boxes.entry.n (det_of dets.entry) (box_of boxes.entry) (step_of tracks.entry) (det_of tracks.entry.previous)) result.at }
{
    if dets.n * boxes.n <= 256 {
        associate_in::<256>(thr, inertia, dets, boxes, tracks)
    } else {
        associate_in::<4096>(thr, inertia, dets, boxes, tracks)
    }
}

// `simple_iou_match` of at most CELLS pairs.
fn simple_iou_match_in<const CELLS: usize>(thr: f32, dets: Detections, boxes: Boxes) -> Marks
    requires { (dets.n * boxes.n ≤ CELLS) × (CELLS ≤ 4096) }
    ensures { Round dets.entry.n boxes.entry.n thr (overlaps (det_of dets.entry) (box_of boxes.entry)) (reassociate thr dets.entry.n boxes.entry.n (det_of dets.entry) (box_of boxes.entry)) result.at }
{
    let mut cells = [0.0f32; CELLS];
    iou_batch(dets, boxes, &mut cells);
    let iou = Grid {
        cells: &cells,
        objects: dets.n,
        tracks: boxes.n,
    };
    if !some_above(iou, thr) {
        return unmarked();
    }
    let marks = assigned(iou);
    kept_at_or_above(marks, iou, thr)
}

// A later round: it starts only if some overlap is above the threshold.
pub fn simple_iou_match(thr: f32, dets: Detections, boxes: Boxes) -> Marks
    ensures { Round dets.entry.n boxes.entry.n thr (overlaps (det_of dets.entry) (box_of boxes.entry)) (reassociate thr dets.entry.n boxes.entry.n (det_of dets.entry) (box_of boxes.entry)) result.at }
{
    if dets.n * boxes.n <= 256 {
        simple_iou_match_in::<256>(thr, dets, boxes)
    } else {
        simple_iou_match_in::<4096>(thr, dets, boxes)
    }
}
