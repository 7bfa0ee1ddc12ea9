// The rounds that pair a frame's objects with the tracks: document 01, item 6, in the order of document 02, 2.8.
#![tactic(auto)]

ghost use Rattle.std.specs.Prelude.{◌≡◌, List, map, ◌≤◌, length, take};
ghost use Rattle.lists.specs.Lists.{All};
ghost use Rattle.frame.specs.Objects.{Obj, objects_of};
ghost use Rattle.frame.specs.Rounds.{View, place_of, rounds};
ghost use Rattle.frame.specs.Frame.{tracked_view};
ghost use Rattle.objects.specs.Dets.{dets_of, dets_in};
ghost use Rattle.grants.specs.Grants.{seated, Names, LeftOf};
ghost use Rattle.views.specs.Views.{views_of};
ghost use Rattle.rounds.specs.Pairs.{Pairs, FirstOf, LaterOf, SparesOf};

use frame::{Settings, Tracked};
use grants::Places;
use matching::{Boxes, Detections, Marks, Motions};
use object::Detection;
use objects::Dets;
use views::Views;

// What each track was granted, and the first-class objects that no round paired.
#[derive(Clone, Copy)]
pub struct Pairing {
    pub grants: [Option<Detection>; 64],
    pub left: Dets,
}

// What marks among the places grant, and what they leave.
fn by_marks(marks: Marks, places: Places, dets: Dets, grants: [Option<Detection>; 64]) -> Pairing
    requires { (dets.n ≤ 64) × All (Names places.at 64) marks.at }
    ensures { (result.grants ≡ seated (take dets.n (map (place_of places.at) marks.at)) (dets_in dets) grants) × LeftOf marks.at dets result.left }
{
    let at = marks.at;
    let given = grants::seat(at, places, dets, grants);
    let left = grants::left(at, dets);
    Pairing {
        grants: given,
        left,
    }
}

// The round on predicted boxes, with directions: every track is open. Not inlined: its lists then don't stand on the stack while a later round runs.
#[inline(never)]
fn first_round(s: Settings, v: Views, dets: Dets) -> Pairing
    requires { (v.n ≤ 64) × (dets.n ≤ 64) }
    ensures { FirstOf s v dets result × ((os : List Obj) → dets ≡ dets_of os → result.left.n ≤ 64) }
{
    let previous = Detections {
        cells: &v.previous,
        n: v.n,
    };
    let marks = assoc::associate(
        s.iou_threshold,
        s.inertia,
        Detections {
            cells: &dets.cells,
            n: dets.n,
        },
        Boxes {
            cells: &v.boxes,
            n: v.n,
        },
        Motions {
            directions: &v.directions,
            previous,
        },
    );
    let none = grants::no_grants();
    let places = grants::open_places(v.n, none);
    by_marks(marks, places, dets, none)
}

// These objects and the tracks that are still open, by overlap with one box of each track.
fn rematched(
    thr: f32,
    boxes: [f32; 256],
    count: usize,
    dets: Dets,
    grants: [Option<Detection>; 64],
) -> Pairing
    requires { (count ≤ 64) × (dets.n ≤ 64) }
    ensures { LaterOf thr boxes count dets grants result }
{
    let places = grants::open_places(count, grants);
    let targets = grants::gather(boxes, places);
    let marks = assoc::simple_iou_match(
        thr,
        Detections {
            cells: &dets.cells,
            n: dets.n,
        },
        Boxes {
            cells: &targets,
            n: places.n,
        },
    );
    by_marks(marks, places, dets, grants)
}

// A later round. Without objects, as in most frames, there is nothing to pair.
fn later_round(
    thr: f32,
    boxes: [f32; 256],
    count: usize,
    dets: Dets,
    grants: [Option<Detection>; 64],
) -> Pairing
    requires { (count ≤ 64) × (dets.n ≤ 64) }
    ensures { LaterOf thr boxes count dets grants result }
{
    if dets.n == 0 {
        return Pairing { grants, left: dets };
    }
    rematched(thr, boxes, count, dets, grants)
}

// The spare round, on predicted boxes. Spares are gathered only where `use_byte` lets them in.
fn spare_round(
    s: Settings,
    boxes: [f32; 256],
    count: usize,
    input: &[f32],
    grants: [Option<Detection>; 64],
) -> [Option<Detection>; 64]
    requires { (count ≤ 64) × (length input.now ≤ 320) }
    ensures { SparesOf s input.now boxes count grants result }
{
    if s.use_byte {
        let spares = objects::spare(s, input);
        let byte = later_round(s.iou_threshold, boxes, count, spares, grants);
        return byte.grants;
    }
    grants
}

// Predicted boxes; last boxes; spares: document 02, 2.8.
pub fn paired_by(s: Settings, v: Views, input: &[f32]) -> Pairing
    requires { (v.n ≤ 64) × (length input.now ≤ 320) }
    ensures { (vs : List View) → v ≡ views_of vs → Pairs (rounds s vs (objects_of input.now)) result }
{
    let count = v.n;
    let boxes = v.boxes;
    let lasts = v.lasts;
    let firsts = objects::first_class(s, input);
    let first = first_round(s, v, firsts);
    let given = first.grants;
    let left = first.left;
    let last = later_round(s.iou_threshold, lasts, count, left, given);
    let given = last.grants;
    let left = last.left;
    let grants = spare_round(s, boxes, count, input, given);
    Pairing { grants, left }
}

// The rounds over the first `count` tracks of a table.
pub fn paired(s: Settings, count: usize, table: [Tracked; 64], input: &[f32]) -> Pairing
    requires { (count ≤ 64) × (length input.now ≤ 320) × (s.delta_t ≤ 8) }
    ensures { Pairs (rounds s (map (tracked_view s) (take count table)) (objects_of input.now)) result }
{
    let v = views::all(s, count, table);
    paired_by(s, v, input)
}
