// What the rounds see of the tracks, in flat arrays as `assoc` takes them.
#![tactic(auto)]

ghost use Rattle.std.specs.Prelude.{◌≡◌, map, ◌+◌, ◌*◌, ◌≤◌, ◌<◌, length, take};
ghost use Rattle.std.proofs.lemmas.List.Edits.{sets};
ghost use Rattle.objects.specs.Dets.{five_of};
ghost use Rattle.frame.specs.Frame.{step_or, tracked_view};
ghost use Rattle.matching.specs.Associate.{four_of};
ghost use Rattle.views.specs.Views.{two_of, views_of};

use frame::{Settings, Tracked};
use matching::put_corners;
use object::{Corners, Detection};
use strack::Direction;

// For each of n tracks its predicted box, its direction, its last box and its previous box. Cells past them are NaN.
// Stays: a count beside flat arrays: memory is fixed, without a heap, and `assoc` takes the numbers of one kind in a row.
#[derive(Clone, Copy)]
pub struct Views {
    pub n: usize,
    pub boxes: [f32; 256],
    pub directions: [f32; 128],
    pub lasts: [f32; 256],
    pub previous: [f32; 320],
}

// ---- entries of the arrays

// Writes numbers from `at` on.
fn put_numbers(cells: &mut [f32], at: usize, numbers: &[f32])
    requires { at + length numbers.now ≤ length cells.old }
    ensures { cells.new ≡ sets cells.old at numbers.now }
{
    cells[at..at + numbers.len()].copy_from_slice(numbers);
}

// 0, 0 for an unknown direction.
fn put_direction(cells: &mut [f32], j: usize, d: Option<Direction>)
    requires { (j < 64) × (2 * j + 2 ≤ length cells.old) }
    ensures { cells.new ≡ sets cells.old (2 * j) (two_of (step_or d)) }
{
    let numbers = match d {
        None => [0.0; 2],
        Some(v) => [v.dy, v.dx],
    };
    put_numbers(cells, 2 * j, &numbers);
}

fn put_detection(cells: &mut [f32], j: usize, d: Detection)
    requires { (j < 64) × (5 * j + 5 ≤ length cells.old) }
    ensures { cells.new ≡ sets cells.old (5 * j) (five_of d) }
{
    put_numbers(cells, 5 * j, &[d.x1, d.y1, d.x2, d.y2, d.score]);
}

// ---- one track

// Where there is no box.
const PLACEHOLDER: Detection = Detection {
    x1: -1.0,
    y1: -1.0,
    x2: -1.0,
    y2: -1.0,
    score: -1.0,
};

// What the rounds see of a track as it stands after predict, at place j.
pub fn put_view(
    s: Settings,
    e: Tracked,
    j: usize,
    boxes: &mut [f32],
    directions: &mut [f32],
    lasts: &mut [f32],
    previous: &mut [f32],
)
    requires { (j < 64) × (s.delta_t ≤ 8) × (length boxes.old ≡ 256) × (length directions.old ≡ 128) × (length lasts.old ≡ 256) × (length previous.old ≡ 320) }
    ensures { (boxes.new ≡ sets boxes.old (4 * j) (four_of (tracked_view s e).box)) × (directions.new ≡ sets directions.old (2 * j) (two_of (tracked_view s e).direction)) × (lasts.new ≡ sets lasts.old (4 * j) (four_of (tracked_view s e).last)) × (previous.new ≡ sets previous.old (5 * j) (five_of (tracked_view s e).previous)) }
{
    let t = e.track;
    let before = strack::k_previous_obs(t, s.delta_t);
    put_corners(boxes, j, strack::get_state(t.filter));
    put_direction(directions, j, t.direction);
    put_corners(lasts, j, Corners::from(t.last.unwrap_or(PLACEHOLDER)));
    put_detection(previous, j, before.unwrap_or(PLACEHOLDER));
}

// ---- all tracks

// What the rounds see of the first `count` tracks of the table, as they stand after predict.
pub fn all(s: Settings, count: usize, table: [Tracked; 64]) -> Views
    requires { (count ≤ 64) × (s.delta_t ≤ 8) }
    ensures { result ≡ views_of (map (tracked_view s) (take count table)) }
{
    let nan = objects::nan();
    let mut boxes = [nan; 256];
    let mut directions = [nan; 128];
    let mut lasts = [nan; 256];
    let mut previous = [nan; 320];
    for j in 0..count {
        put_view(
            s,
            table[j],
            j,
            &mut boxes,
            &mut directions,
            &mut lasts,
            &mut previous,
        );
    }
    Views {
        n: count,
        boxes,
        directions,
        lasts,
        previous,
    }
}
