// One track, beside its id: strack.rs, document 01, item 5.
#![tactic(auto)]

ghost use Rattle.std.specs.Prelude.{◌≡◌, ◌+◌, ◌≤◌, ◌<◌};
ghost use Rattle.strack.specs.Boxes.{measure_of, box_of, direction_of};
ghost use Rattle.strack.specs.Track.{no_filter, shifted, birth_of, area_held, streak_after, track_predict, state_box, oldest_of, previous_of, k_previous_of, heading_from, heading_of, regained, filter_after, track_box, saved_after, freezes, track_miss};

use kalman_filter::{DetectBox, Filter};
use object::{Corners, Detection};

// Where a track is heading.
#[derive(Clone, Copy)]
pub struct Direction {
    pub dy: f32,
    pub dx: f32,
}

// What a track's own boxes settle.
#[derive(Clone, Copy)]
pub struct Track {
    pub filter: Filter,
    // the filter as it was at the first miss, while frozen
    // Stays: no Option: an image may bring a saved filter for a track that isn't frozen, and `frame_on` hands its numbers on as they came (`saved_after`).
    pub saved: Filter,
    pub frozen: bool,
    pub age: u32,
    // boxes in a row
    pub streak: u32,
    // frames since the last box, or since birth
    pub since: u32,
    // the last box since birth
    pub last: Option<Detection>,
    // the last box in `history_obs`, as measured
    pub list: Option<DetectBox>,
    pub direction: Option<Direction>,
    // at rest the boxes at ages age, age - 1, .., age - 7; after predict those at the eight ages before the new one
    pub kept: [Option<Detection>; 8],
}

// ---- boxes

// A box as the filter measures it: centre, area, and width over height.
pub fn convert_bbox_to_z(b: Corners) -> DetectBox
    ensures { result ≡ measure_of b }
{
    let w = b.x2 - b.x1;
    let h = b.y2 - b.y1;
    DetectBox {
        x: b.x1 + w / 2.0,
        y: b.y1 + h / 2.0,
        s: w * h,
        r: w / (h + 0.000001),
    }
}

// The box of a filter's centre, area and ratio.
pub fn convert_x_to_bbox(x: f32, y: f32, s: f32, r: f32) -> Corners
    ensures { result ≡ box_of x y s r }
{
    let w = ieee::sqrt(s * r);
    let h = s / w;
    Corners {
        x1: x - w / 2.0,
        y1: y - h / 2.0,
        x2: x + w / 2.0,
        y2: y + h / 2.0,
    }
}

// The direction from one box's centre to another's.
pub fn speed_direction(a: Corners, b: Corners) -> Direction
    ensures { result ≡ direction_of a b }
{
    let cx1 = (a.x1 + a.x2) / 2.0;
    let cy1 = (a.y1 + a.y2) / 2.0;
    let cx2 = (b.x1 + b.x2) / 2.0;
    let cy2 = (b.y1 + b.y2) / 2.0;
    let dy = cy2 - cy1;
    let dx = cx2 - cx1;
    let norm = ieee::sqrt(dy * dy + dx * dx) + 0.000001;
    Direction {
        dy: dy / norm,
        dx: dx / norm,
    }
}

// ---- birth

// The saved filter of a track that is not frozen.
pub fn no_filter() -> Filter
    ensures { result ≡ no_filter }
{
    Filter {
        x: [0.0; 7],
        p: [0.0; 49],
    }
}

// A track at the box it is born with.
pub fn birth(d: Detection) -> Track
    ensures { result ≡ birth_of d }
{
    Track {
        filter: kalman_filter::new(convert_bbox_to_z(Corners::from(d))),
        saved: no_filter(),
        frozen: false,
        age: 0,
        streak: 0,
        since: 0,
        last: None,
        list: None,
        direction: None,
        kept: [None; 8],
    }
}

// ---- predict

// The area would fall to 0 or below: its speed becomes 0.
fn area_held(f: Filter) -> Filter
    ensures { result ≡ area_held f }
{
    let mut x = f.x;
    if x[6] + x[2] <= 0.0 {
        x[6] = 0.0;
        let p = f.p;
        return Filter { x, p };
    }
    f
}

fn streak_after(since: u32, streak: u32) -> u32
    ensures { result ≡ streak_after since streak }
{
    if since > 0 { 0 } else { streak }
}

// One frame ahead, before the frame's boxes are known.
pub fn predict(t: Track) -> Track
    requires { (t.age + 1 < 4294967296) × (t.since + 1 < 4294967296) }
    ensures { result ≡ track_predict t }
{
    Track {
        filter: kalman_filter::predict(area_held(t.filter)),
        age: t.age + 1,
        streak: streak_after(t.since, t.streak),
        since: t.since + 1,
        ..t
    }
}

// The box that the filter's numbers give.
pub fn get_state(f: Filter) -> Corners
    ensures { result ≡ state_box f }
{
    convert_x_to_bbox(f.x[0], f.x[1], f.x[2], f.x[3])
}

// ---- the boxes before

// The oldest box of the last delta_t ages.
fn oldest_box(kept: [Option<Detection>; 8], delta_t: u32) -> Option<Detection>
    requires { delta_t ≤ 8 }
    ensures { result ≡ oldest_of delta_t kept }
{
    for dt in (0..delta_t as usize).rev() {
        if kept[dt].is_some() {
            return kept[dt];
        }
    }
    None
}

// The oldest box of the last delta_t ages, or else the last box; asked after predict.
pub fn find_previous_box(t: Track, delta_t: u32) -> Option<Detection>
    requires { delta_t ≤ 8 }
    ensures { result ≡ previous_of delta_t t }
{
    oldest_box(t.kept, delta_t).or(t.last)
}

// The previous box of a track that has been given one since birth.
pub fn k_previous_obs(t: Track, delta_t: u32) -> Option<Detection>
    requires { delta_t ≤ 8 }
    ensures { result ≡ k_previous_of delta_t t }
{
    if t.last.is_some() {
        return find_previous_box(t, delta_t);
    }
    None
}

// ---- a box or a miss

// This frame's box, or none, before those of the seven ages before it.
fn shifted(l: Option<Detection>, kept: [Option<Detection>; 8]) -> [Option<Detection>; 8]
    ensures { result ≡ shifted l kept }
{
    let mut out = [l; 8];
    out[1..].copy_from_slice(&kept[..7]);
    out
}

// The direction from the box found to d, or the old one where none was found.
fn heading_from(found: Option<Detection>, d: Detection, old: Option<Direction>) -> Option<Direction>
    ensures { result ≡ heading_from found d old }
{
    match found {
        None => old,
        Some(from) => Some(speed_direction(Corners::from(from), Corners::from(d))),
    }
}

fn heading(t: Track, delta_t: u32, d: Detection) -> Option<Direction>
    requires { delta_t ≤ 8 }
    ensures { result ≡ heading_of delta_t d t }
{
    heading_from(k_previous_obs(t, delta_t), d, t.direction)
}

// The saved filter brought up to the box z.
fn regain(saved: Filter, list: Option<DetectBox>, z: DetectBox, gap: u32) -> Filter
    requires { gap ≤ 256 }
    ensures { result ≡ regained list gap z saved }
{
    match list {
        None => kalman_filter::update(saved, z),
        Some(from) => gap::replay(saved, from, z, gap),
    }
}

// The filter after the box z.
fn filter_after(t: Track, z: DetectBox) -> Filter
    requires { t.since ≤ 256 }
    ensures { result ≡ filter_after t.frozen t z }
{
    if t.frozen {
        return regain(t.saved, t.list, z, t.since);
    }
    kalman_filter::update(t.filter, z)
}

// The track after the box d.
pub fn update(t: Track, delta_t: u32, d: Detection) -> Track
    requires { (delta_t ≤ 8) × ((t.since ≤ 256) × (t.streak + 1 < 4294967296)) }
    ensures { result ≡ track_box delta_t d t }
{
    let z = convert_bbox_to_z(Corners::from(d));
    Track {
        filter: filter_after(t, z),
        saved: no_filter(),
        frozen: false,
        streak: t.streak + 1,
        since: 0,
        last: Some(d),
        list: Some(z),
        direction: heading(t, delta_t, d),
        kept: shifted(Some(d), t.kept),
        ..t
    }
}

// What is saved after a miss: the filter, at the first miss after a box.
fn saved_after(t: Track) -> Filter
    ensures { result ≡ saved_after (freezes t) t }
{
    if t.frozen {
        return t.saved;
    }
    if t.last.is_some() {
        return kalman_filter::freeze(t.filter);
    }
    t.saved
}

// The track after a frame without a box for it.
pub fn update_none(t: Track) -> Track
    ensures { result ≡ track_miss t }
{
    Track {
        saved: saved_after(t),
        frozen: t.last.is_some(),
        kept: shifted(None, t.kept),
        ..t
    }
}
