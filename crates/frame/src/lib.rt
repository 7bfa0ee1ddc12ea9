// The tracker: oc_sort_tracker.rs, document 01, item 6.
#![tactic(auto)]

use object::Refusal;
use strack::Track;

#[derive(Clone, Copy)]
pub struct Settings {
    pub det_thresh: f32,
    pub iou_threshold: f32,
    pub inertia: f32,
    pub max_age: u32,
    pub min_hits: u32,
    pub delta_t: u32,
    pub use_byte: bool,
}

// A track beside its id.
#[derive(Clone, Copy)]
pub struct Tracked {
    pub id: u64,
    pub track: Track,
}

// The whole state: the first `count` cells of the table are the live tracks, in birth order.
// Stays: fixed memory, and the state rules speak of `count` and of every cell, whatever a caller put there.
#[derive(Clone, Copy)]
pub struct Tracker {
    pub settings: Settings,
    pub frames: u32,
    pub issued: u64,
    pub count: usize,
    pub table: [Tracked; 64],
}

// What a frame call returns: how many reports stand in the buffers, or why it was turned away; and the tracker to go on with in
// either case. A refusal hands back the one that came.
#[derive(Clone, Copy)]
pub struct Answer {
    pub outcome: Result<usize, Refusal>,
    pub tracker: Tracker,
}

// What making a tracker returns: whether its settings were taken, and a tracker that holds them in either case.
#[derive(Clone, Copy)]
pub struct Made {
    pub outcome: Result<(), Refusal>,
    pub tracker: Tracker,
}
