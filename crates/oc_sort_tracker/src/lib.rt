// The tracker on a state by value: oc_sort_tracker.rs, document 01, item 6.
#![tactic(auto)]

ghost use Rattle.std.specs.Prelude.{◌≡◌, true, None};
ghost use Rattle.frame.specs.State.{empty_tracker, state_rules};
ghost use Rattle.frame.specs.Frame.{early, accepted_frame};
ghost use Rattle.frame.specs.Contract.{MadeBy, call_of, Framed};
ghost use Rattle.oc_sort_tracker.specs.New.{defaults};
ghost use Rattle.settling.specs.Settled.{Answered};
ghost use Rattle.oc_sort_tracker.specs.Refused.{refused_with};

use frame::{Answer, Made, Settings, Tracker};
use object::Refusal;
use tracks::Tracks;

// ---- making a tracker

fn empty(settings: Settings) -> Tracker
    ensures { result ≡ empty_tracker settings }
{
    let none = Tracks::none();
    let table = none.table;
    Tracker {
        settings,
        frames: 0,
        issued: 0,
        count: 0,
        table,
    }
}

// A tracker with all seven settings. One that is refused still holds them, so that every frame on it is refused.
pub fn with_settings(settings: Settings) -> Made
    ensures { MadeBy settings result }
{
    let tracker = empty(settings);
    let outcome = if rules::in_range(settings) {
        Ok(())
    } else {
        Err(Refusal::BadSetting)
    };
    Made { outcome, tracker }
}

// A tracker with the Rust's defaults.
pub fn new(det_thresh: f32) -> Made
    ensures { MadeBy (defaults det_thresh) result }
{
    with_settings(Settings {
        det_thresh,
        iou_threshold: 0.3,
        inertia: 0.2,
        max_age: 30,
        min_hits: 3,
        delta_t: 3,
        use_byte: false,
    })
}

// ---- a frame

// The state as it was.
fn refused(t: Tracker, refusal: Refusal) -> Answer
    ensures { result ≡ refused_with t refusal }
{
    Answer {
        outcome: Err(refusal),
        tracker: t,
    }
}

// Prediction, the rounds, and row 7: a frame that no earlier row refuses.
fn accepted(t: Tracker, input: &[f32], boxes: &mut [f32], ids: &mut [u64]) -> Answer
    requires { (state_rules t ≡ true) × (early t.frames (call_of input.now boxes.old ids.old) ≡ None) }
    ensures { Answered (accepted_frame t input.now) boxes.old ids.old result boxes.new ids.new }
{
    let settings = t.settings;
    let ts = Tracks::predicted(t);
    let table = ts.table;
    let pairing = rounds::paired(settings, ts.count, table, input);
    let left = pairing.left;
    if 64 < ts.count + left.n {
        return refused(t, Refusal::FullTable);
    }
    let grants = pairing.grants;
    settling::settled(t, ts, grants, left, boxes, ids)
}

// One frame: x, y, width, height and score of each object in `input`; x, y, width, height of each report to `boxes`,
// its id to `ids`. A refusal has its number, and leaves state and buffers as they were.
pub fn update(t: Tracker, input: &[f32], boxes: &mut [f32], ids: &mut [u64]) -> Answer
    ensures { Framed t input.now boxes.old ids.old result boxes.new ids.new }
{
    if !rules::is_sound(t) {
        return refused(t, Refusal::UnsoundState);
    }
    match rules::early(t.frames, input.len(), boxes.len(), ids.len()) {
        Err(refusal) => refused(t, refusal),
        Ok(()) => accepted(t, input, boxes, ids),
    }
}
