// What a call may be told, tested: document 01, 'What a call may be told'.
#![tactic(auto)]

ghost use Rattle.std.specs.Prelude.{◌≡◌, ◌≤◌};
ghost use Rattle.frame.specs.State.{unit_range, in_range, live, state_rules};
ghost use Rattle.rules.specs.Rules.{total_rules, sound_at, sound_from, Told};

use frame::{Settings, Tracked, Tracker};
use object::Refusal;

// ---- settings

#[tactic(auto, unfolding(frame::specs::State::unit_range))]
fn in_unit_range(x: f32) -> bool
    ensures { result ≡ unit_range x }
{
    0.0 <= x && x <= 1.0
}

// Whether every setting is in its range.
#[tactic(auto, unfolding(frame::specs::State::in_range))]
pub fn in_range(s: Settings) -> bool
    ensures { result ≡ in_range s }
{
    !ieee::is_nan(s.det_thresh)
        && in_unit_range(s.iou_threshold)
        && in_unit_range(s.inertia)
        && s.max_age <= 255
        && s.min_hits <= 255
        && s.delta_t <= 8
}

// ---- the state

// The rules of one live track, and an id from `from` on and below `issued`.
#[tactic(auto, unfolding(frame::specs::State::track_rules))]
pub fn is_sound_at(s: Settings, frames: u32, issued: u64, from: u64, e: Tracked) -> bool
    ensures { result ≡ sound_at s frames issued from e }
{
    from <= e.id
        && e.id < issued
        && e.track.age <= frames
        && e.track.since <= s.max_age
        && own_rules::is_sound(e.track)
}

// The rules of the live tracks.
fn are_sound(t: Tracker) -> bool
    requires { t.count ≤ 64 }
    ensures { result ≡ sound_from t.settings t.frames t.issued 0 (live t) }
{
    let s = t.settings;
    let mut from = 0;
    for e in &t.table[..t.count] {
        if !is_sound_at(s, t.frames, t.issued, from, *e) {
            return false;
        }
        from = e.id + 1;
    }
    true
}

// The rules that need no track.
#[tactic(auto, unfolding(crate::specs::Rules::total_rules))]
pub fn are_totals_sound(s: Settings, frames: u32, issued: u64, count: usize) -> bool
    ensures { result ≡ total_rules s frames issued count }
{
    in_range(s) && frames <= 1000000 && issued <= 64 * frames as u64 && count <= 64
}

// Whether a state obeys the state rules: any state may be asked.
pub fn is_sound(t: Tracker) -> bool
    ensures { result ≡ state_rules t }
{
    are_totals_sound(t.settings, t.frames, t.issued, t.count) && are_sound(t)
}

// ---- the refusals that need no pairing

// Ragged frame, crowded frame, short answer, run over: the first that fails.
pub fn early(frames: u32, input: usize, boxes: usize, ids: usize) -> Result<(), Refusal>
    ensures { Told frames input boxes ids result }
{
    if input % 5 != 0 {
        return Err(Refusal::RaggedFrame);
    }
    if 320 < input {
        return Err(Refusal::CrowdedFrame);
    }
    if boxes < 256 {
        return Err(Refusal::ShortAnswer);
    }
    if ids < 64 {
        return Err(Refusal::ShortAnswer);
    }
    if 1000000 <= frames {
        return Err(Refusal::RunOver);
    }
    Ok(())
}
