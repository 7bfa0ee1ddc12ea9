// One track through a frame: predicted, given its box or a miss, born, young or aged out. Document 01, item 6.
#![tactic(auto)]

ghost use Rattle.std.specs.Prelude.{◌≡◌, true, ◌+◌, ◌≤◌, ◌<◌};
ghost use Rattle.frame.specs.State.{blank};
ghost use Rattle.frame.specs.Frame.{has_nan, predict_tracked, unbroken, is_young};
ghost use Rattle.one_track.specs.OneTrack.{givable, given_one, newborn};

use frame::{Settings, Tracked};
use object::{Corners, Detection};
use strack::Track;

// What stands in a cell that holds no track.
pub fn blank() -> Tracked
    ensures { result ≡ blank }
{
    let none = strack::no_filter();
    let track = Track {
        filter: none,
        saved: none,
        frozen: false,
        age: 0,
        streak: 0,
        since: 0,
        last: None,
        list: None,
        direction: None,
        kept: [None; 8],
    };
    Tracked { id: 0, track }
}

// ---- prediction

fn has_nan(b: Corners) -> bool
    ensures { result ≡ has_nan b }
{
    ieee::is_nan(b.x1) | ieee::is_nan(b.y1) | ieee::is_nan(b.x2) | ieee::is_nan(b.y2)
}

pub fn predict_one(e: Tracked) -> Tracked
    requires { (e.track.age + 1 < 4294967296) × (e.track.since + 1 < 4294967296) }
    ensures { result ≡ predict_tracked e }
{
    Tracked {
        id: e.id,
        track: strack::predict(e.track),
    }
}

pub fn is_unbroken(e: Tracked) -> bool
    ensures { result ≡ unbroken e }
{
    !has_nan(strack::get_state(e.track.filter))
}

// ---- a box or a miss

// A track given the box that it was granted, or a miss.
pub fn give(e: Tracked, got: Option<Detection>, delta_t: u32) -> Tracked
    requires { (delta_t ≤ 8) × (givable e ≡ true) }
    ensures { result ≡ given_one delta_t got e }
{
    let track = match got {
        None => strack::update_none(e.track),
        Some(d) => strack::update(e.track, delta_t, d),
    };
    Tracked { id: e.id, track }
}

// ---- birth and age

pub fn birth(id: u64, d: Detection) -> Tracked
    ensures { result ≡ newborn id d }
{
    Tracked {
        id,
        track: strack::birth(d),
    }
}

pub fn is_young(s: Settings, e: Tracked) -> bool
    ensures { result ≡ is_young s e }
{
    e.track.since <= s.max_age
}
