// The parts of a frame in place, each on the lists of an image: what comes before the loops, what a turn of them does to one track, and what comes last.
#![tactic(auto)]

ghost use Rattle.std.specs.Prelude.{◌≡◌, true, ◌+◌, ◌*◌, ◌≤◌, ◌<◌, length};
ghost use Rattle.image.specs.Image.{image_of};
ghost use Rattle.reports.specs.Written.{low_id};
ghost use Rattle.frame_in_lists.specs.InPlace.{usable_totals, ahead_of, ToldOf, Closed};

use frame::{Settings, Tracked};
use object::Refusal;
use views::Views;

// ---- before the loops

// `use_byte` means something, and the settings and the totals obey the state rules.
pub fn are_totals_usable(wide: &[u64; 66], floats: &[f32; 10435], words: &[u32; 965]) -> bool
    ensures { result ≡ usable_totals (image_of wide.now floats.now words.now) }
{
    if !image::is_tag(words[3]) {
        return false;
    }
    let s = from_image::settings_in(floats, words);
    rules::are_totals_sound(s, words[4], wide[0], wide[1] as usize)
}

// ---- up to the rounds

// A track one frame ahead, as an Err where prediction broke it. The next track's id is `next` or above.
#[derive(Clone, Copy)]
pub struct Ahead {
    pub next: u64,
    pub tracked: Result<Tracked, Tracked>,
}

// Track k, if it means something and obeys the state rules, with an id of `from` or above.
pub fn ahead_at(
    wide: &[u64; 66],
    floats: &[f32; 10435],
    words: &[u32; 965],
    from: u64,
    k: usize,
) -> Result<Ahead, Refusal>
    requires { (k < 64) × (usable_totals (image_of wide.now floats.now words.now) ≡ true) }
    ensures { result ≡ ahead_of (image_of wide.now floats.now words.now) from k }
{
    let s = from_image::settings_in(floats, words);
    let e = from_image::track_at(wide, floats, words, k);
    let sound = rules::is_sound_at(s, words[4], wide[0], from, e);
    if !(image::is_meant_at(wide, floats, words, k) & sound) {
        return Err(Refusal::UnsoundState);
    }
    let p = one_track::predict_one(e);
    Ok(Ahead {
        next: e.id + 1,
        tracked: if one_track::is_unbroken(p) {
            Ok(p)
        } else {
            Err(p)
        },
    })
}

// The views that the rounds are given, of n tracks.
pub fn views_with(
    n: usize,
    boxes: [f32; 256],
    directions: [f32; 128],
    lasts: [f32; 256],
    previous: [f32; 320],
) -> Views
    ensures { result ≡ record { n = n; boxes = boxes; directions = directions; lasts = lasts; previous = previous } }
{
    Views {
        n,
        boxes,
        directions,
        lasts,
        previous,
    }
}

// ---- once the pairs are known

// A track's report after n others, if it gets one: how many there are then.
pub fn tell(
    s: Settings,
    frames: u32,
    e: Tracked,
    n: usize,
    boxes: &mut [f32],
    ids: &mut [u64],
) -> usize
    requires { (4 * n + 4 ≤ length boxes.old) × ((n < length ids.old) × (low_id e ≡ true)) }
    ensures { ToldOf s frames e n boxes.old ids.old result boxes.new ids.new }
{
    let t = e.track;
    let reported = reports::is_reported(s, frames, t);
    reports::report_if(reported, e, n, boxes, ids)
}

// Zeros past the live tracks, whatever the caller's lists held there, and the totals of the next state.
pub fn close(
    wide: &mut [u64; 66],
    floats: &mut [f32; 10435],
    words: &mut [u32; 965],
    issued: u64,
    live: usize,
    frames: u32,
)
    requires { live ≤ 64 }
    ensures { Closed issued live frames (image_of wide.old floats.old words.old) (image_of wide.new floats.new words.new) }
{
    to_image::lengths(wide, floats, words);
    to_image::clear_from(wide, floats, words, live);
    wide[0] = issued;
    wide[1] = live as u64;
    words[4] = frames;
}
