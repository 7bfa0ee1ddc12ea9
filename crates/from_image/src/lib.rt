// The state that an image stands for. Its lists are lent and each track is read alone, so no call but `thaw` copies the whole.
#![tactic(auto)]

ghost use Rattle.std.specs.Prelude.{◌≡◌, List, ℕ, ◌+◌, ◌≤◌, ◌<◌};
ghost use Rattle.image.specs.Image.{filter_at, tagged_as, box_at, list_at, direction_at, kept_at, thaw_track, image_of, cell_at, thaw_tracker};

use frame::{Settings, Tracked, Tracker};
use image::TrackerImage;
use kalman_filter::{DetectBox, Filter};
use object::Detection;
use strack::{Direction, Track};

// ---- a track

fn filter_at(floats: &[f32; 10435], at: usize) -> Filter
    requires { at + 56 ≤ 10435 }
    ensures { result ≡ filter_at floats.now at }
{
    let mut x = [0.0; 7];
    x.copy_from_slice(&floats[at..at + 7]);
    let mut p = [0.0; 49];
    p.copy_from_slice(&floats[at + 7..at + 56]);
    Filter { x, p }
}

// What is there by its tag.
fn tagged<T: Copy>(tag: u32, value: T) -> Option<T>
    ensures { result ≡ tagged_as tag value }
{
    if image::is_set(tag) {
        Some(value)
    } else {
        None
    }
}

fn box_at(tag: u32, floats: &[f32; 10435], at: usize) -> Option<Detection>
    requires { at + 5 ≤ 10435 }
    ensures { result ≡ box_at tag floats.now at }
{
    tagged(
        tag,
        Detection {
            x1: floats[at],
            y1: floats[at + 1],
            x2: floats[at + 2],
            y2: floats[at + 3],
            score: floats[at + 4],
        },
    )
}

fn list_at(tag: u32, floats: &[f32; 10435], at: usize) -> Option<DetectBox>
    requires { at + 4 ≤ 10435 }
    ensures { result ≡ list_at tag floats.now at }
{
    tagged(
        tag,
        DetectBox {
            x: floats[at],
            y: floats[at + 1],
            s: floats[at + 2],
            r: floats[at + 3],
        },
    )
}

fn direction_at(tag: u32, floats: &[f32; 10435], at: usize) -> Option<Direction>
    requires { at + 2 ≤ 10435 }
    ensures { result ≡ direction_at tag floats.now at }
{
    tagged(
        tag,
        Direction {
            dy: floats[at],
            dx: floats[at + 1],
        },
    )
}

// The eight kept boxes, whose numbers start at f and whose tags start at w.
fn kept_at(floats: &[f32; 10435], words: &[u32; 965], f: usize, w: usize) -> [Option<Detection>; 8]
    requires { (f + 40 ≤ 10435) × (w + 8 ≤ 965) }
    ensures { result ≡ kept_at words.now w floats.now f }
{
    let mut out = [None; 8];
    for j in 0..8 {
        out[j] = box_at(words[w + j], floats, f + 5 * j);
    }
    out
}

pub fn track_at(wide: &[u64; 66], floats: &[f32; 10435], words: &[u32; 965], k: usize) -> Tracked
    requires { k < 64 }
    ensures { result ≡ thaw_track (cell_at (image_of wide.now floats.now words.now) k) }
{
    let f = 3 + 163 * k;
    let w = 5 + 15 * k;
    let track = Track {
        filter: filter_at(floats, f),
        saved: filter_at(floats, f + 56),
        frozen: image::is_set(words[w]),
        age: words[w + 1],
        streak: words[w + 2],
        since: words[w + 3],
        last: box_at(words[w + 4], floats, f + 112),
        list: list_at(words[w + 5], floats, f + 117),
        direction: direction_at(words[w + 6], floats, f + 121),
        kept: kept_at(floats, words, f + 123, w + 7),
    };
    Tracked {
        id: wide[2 + k],
        track,
    }
}

// ---- the tracker

// The settings of every image with these floats and words.
pub fn settings_in(floats: &[f32; 10435], words: &[u32; 965]) -> Settings
    ensures { (wide : List ℕ) → result ≡ (thaw_tracker (image_of wide floats.now words.now)).settings }
{
    Settings {
        det_thresh: floats[0],
        iou_threshold: floats[1],
        inertia: floats[2],
        max_age: words[0],
        min_hits: words[1],
        delta_t: words[2],
        use_byte: image::is_set(words[3]),
    }
}

// The state that an image stands for.
pub fn thaw(i: TrackerImage) -> Tracker
    ensures { result ≡ thaw_tracker i }
{
    // the first track, until each cell has its own
    let filler = track_at(&i.wide, &i.floats, &i.words, 0);
    let mut table = [filler; 64];
    for k in 0..64 {
        table[k] = track_at(&i.wide, &i.floats, &i.words, k);
    }
    Tracker {
        settings: settings_in(&i.floats, &i.words),
        frames: i.words[4],
        issued: i.wide[0],
        count: i.wide[1] as usize,
        table,
    }
}
