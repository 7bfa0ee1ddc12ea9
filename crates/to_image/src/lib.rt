// The image of a state, and that it is faithful. The lists are lent and each track is written alone, so no call but `freeze` copies the whole.
#![tactic(auto)]

ghost use Rattle.std.specs.Prelude.{◌≡◌, ◌+◌, ◌≤◌, ◌<◌, map, length};
ghost use Rattle.std.proofs.lemmas.List.Edits.{sets};
ghost use Rattle.lists.specs.Lists.{flat};
ghost use Rattle.image.specs.Image.{filter_floats, tag_of, box_floats, list_floats, direction_floats, image_of, freeze_tracker, Whole, Put, Cleared, Faithful};

use frame::{Tracked, Tracker};
use image::TrackerImage;
use kalman_filter::{DetectBox, Filter};
use object::Detection;
use strack::{Direction, Track};

// ---- a track

// Writes numbers from `at` on.
fn put_numbers(floats: &mut [f32; 10435], at: usize, numbers: &[f32])
    requires { at + length numbers.now ≤ 10435 }
    ensures { floats.new ≡ sets floats.old at numbers.now }
{
    floats[at..at + numbers.len()].copy_from_slice(numbers);
}

fn put_filter(floats: &mut [f32; 10435], at: usize, f: Filter)
    requires { at + 56 ≤ 10435 }
    ensures { floats.new ≡ sets floats.old at (filter_floats f) }
{
    put_numbers(floats, at, &f.x);
    put_numbers(floats, at + 7, &f.p);
}

// Writes a box's numbers, and returns its tag.
fn put_box(floats: &mut [f32; 10435], at: usize, b: Option<Detection>) -> u32
    requires { at + 5 ≤ 10435 }
    ensures { (result ≡ tag_of b) × (floats.new ≡ sets floats.old at (box_floats b)) }
{
    let numbers = match b {
        None => [0.0; 5],
        Some(d) => [d.x1, d.y1, d.x2, d.y2, d.score],
    };
    put_numbers(floats, at, &numbers);
    u32::from(b.is_some())
}

fn put_list(floats: &mut [f32; 10435], at: usize, b: Option<DetectBox>) -> u32
    requires { at + 4 ≤ 10435 }
    ensures { (result ≡ tag_of b) × (floats.new ≡ sets floats.old at (list_floats b)) }
{
    let numbers = match b {
        None => [0.0; 4],
        Some(z) => [z.x, z.y, z.s, z.r],
    };
    put_numbers(floats, at, &numbers);
    u32::from(b.is_some())
}

fn put_direction(floats: &mut [f32; 10435], at: usize, d: Option<Direction>) -> u32
    requires { at + 2 ≤ 10435 }
    ensures { (result ≡ tag_of d) × (floats.new ≡ sets floats.old at (direction_floats d)) }
{
    let numbers = match d {
        None => [0.0; 2],
        Some(v) => [v.dy, v.dx],
    };
    put_numbers(floats, at, &numbers);
    u32::from(d.is_some())
}

fn put_kept(floats: &mut [f32; 10435], words: &mut [u32; 965], f: usize, w: usize, t: Track)
    requires { (f + 40 ≤ 10435) × (w + 8 ≤ 965) }
    ensures { (floats.new ≡ sets floats.old f (flat box_floats t.kept)) × (words.new ≡ sets words.old w (map tag_of t.kept)) }
{
    for j in 0..8 {
        words[w + j] = put_box(floats, f + 5 * j, t.kept[j]);
    }
}

pub fn put_track(
    wide: &mut [u64; 66],
    floats: &mut [f32; 10435],
    words: &mut [u32; 965],
    k: usize,
    e: Tracked,
)
    requires { k < 64 }
    ensures { Put k e (image_of wide.old floats.old words.old) (image_of wide.new floats.new words.new) }
{
    let f = 3 + 163 * k;
    let w = 5 + 15 * k;
    let t = e.track;
    wide[2 + k] = e.id;
    put_filter(floats, f, t.filter);
    put_filter(floats, f + 56, t.saved);
    words[w] = u32::from(t.frozen);
    words[w + 1] = t.age;
    words[w + 2] = t.streak;
    words[w + 3] = t.since;
    words[w + 4] = put_box(floats, f + 112, t.last);
    words[w + 5] = put_list(floats, f + 117, t.list);
    words[w + 6] = put_direction(floats, f + 121, t.direction);
    put_kept(floats, words, f + 123, w + 7, t);
}

// Zeros in the cells from k on: three runs, which compile to one memset each.
pub fn clear_from(wide: &mut [u64; 66], floats: &mut [f32; 10435], words: &mut [u32; 965], k: usize)
    requires { k ≤ 64 }
    ensures { Cleared k (image_of wide.old floats.old words.old) (image_of wide.new floats.new words.new) }
{
    wide[2 + k..].fill(0);
    floats[3 + 163 * k..].fill(0.0);
    words[5 + 15 * k..].fill(0);
}

// ---- the tracker

// Does nothing, and ensures that the lists have the lengths of their types: a list as a slice tells its length.
pub fn lengths(wide: &[u64; 66], floats: &[f32; 10435], words: &[u32; 965])
    ensures { Whole (image_of wide.now floats.now words.now) }
{
    let w: &[u64] = wide;
    let f: &[f32] = floats;
    let n: &[u32] = words;
}

// Writes the image of a state over whatever the lists held.
pub fn put(wide: &mut [u64; 66], floats: &mut [f32; 10435], words: &mut [u32; 965], t: Tracker)
    ensures { image_of wide.new floats.new words.new ≡ freeze_tracker t }
{
    lengths(wide, floats, words);
    let s = t.settings;
    wide[0] = t.issued;
    wide[1] = t.count as u64;
    floats[0] = s.det_thresh;
    floats[1] = s.iou_threshold;
    floats[2] = s.inertia;
    words[0] = s.max_age;
    words[1] = s.min_hits;
    words[2] = s.delta_t;
    words[3] = u32::from(s.use_byte);
    words[4] = t.frames;
    for k in 0..64 {
        put_track(wide, floats, words, k, t.table[k]);
    }
}

// The image of a state.
pub fn freeze(t: Tracker) -> TrackerImage
    ensures { result ≡ freeze_tracker t }
{
    let mut wide = [0; 66];
    let mut floats = [0.0; 10435];
    let mut words = [0; 965];
    put(&mut wide, &mut floats, &mut words, t);
    TrackerImage {
        wide,
        floats,
        words,
    }
}

// Does nothing, and ensures that the image of a state is faithful.
pub fn faithful(t: Tracker)
    ensures { Faithful t }
{}
