// The state as C and Rust pass it, without enums and bools: three lists of numbers, one for each type, and whether they mean something. from_image reads a state from them, to_image writes one.
#![tactic(auto)]

ghost use Rattle.std.specs.Prelude.{◌≡◌, ◌<◌};
ghost use Rattle.image.specs.Image.{is_set, tagged, meant_track, image_of, cell_at, meant};

// The whole state, in 46,128 bytes without padding. What stands where: specs/Image.antt.
#[repr(C)]
#[derive(Clone, Copy)]
pub struct TrackerImage {
    pub wide: [u64; 66],
    pub floats: [f32; 10435],
    pub words: [u32; 965],
}

// ---- flags and tags: a tag is 0 where there is none, 1 where there is one; others mean nothing
// Stays: numbers, and no enum: C passes them.

pub fn is_set(n: u32) -> bool
    ensures { result ≡ is_set n }
{
    n != 0
}

pub fn is_tag(n: u32) -> bool
    ensures { result ≡ tagged n }
{
    n <= 1
}

// ---- meaning

// Whether all tags of track k mean something.
pub fn is_meant_at(wide: &[u64; 66], floats: &[f32; 10435], words: &[u32; 965], k: usize) -> bool
    requires { k < 64 }
    ensures { result ≡ meant_track (cell_at (image_of wide.now floats.now words.now) k) }
{
    let w = 5 + 15 * k;
    let mut ok = is_tag(words[w]);
    for j in 4..15 {
        ok &= is_tag(words[w + j]);
    }
    ok
}

// Whether an image means something. A count above 64 is left to the state rules: no cell past the 64 is read.
pub fn is_meant(i: TrackerImage) -> bool
    ensures { result ≡ meant i }
{
    let mut ok = is_tag(i.words[3]);
    let count = i.wide[1];
    for k in 0..64 {
        if count <= k as u64 {
            return ok;
        }
        ok &= is_meant_at(&i.wide, &i.floats, &i.words, k);
    }
    ok
}
