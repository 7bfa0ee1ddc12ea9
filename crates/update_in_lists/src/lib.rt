// One frame, in place on the lists of an image.
#![tactic(auto)]

ghost use Rattle.std.specs.Prelude.{◌≡◌};
ghost use Rattle.image.specs.Image.{image_of};
ghost use Rattle.update_in_lists.specs.Host.{telling, Hosted};

use object::Refusal;

// The refusal's number, or 0, and how many reports stand in the buffers.
// Stays: the C interface.
#[repr(C)]
#[derive(Clone, Copy)]
pub struct Reply {
    pub number: u64,
    pub count: usize,
}

impl From<Result<usize, Refusal>> for Reply {
    ghost from_gives = { λ o r. r ≡ telling o };

    fn from(outcome: Result<usize, Refusal>) -> Reply {
        Reply {
            number: object::told(outcome),
            count: outcome.unwrap_or(0),
        }
    }
}

// One frame, in place: a refusal leaves lists and buffers as they were.
pub fn update(
    wide: &mut [u64; 66],
    floats: &mut [f32; 10435],
    words: &mut [u32; 965],
    input: &[f32],
    boxes: &mut [f32],
    ids: &mut [u64],
) -> Reply
    ensures { Hosted (image_of wide.old floats.old words.old) input.now boxes.old ids.old (image_of wide.new floats.new words.new) result boxes.new ids.new }
{
    Reply::from(framed(wide, floats, words, input, boxes, ids))
}

// How many reports stand in the buffers, or why the frame is refused. The tracks wait in a table of its own, and are written back once no refusal can come.
fn framed(
    wide: &mut [u64; 66],
    floats: &mut [f32; 10435],
    words: &mut [u32; 965],
    input: &[f32],
    boxes: &mut [f32],
    ids: &mut [u64],
) -> Result<usize, Refusal>
    ensures { Hosted (image_of wide.old floats.old words.old) input.now boxes.old ids.old (image_of wide.new floats.new words.new) (telling result) boxes.new ids.new }
{
    if !frame_in_lists::are_totals_usable(wide, floats, words) {
        return Err(Refusal::UnsoundState);
    }
    let s = from_image::settings_in(floats, words);
    let frames = words[4];
    let issued = wide[0];
    let count = wide[1] as usize;
    let blank = one_track::blank();
    let mut table = [blank; 64];
    let nan = objects::nan();
    let mut seen = [nan; 256];
    let mut steps = [nan; 128];
    let mut lasts = [nan; 256];
    let mut olds = [nan; 320];
    let mut from = 0;
    let mut ahead = 0;
    for u in 0..count {
        let a = frame_in_lists::ahead_at(wide, floats, words, from, u)?;
        if let Ok(e) = a.tracked {
            table[ahead] = e;
            views::put_view(s, e, ahead, &mut seen, &mut steps, &mut lasts, &mut olds);
            ahead += 1;
        }
        from = a.next;
    }
    rules::early(frames, input.len(), boxes.len(), ids.len())?;
    let v = frame_in_lists::views_with(ahead, seen, steps, lasts, olds);
    let pairing = rounds::paired_by(s, v, input);
    let grants = pairing.grants;
    let left = pairing.left;
    let cells = left.cells;
    let born = left.n;
    if 64 < ahead + born {
        return Err(Refusal::FullTable);
    }
    // boxes and misses, without the tracks that age out: none of them is reported
    let mut young = 0;
    for g in 0..ahead {
        let before = table[g];
        let k = grants[g];
        let e = one_track::give(before, k, s.delta_t);
        if one_track::is_young(s, e) {
            table[young] = e;
            young += 1;
        }
    }
    for b in 0..born {
        let d = matching::detection_at(&cells, b);
        let e = one_track::birth(issued + b as u64, d);
        table[young + b] = e;
    }
    // reports run from the last track to the first
    let live = young + born;
    let mut reported = 0;
    for r in (0..live).rev() {
        let e = table[r];
        reported = frame_in_lists::tell(s, frames + 1, e, reported, boxes, ids);
        to_image::put_track(wide, floats, words, r, e);
    }
    frame_in_lists::close(wide, floats, words, issued + born as u64, live, frames + 1);
    Ok(reported)
}
