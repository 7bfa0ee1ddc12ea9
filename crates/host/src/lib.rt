// What C and Rust link, behind the symbols of crate `host_c`: the tracker's calls over the image of a state, which the caller holds in three lists of numbers.
#![tactic(auto)]

ghost use Rattle.std.specs.Prelude.{◌≡◌, ℕ, Result};
ghost use Rattle.image.specs.Image.{image_of};
ghost use Rattle.frame.specs.Contract.{made_of};
ghost use Rattle.lapjv.specs.Answer.{Answer, reads_of};
ghost use Rattle.lapint.specs.Answer.{WholeAnswer};
ghost use Rattle.object.specs.Refusal.{told_of};
ghost use Rattle.oc_sort_tracker.specs.New.{defaults};
ghost use Rattle.making.specs.Making.{fresh_of, fresh_with, begun};
ghost use Rattle.shortcut_counts.specs.Counted.{Counted};
ghost use Rattle.update_in_lists.specs.Host.{Hosted};

use making::SettingsImage;
use object::Refusal;
use shortcut_counts::Tally;
use update_in_lists::Reply;

// ---- a frame

// One frame, in place: a refusal leaves lists and buffers as they were.
pub fn satinjacks_update_lists(
    wide: &mut [u64; 66],
    floats: &mut [f32; 10435],
    words: &mut [u32; 965],
    input: &[f32],
    boxes: &mut [f32],
    ids: &mut [u64],
) -> Reply
    ensures { Hosted (image_of wide.old floats.old words.old) input.now boxes.old ids.old (image_of wide.new floats.new words.new) result boxes.new ids.new }
{
    update_in_lists::update(wide, floats, words, input, boxes, ids)
}

// ---- making a tracker

// A tracker with all seven settings, in place: 0, or 2 and the lists as they were.
pub fn satinjacks_with_settings_lists(
    wide: &mut [u64; 66],
    floats: &mut [f32; 10435],
    words: &mut [u32; 965],
    settings: SettingsImage,
) -> u64
    ensures { (result ≡ (fresh_with settings).number) × (image_of wide.new floats.new words.new ≡ begun (image_of wide.old floats.old words.old) (fresh_with settings)) }
{
    making::with_settings(wide, floats, words, settings)
}

// A tracker with the Rust's defaults, in place: 0, or 2 and the lists as they were.
pub fn satinjacks_new_lists(
    wide: &mut [u64; 66],
    floats: &mut [f32; 10435],
    words: &mut [u32; 965],
    det_thresh: f32,
) -> u64
    ensures { (result ≡ (fresh_of (made_of (defaults det_thresh))).number) × (image_of wide.new floats.new words.new ≡ begun (image_of wide.old floats.old words.old) (fresh_of (made_of (defaults det_thresh)))) }
{
    making::new(wide, floats, words, det_thresh)
}

// ---- the assignment

// The refusal's number, or 0, and how many cost entries were read (document 02, 2.12).
#[repr(C)]
#[derive(Clone, Copy)]
pub struct AssignReply {
    pub number: u64,
    pub reads: usize,
}

// Pairs n rows and n columns by their costs, given row after row.
pub fn satinjacks_assign(n: usize, cost: &[f64], x: &mut [i64], y: &mut [i64]) -> AssignReply
    ensures { (r : Result ℕ Refusal) × ((result.number ≡ told_of r) × (result.reads ≡ reads_of r) × Answer n cost.now x.old y.old r x.new y.new) }
{
    let answer = lapjv::lapjv(n, cost, x, y);
    AssignReply {
        number: object::told(answer),
        reads: answer.unwrap_or(0),
    }
}

// Pairs them by whole costs, at the least total (document 02, 2.3).
pub fn satinjacks_assign_whole(n: usize, cost: &[i64], x: &mut [i64], y: &mut [i64]) -> u64
    ensures { (r : Result Unit Refusal) × ((result ≡ told_of r) × WholeAnswer n cost.now x.old y.old r x.new y.new) }
{
    object::told(lapint::lapint(n, cost, x, y))
}

// ---- how often the shortcut runs

// Of all patterns of 1 to 4 rows by 1 to 4 columns, those that take the shortcut and those that go to the assignment; 0 and 0 for any other size.
pub fn satinjacks_shortcuts(rows: u64, columns: u64) -> Tally
    ensures { Counted rows columns result.shortcut result.assignment }
{
    shortcut_counts::shortcuts(rows, columns)
}
