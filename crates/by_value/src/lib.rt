// The exported frame call in its plain form, behind the symbol of crate `by_value_c`: the whole image is converted there and back. tests/boundary holds `satinjacks_update_lists` against it.
#![tactic(auto)]

ghost use Rattle.update_in_lists.specs.Host.{Hosted};

use image::TrackerImage;
use object::Refusal;
use update_in_lists::Reply;

#[repr(C)]
#[derive(Clone, Copy)]
pub struct Stepped {
    pub image: TrackerImage,
    pub reply: Reply,
}

// One frame, by value: a refusal returns the image as it came. No refusal has number 0.
pub fn satinjacks_update_by_value(
    i: TrackerImage,
    input: &[f32],
    boxes: &mut [f32],
    ids: &mut [u64],
) -> Stepped
    ensures { Hosted i input.now boxes.old ids.old result.image result.reply boxes.new ids.new }
{
    if !image::is_meant(i) {
        return Stepped {
            image: i,
            reply: Reply::from(Err(Refusal::UnsoundState)),
        };
    }
    let t = from_image::thaw(i);
    let answer = oc_sort_tracker::update(t, input, boxes, ids);
    let outcome = answer.outcome;
    let reply = Reply::from(outcome);
    if outcome.is_err() {
        return Stepped { image: i, reply };
    }
    let next = answer.tracker;
    let image = to_image::freeze(next);
    Stepped { image, reply }
}
