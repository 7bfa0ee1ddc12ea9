// The exported symbol of the frame call in its plain form, libby_value.a: it calls the function of crate `by_value` of its name, under the same contract.
#![tactic(auto)]

ghost use Rattle.update_in_lists.specs.Host.{Hosted};

use by_value::Stepped;
use image::TrackerImage;

// One frame, by value: a refusal returns the image as it came. No refusal has number 0.
#[unsafe(no_mangle)]
pub extern "C" fn satinjacks_update_by_value(
    i: TrackerImage,
    input: &[f32],
    boxes: &mut [f32],
    ids: &mut [u64],
) -> Stepped
    ensures { Hosted i input.now boxes.old ids.old result.image result.reply boxes.new ids.new }
{
    by_value::satinjacks_update_by_value(i, input, boxes, ids)
}
