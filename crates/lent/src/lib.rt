// The frame call on a lent tracker: document 01, item 6.
#![tactic(auto)]

ghost use Rattle.frame.specs.Contract.{Framed};

use frame::Tracker;
use object::Refusal;

// `oc_sort_tracker::update` in place: the same outcome, and the tracker it returns is left in `t`. A refusal leaves `t` and both buffers as they were.
pub fn update_in_place(
    t: &mut Tracker,
    input: &[f32],
    boxes: &mut [f32],
    ids: &mut [u64],
) -> Result<usize, Refusal>
    ensures { Framed t.old input.now boxes.old ids.old (record { outcome = result; tracker = t.new }) boxes.new ids.new }
{
    let answer = oc_sort_tracker::update(*t, input, boxes, ids);
    *t = answer.tracker;
    answer.outcome
}
