// A frame once its pairs are known: boxes and misses, births, reports, ageing. Document 01, item 6.
#![tactic(auto)]

ghost use Rattle.std.specs.Prelude.{length};
ghost use Rattle.settling.specs.Settled.{Answered, joined, settled_on, Ready};

use frame::{Answer, Tracker};
use object::Detection;
use objects::Dets;
use tracks::Tracks;

pub fn settled(
    t: Tracker,
    ts: Tracks,
    grants: [Option<Detection>; 64],
    left: Dets,
    boxes: &mut [f32],
    ids: &mut [u64],
) -> Answer
    requires { Ready t ts left (length boxes.old) (length ids.old) }
    ensures { Answered (settled_on t (joined t ts grants left) left.n) boxes.old ids.old result boxes.new ids.new }
{
    let settings = t.settings;
    let given = ts.given(grants, settings.delta_t);
    let all = given.born(left, t.issued);
    let frames = t.frames + 1;
    let reported = reports::write(settings, frames, all, boxes, ids);
    let young = all.aged(settings);
    let table = young.table;
    let next = Tracker {
        settings,
        frames,
        issued: t.issued + left.n as u64,
        count: young.count,
        table,
    };
    Answer {
        outcome: Ok(reported),
        tracker: next,
    }
}
