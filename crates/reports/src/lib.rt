// A frame's reports, written to the answer's buffers: document 01, item 6.
#![tactic(auto)]

ghost use Rattle.std.specs.Prelude.{◌≡◌, true, ◌+◌, ◌*◌, ◌≤◌, ◌<◌, length, set};
ghost use Rattle.lists.specs.Lists.{pick, every};
ghost use Rattle.frame.specs.Frame.{shown_box, report_of, is_reported, reports_of};
ghost use Rattle.tracks.specs.Tracks.{tracks_in};
ghost use Rattle.reports.specs.Written.{rect_at, low_id, Written};

use frame::{Settings, Tracked};
use object::{Corners, Rect};
use strack::Track;
use tracks::Tracks;

// A track's last box, or the filter's where it has none.
fn shown_box(t: Track) -> Corners
    ensures { result ≡ shown_box t.last t }
{
    match t.last {
        None => strack::get_state(t.filter),
        Some(d) => Corners::from(d),
    }
}

pub fn is_reported(s: Settings, frames: u32, t: Track) -> bool
    ensures { result ≡ is_reported s frames t }
{
    (t.since == 0) & ((s.min_hits <= t.streak) | (frames <= s.min_hits))
}

fn rect_of(e: Tracked) -> Rect
    ensures { result ≡ (report_of e).rect }
{
    let t = e.track;
    let b = shown_box(t);
    Rect::from_xyxy(b.x1, b.y1, b.x2, b.y2)
}

// A track's report after n others; ids are told from 1 on.
fn report(e: Tracked, n: usize, boxes: &mut [f32], ids: &mut [u64])
    requires { (4 * n + 4 ≤ length boxes.old) × ((n < length ids.old) × (low_id e ≡ true)) }
    ensures { (boxes.new ≡ rect_at n (report_of e).rect boxes.old) × (ids.new ≡ set ids.old n (report_of e).id) }
{
    let r = rect_of(e);
    let at = 4 * n;
    boxes[at] = r.x;
    boxes[at + 1] = r.y;
    boxes[at + 2] = r.width;
    boxes[at + 3] = r.height;
    ids[n] = e.id + 1;
}

// How many reports there are after one more track.
pub fn report_if(reported: bool, e: Tracked, n: usize, boxes: &mut [f32], ids: &mut [u64]) -> usize
    requires { (4 * n + 4 ≤ length boxes.old) × ((n < length ids.old) × (low_id e ≡ true)) }
    ensures { (result ≡ pick reported (n + 1) n) × ((boxes.new ≡ pick reported (rect_at n (report_of e).rect boxes.old) boxes.old) × (ids.new ≡ pick reported (set ids.old n (report_of e).id) ids.old)) }
{
    if reported {
        report(e, n, boxes, ids);
        return n + 1;
    }
    n
}

// The reports of the tracks, from last to first, and how many.
pub fn write(s: Settings, frames: u32, ts: Tracks, boxes: &mut [f32], ids: &mut [u64]) -> usize
    requires { (ts.count ≤ 64) × ((256 ≤ length boxes.old) × ((64 ≤ length ids.old) × (every low_id (tracks_in ts) ≡ true))) }
    ensures { Written (reports_of s frames (tracks_in ts)) result boxes.old ids.old boxes.new ids.new }
{
    let mut n = 0;
    for i in (0..ts.count).rev() {
        let e = ts.table[i];
        let t = e.track;
        n = report_if(is_reported(s, frames, t), e, n, boxes, ids);
    }
    n
}
