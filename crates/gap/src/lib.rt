// The replay of a gap (kalman_filter.rs; document 01, item 4): the filter of crate `kalman_filter` over virtual boxes on a straight line, and over the box that ended the gap.
#![tactic(auto)]

ghost use Rattle.std.specs.Prelude.{◌≡◌, ◌≤◌};
ghost use Rattle.gap.specs.Gap.{replay_of};
ghost use Rattle.gap.specs.Line.{line_of, box_at};

use kalman_filter::{DetectBox, Filter};

// Where a line of virtual boxes starts, and its change a frame.
#[derive(Clone, Copy)]
struct Line {
    x: f32,
    y: f32,
    w: f32,
    h: f32,
    dx: f32,
    dy: f32,
    dw: f32,
    dh: f32,
}

fn line_between(from: DetectBox, to: DetectBox, gap: u32) -> Line
    requires { gap ≤ 16777216 }
    ensures { result ≡ line_of gap from to }
{
    let g = gap as f32;
    let w = ieee::sqrt(from.s * from.r);
    let h = ieee::sqrt(from.s / from.r);
    let w2 = ieee::sqrt(to.s * to.r);
    let h2 = ieee::sqrt(to.s / to.r);
    let dx = (to.x - from.x) / g;
    let dy = (to.y - from.y) / g;
    let dw = (w2 - w) / g;
    let dh = (h2 - h) / g;
    Line {
        x: from.x,
        y: from.y,
        w,
        h,
        dx,
        dy,
        dw,
        dh,
    }
}

// The virtual box t frames along.
fn virtual_box(l: Line, t: u32) -> DetectBox
    requires { t ≤ 16777216 }
    ensures { result ≡ box_at l t }
{
    let t = t as f32;
    let w = l.w + t * l.dw;
    let h = l.h + t * l.dh;
    DetectBox {
        x: l.x + t * l.dx,
        y: l.y + t * l.dy,
        s: w * h,
        r: w / h,
    }
}

// The filter f, saved when boxes stopped coming, brought up to the box that came again after gap frames.
pub fn replay(f: Filter, from: DetectBox, to: DetectBox, gap: u32) -> Filter
    requires { gap ≤ 16777216 }
    ensures { result ≡ replay_of gap from to f }
{
    let l = line_between(from, to, gap);
    let mut k = f;
    for t in 1..gap + 1 {
        let v = virtual_box(l, t);
        k = kalman_filter::update(k, v);
        if t < gap {
            k = kalman_filter::predict(k);
        }
    }
    kalman_filter::update(k, to)
}
