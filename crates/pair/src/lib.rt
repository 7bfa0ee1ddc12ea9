// One object and one track: their overlap, and the parts of the angle term. assoc.rs, document 01, item 3.
#![tactic(auto)]

ghost use Rattle.std.specs.Prelude.{◌≡◌};
ghost use Rattle.pair.specs.Overlap.{area_of, side_of, inter_of, overlap_of};
ghost use Rattle.pair.specs.Angle.{centre_of, unit_of, angle_of, cosine_of, mask_of, term_of};

use object::Corners;

fn area(b: Corners) -> f32
    ensures { result ≡ area_of b }
{
    (b.x2 - b.x1) * (b.y2 - b.y1)
}

// The common part's length on one axis.
fn side(a1: f32, a2: f32, b1: f32, b2: f32) -> f32
    ensures { result ≡ side_of a1 a2 b1 b2 }
{
    ieee::max(ieee::min(a2, b2) - ieee::max(a1, b1), 0.0)
}

fn intersection(d: Corners, t: Corners) -> f32
    ensures { result ≡ inter_of d t }
{
    side(d.x1, d.x2, t.x1, t.x2) * side(d.y1, d.y2, t.y1, t.y2)
}

// Intersection over union.
pub fn overlap(d: Corners, t: Corners) -> f32
    ensures { result ≡ overlap_of d t }
{
    let inter = intersection(d, t);
    let union = area(d) + area(t) - inter;
    if 0.0 < union {
        return inter / union;
    }
    0.0
}

pub fn centre(a: f32, b: f32) -> f32
    ensures { result ≡ centre_of a b }
{
    (a + b) / 2.0
}

// Half pi less the angle of a cosine, as a part of pi.
pub fn angle(c: f32) -> f32
    ensures { result ≡ angle_of c }
{
    (ieee::FRAC_PI_2 - ieee::abs(ieee::acos(ieee::clamp(c, -1.0, 1.0)))) / ieee::PI
}

// 0 for a placeholder, whose score is below 0.
pub fn mask(score: f32) -> f32
    ensures { result ≡ mask_of score }
{
    if score < 0.0 {
        return 0.0;
    }
    1.0
}

// The cosine between a track's direction and a step, over the step's length plus 1e-6.
pub fn cosine(dy: f32, dx: f32, to_x: f32, to_y: f32) -> f32
    ensures { result ≡ cosine_of (record { dy = dy; dx = dx }) (unit_of to_x to_y) }
{
    let norm = ieee::sqrt(to_x * to_x + to_y * to_y) + 1e-6;
    dx * (to_x / norm) + dy * (to_y / norm)
}

pub fn term(mask: f32, angle: f32, inertia: f32, score: f32) -> f32
    ensures { result ≡ term_of mask angle inertia score }
{
    mask * angle * inertia * score
}
