// The state rules that speak of one track alone, tested: document 01, 'State rules', and document 02, 2.5.
#![tactic(auto)]

ghost use Rattle.std.specs.Prelude.{◌≡◌};
ghost use Rattle.strack.specs.Track.{list_entry};
ghost use Rattle.strack.specs.Rules.{same_number, same_box, same_entry, own_rules};

use kalman_filter::DetectBox;
use object::{Corners, Detection};
use strack::Track;

// ---- the list box is the last box's entry in `history_obs`

// By the bits: a NaN is the same as any other, 0 and -0 are two.
// Stays: not `==`, which differs from `same_number` on both.
fn is_same(a: f32, b: f32) -> bool
    ensures { result ≡ same_number a b }
{
    widening::bits_of(a) == widening::bits_of(b)
}

fn is_same_box(a: DetectBox, b: DetectBox) -> bool
    ensures { result ≡ same_box a b }
{
    is_same(a.x, b.x) & is_same(a.y, b.y) & is_same(a.s, b.s) & is_same(a.r, b.r)
}

// Whether the list box, where both are there, is the last box as measured.
fn is_entry(last: Option<Detection>, list: Option<DetectBox>) -> bool
    ensures { result ≡ same_entry (list_entry last) list }
{
    match (last, list) {
        (Some(d), Some(z)) => {
            let b = Corners::from(d);
            is_same_box(z, strack::convert_bbox_to_z(b))
        }
        _ => true,
    }
}

// ---- all of them

// Whether the state rules that speak of one track alone hold.
pub fn is_sound(t: Track) -> bool
    ensures { result ≡ own_rules t }
{
    let seen = t.last.is_some();
    (t.streak <= t.age)
        & (t.since <= t.age)
        & (t.list.is_some() == seen)
        & is_entry(t.last, t.list)
        & !((t.since == t.age) & seen)
        & (t.frozen == (seen & (0 < t.since)))
}
