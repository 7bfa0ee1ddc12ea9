// The pairs that the threshold keeps, of those that a round found: document 01, item 3, and item 6's later rounds.
#![tactic(auto)]

ghost use Rattle.std.specs.Prelude.{◌≡◌, Bool, not, ◌&&◌, ◌++◌, ℕ, ◌-◌, ◌<◌, pos, take, replicate};
ghost use Rattle.std.specs.Float.Ieee.{Float, lt, le};
ghost use Rattle.lists.specs.Lists.{pick};
ghost use Rattle.lapjv_walk.specs.Marks.{free, is_free, index};
ghost use Rattle.matching.specs.Matching.{kept_where};
ghost use Rattle.matching.specs.Paired.{Below};
ghost use Rattle.matching.specs.Lent.{matrix_of};

use lapjv_walk::{index_of, is_free};
use matching::{Grid, Marks, marks_by};

// Object i's mark, if the pair's overlap passes.
fn kept_mark<F: Fn(f32) -> bool>(m: i64, iou: Grid, i: usize, passes: &F) -> i64
    requires object { i < iou.objects }
    requires track { (j : ℕ) → m ≡ pos j → j < iou.tracks }
    requires called { F.IsAlwaysCallable passes.now }
    ensures { (p : Float → Bool) → ((o : Float) (b : Bool) → F.post passes.now o b → b ≡ p o) → result ≡ pick (not (is_free m) && p (matrix_of iou.entry i (index m))) m free }
{
    if !is_free(m) && passes(iou.at(i, index_of(m))) {
        m
    } else {
        -1
    }
}

// The marks of pairs whose overlap passes.
fn kept<F: Fn(f32) -> bool>(marks: Marks, iou: Grid, passes: F) -> Marks
    requires below { Below iou.objects iou.tracks marks.at }
    requires called { F.IsAlwaysCallable passes }
    ensures { (p : Float → Bool) → ((o : Float) (b : Bool) → F.post passes o b → b ≡ p o) → result.at ≡ kept_where iou.entry.objects p (matrix_of iou.entry) (take iou.entry.objects marks.at) ++ replicate (64 - iou.entry.objects) free }
{
    marks_by(iou.objects, |i| kept_mark(marks.at[i], iou, i, &passes))
}

// The marks of pairs that are not below the threshold.
pub fn kept_unless_below(marks: Marks, iou: Grid, thr: f32) -> Marks
    requires { Below iou.objects iou.tracks marks.at }
    ensures { result.at ≡ kept_where iou.entry.objects (λ o. not (lt o thr)) (matrix_of iou.entry) (take iou.entry.objects marks.at) ++ replicate (64 - iou.entry.objects) free }
{
    kept(marks, iou, |o| !(o < thr))
}

// The marks of pairs at the threshold or above.
pub fn kept_at_or_above(marks: Marks, iou: Grid, thr: f32) -> Marks
    requires { Below iou.objects iou.tracks marks.at }
    ensures { result.at ≡ kept_where iou.entry.objects (λ o. le thr o) (matrix_of iou.entry) (take iou.entry.objects marks.at) ++ replicate (64 - iou.entry.objects) free }
{
    kept(marks, iou, |o| thr <= o)
}
