// What is read from the overlaps above the threshold: whether the shortcut stands, its marks, and whether a later round starts. assoc.rs, document 01,
// items 3 and 6.
#![tactic(auto)]

ghost use Rattle.std.specs.Prelude.{◌≡◌, Bool, ◌++◌, ℕ, ◌-◌, ◌<◌, ◌≤◌, pos, replicate};
ghost use Rattle.lists.specs.Lists.{tab};
ghost use Rattle.lapjv_walk.specs.Marks.{free};
ghost use Rattle.matching.specs.Matching.{above_of, count_of, fullest, passing, shortcut, some_above};
ghost use Rattle.matching.specs.Lent.{matrix_of};

use matching::{Grid, Marks, marks_by};

// ---- overlaps above the threshold

// How many of the first n pass.
fn count<F: Fn(usize) -> bool>(n: usize, passes: F) -> usize
    requires few { n ≤ 64 }
    requires called { (i : ℕ) → i < n → F.pre passes i }
    ensures { (p : ℕ → Bool) → ((i : ℕ) (b : Bool) → i < n → F.post passes i b → b ≡ p i) → result ≡ count_of p n }
{
    let mut total = 0;
    for i in 0..n {
        if passes(i) {
            total += 1;
        }
    }
    total
}

// The largest of the first n numbers.
fn largest<F: Fn(usize) -> usize>(n: usize, number: F) -> usize
    requires { (i : ℕ) → i < n → F.pre number i }
    ensures { (f : ℕ → ℕ) → ((i k : ℕ) → i < n → F.post number i k → k ≡ f i) → result ≡ fullest f n }
{
    let mut most = 0;
    for i in 0..n {
        most = most.max(number(i));
    }
    most
}

// How many overlaps of row i are above the threshold.
fn row_count(iou: Grid, thr: f32, i: usize) -> usize
    requires { i < iou.objects }
    ensures { result ≡ count_of (λ j. above_of thr (matrix_of iou.entry) i j) iou.entry.tracks }
{
    count(iou.tracks, |j| thr < iou.at(i, j))
}

// How many overlaps of column j are above the threshold.
fn column_count(iou: Grid, thr: f32, j: usize) -> usize
    requires { j < iou.tracks }
    ensures { result ≡ count_of (λ i. above_of thr (matrix_of iou.entry) i j) iou.entry.objects }
{
    count(iou.objects, |i| thr < iou.at(i, j))
}

fn fullest_row(iou: Grid, thr: f32) -> usize
    ensures { result ≡ fullest (λ i. count_of (λ j. above_of thr (matrix_of iou.entry) i j) iou.entry.tracks) iou.entry.objects }
{
    largest(iou.objects, |i| row_count(iou, thr, i))
}

fn fullest_column(iou: Grid, thr: f32) -> usize
    ensures { result ≡ fullest (λ j. count_of (λ i. above_of thr (matrix_of iou.entry) i j) iou.entry.objects) iou.entry.tracks }
{
    largest(iou.tracks, |j| column_count(iou, thr, j))
}

// Whether the fullest row and the fullest column both have one.
pub fn is_shortcut(iou: Grid, thr: f32) -> bool
    ensures { result ≡ shortcut iou.entry.objects iou.entry.tracks (above_of thr (matrix_of iou.entry)) }
{
    fullest_row(iou, thr) == 1 && fullest_column(iou, thr) == 1
}

#[tactic(auto, unfolding(matching::specs::Matching::some_above))]
pub fn some_above(iou: Grid, thr: f32) -> bool
    ensures { result ≡ some_above iou.entry.objects iou.entry.tracks thr (matrix_of iou.entry) }
{
    0 < fullest_row(iou, thr)
}

// ---- the shortcut's marks

// The last track whose overlap with object i is above the threshold, or -1.
fn row_mark(iou: Grid, thr: f32, i: usize) -> i64
    requires { i < iou.objects }
    ensures { result ≡ passing (above_of thr (matrix_of iou.entry) i) iou.entry.tracks }
{
    let mut mark = -1;
    for j in 0..iou.tracks {
        if thr < iou.at(i, j) {
            mark = lapjv_walk::mark(j);
        }
    }
    mark
}

pub fn shortcut_marks(iou: Grid, thr: f32) -> Marks
    ensures { result.at ≡ tab (λ i. passing (above_of thr (matrix_of iou.entry) i) iou.entry.tracks) iou.entry.objects ++ replicate (64 - iou.entry.objects) free }
{
    marks_by(iou.objects, |i| row_mark(iou, thr, i))
}
