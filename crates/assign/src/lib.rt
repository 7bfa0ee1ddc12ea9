// The assignment of objects to tracks: the costs that a matrix of numbers gives, and what `lapjv` makes of them. Document 01, items 3 and 6.
#![tactic(auto)]

ghost use Rattle.std.specs.Prelude.{◌≡◌, ◌&&◌, ◌++◌, ◌-◌, ◌*◌, ◌≤◌, ltb, length, drop, replicate};
ghost use Rattle.std.specs.Float.{binary64};
ghost use Rattle.std.specs.Float.Ieee.{neg, of_bits};
ghost use Rattle.lists.specs.Lists.{pick, tab};
ghost use Rattle.lapjv_walk.specs.Marks.{free, mark_at};
ghost use Rattle.matching.specs.Matching.{larger, costs_of, within, assigned};
ghost use Rattle.matching.specs.Lent.{matrix_of};

use lapjv_walk::{index_of, is_free};
use matching::{Grid, Marks, fill_rows, marks_by};

// What a filled row or column costs.
const FILLED: f64 = 100000.0;

// The cost of row i, column j.
fn cost(m: Grid, i: usize, j: usize) -> f64
    ensures { result ≡ pick (ltb i m.entry.objects && ltb j m.entry.tracks) (neg (matrix_of m.entry i j)) (of_bits binary64 0x40f8_6a00_0000_0000) }
{
    if i < m.objects && j < m.tracks {
        -widening::widen(m.at(i, j))
    } else {
        FILLED
    }
}

// The costs of a square of n rows, row after row; cells past them stay.
fn costs(m: Grid, n: usize, out: &mut [f64])
    requires size { n ≡ larger m.objects m.tracks }
    requires room { n * n ≤ length out.old }
    ensures { out.new ≡ costs_of m.entry.objects m.entry.tracks (matrix_of m.entry) ++ drop (n * n) out.old }
{
    fill_rows(out, n, n, |i, j| cost(m, i, j));
}

// A mark, unless it reaches a filled column.
fn within(nt: usize, m: i64) -> i64
    ensures { result ≡ within nt m }
{
    if !is_free(m) && index_of(m) < nt {
        m
    } else {
        -1
    }
}

// The first nd marks, without those that reach a filled column.
fn all_within(x: &[i64], nd: usize, nt: usize) -> Marks
    requires { (nd ≤ 64) × (nd ≤ length x.now) }
    ensures { result.at ≡ tab (λ i. within nt (mark_at x.now i)) nd ++ replicate (64 - nd) free }
{
    marks_by(nd, |i| within(nt, x[i]))
}

// What the assignment on n rows gives each object, in a list for at most CELLS costs.
fn assigned_in<const CELLS: usize>(m: Grid, n: usize) -> Marks
    requires size { n ≡ larger m.objects m.tracks }
    requires room { (n * n ≤ CELLS) × (CELLS ≤ 4096) }
    ensures { result.at ≡ assigned m.entry.objects m.entry.tracks (matrix_of m.entry) ++ replicate (64 - m.entry.objects) free }
{
    let size = n * n;
    let mut cost = [0.0f64; CELLS];
    let mut x = [0i64; 64];
    let mut y = [0i64; 64];
    costs(m, n, &mut cost);
    let x = &mut x[..n];
    // Without rows the assignment is refused, and there is no object.
    let _ = lapjv::lapjv(n, &cost[..size], x, &mut y[..n]);
    all_within(x, m.objects, m.tracks)
}

// What the assignment gives each object, from numbers of which more is better.
pub fn assigned(m: Grid) -> Marks
    ensures { result.at ≡ assigned m.entry.objects m.entry.tracks (matrix_of m.entry) ++ replicate (64 - m.entry.objects) free }
{
    let n = m.objects.max(m.tracks);
    // Few rows, few cells to zero.
    if n <= 16 {
        assigned_in::<256>(m, n)
    } else {
        assigned_in::<4096>(m, n)
    }
}
