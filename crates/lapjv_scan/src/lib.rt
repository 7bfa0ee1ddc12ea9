// `scan_dense`: from the columns at the least distance, their rows against the others.
#![tactic(auto)]

ghost use Rattle.std.specs.Prelude.{◌≡◌, ℕ, ◌≤◌, ◌<◌, length};
ghost use Rattle.lapjv_walk.specs.Marks.{free, mark_of};
ghost use Rattle.lapjv_walk.specs.Path.{scan_row, scan_dense};
ghost use Rattle.lapjv_walk.specs.Reads.{scan_row_reads, scan_reads};
ghost use Rattle.lapjv_walk.specs.Holds.{Square, Apart, Marked, Held};
ghost use Rattle.costs.specs.OpsOn.{ops};

use costs::{Cost, reduced_cost};
use lapjv_walk::{free_at, index_at};

// Where a row's scan ended: the end of the columns at the least distance, the free column found, and the costs read.
#[derive(Clone, Copy)]
pub struct Hit {
    pub hi: usize,
    pub found: Option<usize>,
    pub reads: usize,
}

// Row i, at the least distance mind, against the columns from `from` on.
fn scan_row<C: Cost>(
    n: usize,
    cost: &[C],
    i: usize,
    h: C,
    mind: C,
    from: usize,
    d: &mut [C],
    cols: &mut [usize],
    pred: &mut [usize],
    y: &[i64],
    v: &[C],
) -> Hit
    requires { Square n cost.now × (i < n) × (from ≤ n) × (length d.old ≡ n) × Apart n cols.old × (length pred.old ≡ n) × (length y.now ≡ n) × (length v.now ≡ n) × C.Costs n cost.now × C.Prices n v.now × C.Small h }
    ensures { (lo : ℕ) → (scan_row (ops C.on) n cost.now y.now v.now i h mind (record { lo = lo; hi = from; d = d.old; cols = cols.old; pred = pred.old; found = free }) ≡ record { lo = lo; hi = result.hi; d = d.new; cols = cols.new; pred = pred.new; found = mark_of result.found }) × (result.reads ≡ scan_row_reads (ops C.on) n cost.now y.now v.now i h mind (record { lo = lo; hi = from; d = d.old; cols = cols.old; pred = pred.old; found = free })) }
{
    let mut hi = from;
    for k in from..n {
        let j = cols[k];
        let c = reduced_cost(n, cost, v, i, j).minus(h);
        if c.is_less(d[j]) {
            d[j] = c;
            pred[j] = i;
            if c.is_same(mind) {
                if free_at(y, j) {
                    let reads = k + 1 - from;
                    return Hit {
                        hi,
                        found: Some(j),
                        reads,
                    };
                }
                cols[k] = cols[hi];
                cols[hi] = j;
                hi += 1;
            }
        }
    }
    let reads = n - from;
    Hit {
        hi,
        found: None,
        reads,
    }
}

// Where a scan or a search ended, and the costs read.
#[derive(Clone, Copy)]
pub struct Scanned {
    pub lo: usize,
    pub hi: usize,
    pub found: Option<usize>,
    pub reads: usize,
}

// Scans the columns at the least distance, from `at` up to `end`, until a free column joins them.
pub fn scan_dense<C: Cost>(
    n: usize,
    cost: &[C],
    at: usize,
    end: usize,
    d: &mut [C],
    cols: &mut [usize],
    pred: &mut [usize],
    y: &[i64],
    v: &[C],
) -> Scanned
    requires { Square n cost.now × Marked n y.now × (length v.now ≡ n) × Held n y.now (record { lo = at; hi = end; d = d.old; cols = cols.old; pred = pred.old; found = free }) × C.Costs n cost.now × C.Good n cost.now y.now v.now × C.Far n d.old }
    ensures { (scan_dense (ops C.on) n cost.now y.now v.now (record { lo = at; hi = end; d = d.old; cols = cols.old; pred = pred.old; found = free }) ≡ record { lo = result.lo; hi = result.hi; d = d.new; cols = cols.new; pred = pred.new; found = mark_of result.found }) × (result.reads ≡ scan_reads (ops C.on) n cost.now y.now v.now (record { lo = at; hi = end; d = d.old; cols = cols.old; pred = pred.old; found = free })) }
{
    let mut lo = at;
    let mut hi = end;
    let mut reads = 0;
    // Stays: no range counts this loop, since each row moves hi.
    while lo != hi {
        let j = cols[lo];
        lo += 1;
        let i = index_at(y, j);
        let mind = d[j];
        let h = reduced_cost(n, cost, v, i, j).minus(mind);
        let s = scan_row(n, cost, i, h, mind, hi, d, cols, pred, y, v);
        hi = s.hi;
        reads += 1 + s.reads;
        if let Some(found) = s.found {
            return Scanned {
                lo: at,
                hi: end,
                found: Some(found),
                reads,
            };
        }
    }
    Scanned {
        lo,
        hi,
        found: None,
        reads,
    }
}
