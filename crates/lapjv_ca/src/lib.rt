// `ca_dense`: each row left over gets a column, along the shortest way to a free one.
#![tactic(auto)]

ghost use Rattle.std.specs.Prelude.{◌≡◌, false, ℕ, ◌≤◌, ◌<◌, length};
ghost use Rattle.lapjv_walk.specs.Marks.{index, mark_at, num_at};
ghost use Rattle.lapjv_walk.specs.Lapjv.{hop_more, augment, ca_step, ca_dense};
ghost use Rattle.lapjv_walk.specs.Reads.{find_path_reads, ca_reads};
ghost use Rattle.lapjv_walk.specs.Holds.{Square, Marked, Ranged, Room, Left};
ghost use Rattle.lapjv_walk.specs.Ends.{RowEnds};
ghost use Rattle.costs.specs.OpsOn.{ops};
ghost use Rattle.std.specs.Mem.{FitsInMemory};
ghost use Rattle.std.specs.Borrow.{Array};

use costs::Cost;
use lapjv_path::{find_path_dense, find_path_own};
use lapjv_walk::{free_at, index_at, put_mark};

// The column of row i, or 0 where it has none.
fn column_at(x: &[i64], i: usize) -> usize
    requires { (i < length x.now) × (i < 64) }
    ensures { result ≡ index (mark_at x.now i) }
{
    if free_at(x, i) {
        return 0;
    }
    index_at(x, i)
}

// From column last back to row start: the row before each column takes it, and leaves its own.
pub fn augment(n: usize, pred: &[usize], start: usize, last: usize, x: &mut [i64], y: &mut [i64])
    requires { (n ≤ 64) × (start < n) × (last < n) × (length pred.now ≡ n) × ((j : ℕ) → j < n → num_at pred.now j < n) × Ranged n x.old × (length y.old ≡ n) × (hop_more start (augment n pred.now start last x.old y.old) ≡ false) }
    ensures { ((augment n pred.now start last x.old y.old).x ≡ x.new) × ((augment n pred.now start last x.old y.old).y ≡ y.new) }
{
    let mut i = n;
    let mut j = last;
    // Stays: no range counts this loop, which goes back along a way.
    while i != start {
        i = pred[j];
        put_mark(y, j, i);
        let left = column_at(x, i);
        put_mark(x, i, j);
        j = left;
    }
}

// The free row start gets a column, for so many reads; d is lent for the distances.
fn ca_row<C: Cost>(
    n: usize,
    cost: &[C],
    start: usize,
    d: &mut [C],
    pred: &mut [usize],
    x: &mut [i64],
    y: &mut [i64],
    v: &mut [C],
) -> usize
    requires { Square n cost.now × (start < n) × (length d.old ≡ n) × (length pred.old ≡ n) × Ranged n x.now × Marked n y.old × Room n y.old × (length v.old ≡ n) × RowEnds (ops C.on) n cost.now start (record { x = x.now; y = y.old; v = v.old }) × C.Costs n cost.now × C.Good n cost.now y.old v.old }
    ensures { (ca_step (ops C.on) n cost.now start (record { x = x.entry.now; y = y.old; v = v.old }) ≡ record { x = x.exit.now; y = y.new; v = v.new }) × (result ≡ find_path_reads (ops C.on) n cost.now start y.old v.old) }
{
    let way = find_path_dense(n, cost, start, d, y, v, pred);
    augment(n, pred, start, way.last, x, y);
    way.reads
}

// Each row left over gets a column, for so many reads; d is lent for the distances.
pub fn ca_dense<C: Cost>(
    n: usize,
    cost: &[C],
    count: usize,
    rows: &[usize],
    d: &mut [C],
    pred: &mut [usize],
    x: &mut [i64],
    y: &mut [i64],
    v: &mut [C],
) -> usize
    requires { Square n cost.now × (length d.old ≡ n) × (length pred.old ≡ n) × Left n (record { rows = rows.now; count = count; x = x.old; y = y.old; v = v.old }) × C.Costs n cost.now × C.Good n cost.now y.old v.old }
    ensures { (ca_dense (ops C.on) n cost.now count (record { rows = rows.entry.now; count = count; x = x.entry.now; y = y.old; v = v.old }) ≡ record { x = x.exit.now; y = y.new; v = v.new }) × (result ≡ ca_reads (ops C.on) n cost.now count (record { rows = rows.entry.now; count = count; x = x.entry.now; y = y.old; v = v.old })) }
{
    let mut reads = 0;
    for r in 0..count {
        let start = rows[r];
        reads += ca_row(n, cost, start, d, pred, x, y, v);
    }
    reads
}

// ca_row where the search has a list of distances of its own.
fn ca_row_own<C: Cost>(
    n: usize,
    cost: &[C],
    start: usize,
    pred: &mut [usize],
    x: &mut [i64],
    y: &mut [i64],
    v: &mut [C],
) -> usize
    requires { Square n cost.now × (start < n) × FitsInMemory (Array C.row 64) × (length pred.old ≡ n) × Ranged n x.now × Marked n y.old × Room n y.old × (length v.old ≡ n) × RowEnds (ops C.on) n cost.now start (record { x = x.now; y = y.old; v = v.old }) × C.Costs n cost.now × C.Good n cost.now y.old v.old }
    ensures { (ca_step (ops C.on) n cost.now start (record { x = x.entry.now; y = y.old; v = v.old }) ≡ record { x = x.exit.now; y = y.new; v = v.new }) × (result ≡ find_path_reads (ops C.on) n cost.now start y.old v.old) }
{
    let way = find_path_own(n, cost, start, y, v, pred);
    augment(n, pred, start, way.last, x, y);
    way.reads
}

// ca_dense where each row's search has a list of distances of its own, so 64 costs have to fit the memory.
pub fn ca_own<C: Cost>(
    n: usize,
    cost: &[C],
    count: usize,
    rows: &[usize],
    pred: &mut [usize],
    x: &mut [i64],
    y: &mut [i64],
    v: &mut [C],
) -> usize
    requires { Square n cost.now × FitsInMemory (Array C.row 64) × (length pred.old ≡ n) × Left n (record { rows = rows.now; count = count; x = x.old; y = y.old; v = v.old }) × C.Costs n cost.now × C.Good n cost.now y.old v.old }
    ensures { (ca_dense (ops C.on) n cost.now count (record { rows = rows.entry.now; count = count; x = x.entry.now; y = y.old; v = v.old }) ≡ record { x = x.exit.now; y = y.new; v = v.new }) × (result ≡ ca_reads (ops C.on) n cost.now count (record { rows = rows.entry.now; count = count; x = x.entry.now; y = y.old; v = v.old })) }
{
    let mut total = 0;
    for r in 0..count {
        let start = rows[r];
        total += ca_row_own(n, cost, start, pred, x, y, v);
    }
    total
}
