// `ccrt_dense`: column reduction, rows to columns, the rows left over.
#![tactic(auto)]

ghost use Rattle.std.specs.Prelude.{◌≡◌, true, ℕ, ◌≤◌, ◌<◌, pos, length};
ghost use Rattle.lists.specs.Lists.{tab};
ghost use Rattle.lapjv_walk.specs.Marks.{free};
ghost use Rattle.lapjv_walk.specs.Loops.{walk};
ghost use Rattle.lapjv_walk.specs.Ccrt.{reduce_row, assign_from, other_min, collect_step, ccrt_dense};
ghost use Rattle.lapjv_walk.specs.Reads.{collect_reads, ccrt_reads};
ghost use Rattle.lapjv_walk.specs.Holds.{Square, AssignOk, Marked};
ghost use Rattle.costs.specs.OpsOn.{ops};

use costs::{Cost, cost_at, reduced_cost};
use lapjv_walk::{Remaining, clear_mark, free_at, index_at, put_mark};

// No row has a column, every column's price is the start value, and its row 0.
fn clear_lists<C: Cost>(n: usize, x: &mut [i64], v: &mut [C], y: &mut [i64])
    requires { (n ≤ 64) × (length x.old ≡ n) × (length v.old ≡ n) × (length y.old ≡ n) }
    ensures { (x.new ≡ tab (λ _. free) n) × (v.new ≡ tab (λ _. C.on.large) n) × (y.new ≡ tab (λ _. pos 0) n) }
{
    for i in 0..n {
        clear_mark(x, i);
        v[i] = C::large();
        put_mark(y, i, 0);
    }
}

// Row i against the column minima.
fn reduce_row<C: Cost>(n: usize, cost: &[C], i: usize, v: &mut [C], y: &mut [i64])
    requires { Square n cost.now × (i < n) × (length v.old ≡ n) × (length y.old ≡ n) }
    ensures { reduce_row (ops C.on) n cost.now i (record { v = v.entry.now; y = y.old }) ≡ record { v = v.exit.now; y = y.new } }
{
    for j in 0..n {
        let c = cost_at(n, cost, i, j);
        let is_least = c.is_less(v[j]);
        if is_least {
            v[j] = c;
            put_mark(y, j, i);
        }
    }
}

// Each column's least cost, and its row.
fn reduce_columns<C: Cost>(n: usize, cost: &[C], v: &mut [C], y: &mut [i64])
    requires { Square n cost.now × (length v.old ≡ n) × (length y.old ≡ n) }
    ensures { walk (reduce_row (ops C.on) n cost.now) 0 n (record { v = v.entry.now; y = y.old }) ≡ record { v = v.exit.now; y = y.new } }
{
    for i in 0..n {
        reduce_row(n, cost, i, v, y);
    }
}

// Each column takes its row, from the last column to the first, where no other has.
pub fn assign_columns(n: usize, x: &mut [i64], y: &mut [i64], unique: &mut [bool])
    requires { (n ≤ 64) × AssignOk n n (record { x = x.now; y = y.old; unique = unique.old }) }
    ensures { assign_from n (record { x = x.entry.now; y = y.old; unique = unique.old }) ≡ record { x = x.exit.now; y = y.new; unique = unique.new } }
{
    for j in (0..n).rev() {
        let i = index_at(y, j);
        if free_at(x, i) {
            put_mark(x, i, j);
        } else {
            unique[i] = false;
            clear_mark(y, j);
        }
    }
}

// The least reduced cost of row i away from column j.
#[tactic(auto, using(lapjv_walk::proofs::Loops::walk_none))]
fn other_min<C: Cost>(n: usize, cost: &[C], i: usize, j: usize, v: &[C]) -> C
    requires { Square n cost.now × (i < n) × (j < n) × (length v.now ≡ n) × C.Costs n cost.now × C.Prices n v.now }
    ensures { result ≡ other_min (ops C.on) n cost.now i j v.now }
{
    let mut min = C::large();
    for k in 0..n {
        if k != j {
            let c = reduced_cost(n, cost, v, i, k);
            if c.is_less(min) {
                min = c;
            }
        }
    }
    min
}

// The free rows, in order, and how many; a row that is its column's alone lowers the column's price. The reads are those of these rows.
fn collect_free<C: Cost>(
    n: usize,
    cost: &[C],
    unique: &[bool],
    rows: &mut [usize],
    x: &[i64],
    v: &mut [C],
) -> Remaining
    requires { Square n cost.now × (length unique.now ≡ n) × (length rows.now ≡ n) × Marked n x.now × (length v.old ≡ n) × C.Costs n cost.now × ((k : ℕ) → k ≤ n → C.Prices n (walk (collect_step (ops C.on) n cost.now x.now unique.now) 0 k (record { rows = rows.now; count = 0; v = v.old })).v) }
    ensures { (walk (collect_step (ops C.on) n cost.now x.now unique.now) 0 n (record { rows = rows.entry.now; count = 0; v = v.old }) ≡ record { rows = rows.exit.now; count = result.count; v = v.new }) × (result.reads ≡ collect_reads n x.now unique.now) }
{
    let mut count = 0;
    let mut reads = 0;
    for i in 0..n {
        if free_at(x, i) {
            rows[count] = i;
            count += 1;
        } else if unique[i] {
            let j = index_at(x, i);
            let min = other_min(n, cost, i, j, v);
            v[j] = v[j].minus(min);
            reads += n - 1;
        }
    }
    Remaining { count, reads }
}

// ccrt_dense with a lent list for the rows that are their column's alone.
fn ccrt_in<C: Cost>(
    n: usize,
    cost: &[C],
    unique: &mut [bool],
    rows: &mut [usize],
    x: &mut [i64],
    v: &mut [C],
    y: &mut [i64],
) -> Remaining
    requires { Square n cost.now × C.Costs n cost.now × (unique.old ≡ tab (λ _. true) n) × (rows.old ≡ tab (λ _. 0) n) × (length x.old ≡ n) × (length v.old ≡ n) × (length y.old ≡ n) }
    ensures { (ccrt_dense (ops C.on) n cost.now ≡ record { rows = rows.exit.now; count = result.count; x = x.new; y = y.new; v = v.new }) × (result.reads ≡ ccrt_reads (ops C.on) n cost.now) }
{
    clear_lists(n, x, v, y);
    reduce_columns(n, cost, v, y);
    assign_columns(n, x, y, unique);
    let left = collect_free(n, cost, unique, rows, x, v);
    let reads = n * n + left.reads;
    Remaining {
        count: left.count,
        reads,
    }
}

// Column reduction: pairs what it can, and returns how many rows are left over and how many costs were read.
pub fn ccrt_dense<C: Cost>(
    n: usize,
    cost: &[C],
    rows: &mut [usize],
    x: &mut [i64],
    v: &mut [C],
    y: &mut [i64],
) -> Remaining
    requires { Square n cost.now × C.Costs n cost.now × (rows.old ≡ tab (λ _. 0) n) × (length x.old ≡ n) × (length v.old ≡ n) × (length y.old ≡ n) }
    ensures { (ccrt_dense (ops C.on) n cost.now ≡ record { rows = rows.exit.now; count = result.count; x = x.new; y = y.new; v = v.new }) × (result.reads ≡ ccrt_reads (ops C.on) n cost.now) }
{
    let mut unique = [true; 64];
    ccrt_in(n, cost, &mut unique[..n], rows, x, v, y)
}
