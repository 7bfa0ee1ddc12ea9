// `find_path_dense` with `find_dense`: the shortest way from a free row to a free column.
#![tactic(auto)]

ghost use Rattle.std.specs.Prelude.{◌≡◌, ℕ, ◌≤◌, ◌<◌, pos, length};
ghost use Rattle.lapjv_walk.specs.Marks.{free, mark_of};
ghost use Rattle.lapjv_walk.specs.Path.{find_dense, last_free, search_from, search_turn, search_path, raise, find_path_dense};
ghost use Rattle.lapjv_walk.specs.Reads.{search_turn_reads, search_reads, find_path_reads};
ghost use Rattle.lapjv_walk.specs.Holds.{Square, Apart, Marked, Held, Room};
ghost use Rattle.costs.specs.OpsOn.{ops};
ghost use Rattle.std.specs.Mem.{FitsInMemory};
ghost use Rattle.std.specs.Borrow.{Array};

use costs::{Cost, reduced_cost};
use lapjv_scan::{Scanned, scan_dense};
use lapjv_walk::free_at;

// Brings the columns at the least distance to lo and behind it, and returns their end.
fn find_dense<C: Cost>(n: usize, lo: usize, d: &[C], cols: &mut [usize]) -> usize
    requires { (lo < n) × (length d.now ≡ n) × Apart n cols.old }
    ensures { (result ≡ (find_dense (ops C.on) n lo d.now cols.old).hi) × (cols.new ≡ (find_dense (ops C.on) n lo d.now cols.old).cols) }
{
    let mut hi = lo + 1;
    let mut mind = d[cols[lo]];
    for k in lo + 1..n {
        let j = cols[k];
        let dj = d[j];
        let joins = dj.is_at_most(mind);
        if joins {
            if dj.is_less(mind) {
                hi = lo;
                mind = dj;
            }
            cols[k] = cols[hi];
            cols[hi] = j;
            hi += 1;
        }
    }
    hi
}

// The distances from row start, all columns in order, and the row before each.
fn search_from<C: Cost>(
    n: usize,
    cost: &[C],
    start: usize,
    v: &[C],
    d: &mut [C],
    cols: &mut [usize],
    pred: &mut [usize],
)
    requires { Square n cost.now × (start < n) × (length v.now ≡ n) × (length d.old ≡ n) × (length cols.old ≡ n) × (length pred.old ≡ n) × C.Costs n cost.now × C.Prices n v.now }
    ensures { search_from (ops C.on) n cost.now start v.now ≡ record { lo = 0; hi = 0; d = d.new; cols = cols.new; pred = pred.new; found = free } }
{
    for j in 0..n {
        cols[j] = j;
        pred[j] = start;
        d[j] = reduced_cost(n, cost, v, start, j);
    }
}

// The last free column among those from lo up to hi.
pub fn last_free(n: usize, lo: usize, hi: usize, cols: &[usize], y: &[i64]) -> Option<usize>
    requires { (n ≤ 64) × (lo ≤ hi) × (hi ≤ n) × Apart n cols.now × (length y.now ≡ n) }
    ensures { mark_of result ≡ last_free y.now cols.now lo hi }
{
    let mut found = None;
    for k in lo..hi {
        let j = cols[k];
        if free_at(y, j) {
            found = Some(j);
        }
    }
    found
}

// The columns at the least distance, and a scan of them where none is free.
fn search_turn<C: Cost>(
    n: usize,
    cost: &[C],
    lo: usize,
    d: &mut [C],
    cols: &mut [usize],
    pred: &mut [usize],
    y: &[i64],
    v: &[C],
) -> Scanned
    requires { Square n cost.now × Marked n y.now × (length v.now ≡ n) × (lo < n) × Held n y.now (record { lo = lo; hi = lo; d = d.old; cols = cols.old; pred = pred.old; found = free }) × C.Costs n cost.now × C.Good n cost.now y.now v.now × C.Far n d.old }
    ensures { (hi : ℕ) → (search_turn (ops C.on) n cost.now y.now v.now (record { lo = lo; hi = hi; d = d.old; cols = cols.old; pred = pred.old; found = free }) ≡ record { lo = result.lo; hi = result.hi; d = d.new; cols = cols.new; pred = pred.new; found = mark_of result.found }) × (result.reads ≡ search_turn_reads (ops C.on) n cost.now y.now v.now (record { lo = lo; hi = hi; d = d.old; cols = cols.old; pred = pred.old; found = free })) }
{
    let hi = find_dense(n, lo, d, cols);
    match last_free(n, lo, hi, cols, y) {
        Some(j) => Scanned {
            lo,
            hi,
            found: Some(j),
            reads: 0,
        },
        None => scan_dense(n, cost, lo, hi, d, cols, pred, y, v),
    }
}

// Where a search ended, the free column that it found, and the costs read.
#[derive(Clone, Copy)]
pub struct Reached {
    pub lo: usize,
    pub hi: usize,
    pub last: usize,
    pub reads: usize,
}

// Goes on from the nearest columns until a free one is found.
fn search_path<C: Cost>(
    n: usize,
    cost: &[C],
    start: usize,
    d: &mut [C],
    cols: &mut [usize],
    pred: &mut [usize],
    y: &[i64],
    v: &[C],
) -> Reached
    requires { Square n cost.now × Marked n y.now × Room n y.now × (length v.now ≡ n) × (search_from (ops C.on) n cost.now start v.now ≡ record { lo = 0; hi = 0; d = d.old; cols = cols.old; pred = pred.old; found = free }) × C.Costs n cost.now × C.Good n cost.now y.now v.now × C.Far n d.old }
    ensures { (search_path (ops C.on) n cost.now start y.now v.now ≡ record { lo = result.lo; hi = result.hi; d = d.new; cols = cols.new; pred = pred.new; found = pos result.last }) × (result.reads ≡ search_reads (ops C.on) n cost.now start y.now v.now) }
{
    let mut lo = 0;
    let mut reads = 0;
    loop {
        let s = search_turn(n, cost, lo, d, cols, pred, y, v);
        reads += s.reads;
        if let Some(last) = s.found {
            return Reached {
                lo: s.lo,
                hi: s.hi,
                last,
                reads,
            };
        }
        lo = s.lo;
    }
}

// Changes the prices of the columns before lo by their distance less the least distance.
fn raise_prices<C: Cost>(n: usize, lo: usize, d: &[C], cols: &[usize], v: &mut [C])
    requires { (n ≤ 64) × (lo < n) × (length d.now ≡ n) × Apart n cols.now × (length v.old ≡ n) × C.Prices n v.old × C.Far n d.now }
    ensures { v.new ≡ raise (ops C.on) lo d.now cols.now v.old }
{
    let mind = d[cols[lo]];
    for k in 0..lo {
        let j = cols[k];
        v[j] = v[j].raised(d[j], mind);
    }
}

// The free column at the end of a way, and the costs read to find it.
#[derive(Clone, Copy)]
pub struct Way {
    pub last: usize,
    pub reads: usize,
}

// find_path_dense with a lent list for the columns.
fn find_path_in<C: Cost>(
    n: usize,
    cost: &[C],
    start: usize,
    d: &mut [C],
    cols: &mut [usize],
    y: &[i64],
    v: &mut [C],
    pred: &mut [usize],
) -> Way
    requires { Square n cost.now × (start < n) × (length d.old ≡ n) × (length cols.old ≡ n) × Marked n y.now × Room n y.now × (length v.old ≡ n) × (length pred.old ≡ n) × C.Costs n cost.now × C.Good n cost.now y.now v.old }
    ensures { (find_path_dense (ops C.on) n cost.now start y.now v.old ≡ record { pred = pred.exit.now; last = pos result.last; v = v.new }) × (result.reads ≡ find_path_reads (ops C.on) n cost.now start y.now v.old) }
{
    search_from(n, cost, start, v, d, cols, pred);
    let s = search_path(n, cost, start, d, cols, pred, y, v);
    raise_prices(n, s.lo, d, cols, v);
    let reads = n + s.reads;
    Way {
        last: s.last,
        reads,
    }
}

// The free column at the end of the shortest way from row start, and the costs read; pred gets the row before each column, and v the new prices.
// d is lent, so a type of any size will do.
pub fn find_path_dense<C: Cost>(
    n: usize,
    cost: &[C],
    start: usize,
    d: &mut [C],
    y: &[i64],
    v: &mut [C],
    pred: &mut [usize],
) -> Way
    requires { Square n cost.now × (start < n) × (length d.old ≡ n) × Marked n y.now × Room n y.now × (length v.old ≡ n) × (length pred.old ≡ n) × C.Costs n cost.now × C.Good n cost.now y.now v.old }
    ensures { (find_path_dense (ops C.on) n cost.now start y.now v.old ≡ record { pred = pred.exit.now; last = pos result.last; v = v.new }) × (result.reads ≡ find_path_reads (ops C.on) n cost.now start y.now v.old) }
{
    let mut cols = [0usize; 64];
    find_path_in(n, cost, start, d, &mut cols[..n], y, v, pred)
}

// find_path_dense with a list of distances of its own.
// That 64 costs of type C fit the memory is asked for, since of a type that isn't known it can't be proved; of f64 and i64 the check sees it.
pub fn find_path_own<C: Cost>(
    n: usize,
    cost: &[C],
    start: usize,
    y: &[i64],
    v: &mut [C],
    pred: &mut [usize],
) -> Way
    requires { Square n cost.now × (start < n) × FitsInMemory (Array C.row 64) × Marked n y.now × Room n y.now × (length v.old ≡ n) × (length pred.old ≡ n) × C.Costs n cost.now × C.Good n cost.now y.now v.old }
    ensures { (find_path_dense (ops C.on) n cost.now start y.now v.old ≡ record { pred = pred.exit.now; last = pos result.last; v = v.new }) × (result.reads ≡ find_path_reads (ops C.on) n cost.now start y.now v.old) }
{
    let mut d = [C::large(); 64];
    let mut cols = [0usize; 64];
    find_path_in(n, cost, start, &mut d[..n], &mut cols[..n], y, v, pred)
}
