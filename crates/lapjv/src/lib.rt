// The Jonker-Volgenant assignment (lapjv.rs) on f64 costs: total, one to one, and within a bound of reads for any costs.
#![tactic(auto)]

ghost use Rattle.std.specs.Prelude.{◌≡◌, length};
ghost use Rattle.lists.specs.Lists.{tab};
ghost use Rattle.lapjv_walk.specs.Lapjv.{lapjv};
ghost use Rattle.lapjv_walk.specs.Reads.{lapjv_reads};
ghost use Rattle.lapjv_walk.specs.Holds.{Square};
ghost use Rattle.costs.specs.OpsOn.{ops};
ghost use Rattle.std.specs.Mem.{FitsInMemory};
ghost use Rattle.std.specs.Borrow.{Array};
ghost use Rattle.lapjv.specs.Answer.{fits, Answer};

use costs::Cost;
use lapjv_ca::{ca_dense, ca_own};
use lapjv_carr::carr_dence;
use lapjv_ccrt::ccrt_dense;
use object::Refusal;

// lapjv on costs of n rows of n of any type, with lent lists for the free rows, the prices, the distances and the rows before columns; how many costs it read.
pub fn lapjv_in<C: Cost>(
    n: usize,
    cost: &[C],
    rows: &mut [usize],
    v: &mut [C],
    d: &mut [C],
    pred: &mut [usize],
    x: &mut [i64],
    y: &mut [i64],
) -> usize
    requires { Square n cost.now × C.Costs n cost.now × (rows.old ≡ tab (λ _. 0) n) × (length v.old ≡ n) × (length d.old ≡ n) × (length pred.old ≡ n) × (length x.old ≡ n) × (length y.old ≡ n) }
    ensures { (lapjv (ops C.on) n cost.now ≡ record { x = x.exit.now; y = y.new }) × (result ≡ lapjv_reads (ops C.on) n cost.now) }
{
    let first = ccrt_dense(n, cost, rows, x, v, y);
    let second = carr_dence(n, cost, first.count, rows, x, y, v);
    let third = carr_dence(n, cost, second.count, rows, x, y, v);
    let last = ca_dense(n, cost, third.count, rows, d, pred, x, y, v);
    first.reads + second.reads + third.reads + last
}

// lapjv_in where each search has a list of distances of its own, so 64 costs have to fit the memory.
pub fn lapjv_own<C: Cost>(
    n: usize,
    cost: &[C],
    rows: &mut [usize],
    v: &mut [C],
    pred: &mut [usize],
    x: &mut [i64],
    y: &mut [i64],
) -> usize
    requires { Square n cost.now × C.Costs n cost.now × (rows.old ≡ tab (λ _. 0) n) × (length v.old ≡ n) × FitsInMemory (Array C.row 64) × (length pred.old ≡ n) × (length x.old ≡ n) × (length y.old ≡ n) }
    ensures { (lapjv (ops C.on) n cost.now ≡ record { x = x.exit.now; y = y.new }) × (result ≡ lapjv_reads (ops C.on) n cost.now) }
{
    let first = ccrt_dense(n, cost, rows, x, v, y);
    let second = carr_dence(n, cost, first.count, rows, x, y, v);
    let third = carr_dence(n, cost, second.count, rows, x, y, v);
    let rest = ca_own(n, cost, third.count, rows, pred, x, y, v);
    first.reads + second.reads + third.reads + rest
}

// Whether n is from 1 to 64, the costs are n rows of n, and each list is n long.
pub fn sizes_fit(n: usize, costs: usize, rows: usize, columns: usize) -> bool
    ensures { result ≡ fits n costs rows columns }
{
    if n == 0 {
        return false;
    }
    if 64 < n {
        return false;
    }
    if costs != n * n {
        return false;
    }
    if rows != n {
        return false;
    }
    columns == n
}

// Pairs n rows and n columns by their costs, given row after row: x gets each row's column, and y each column's row. How many cost entries it read (document 02, 2.12).
pub fn lapjv(n: usize, cost: &[f64], x: &mut [i64], y: &mut [i64]) -> Result<usize, Refusal>
    ensures { Answer n cost.now x.old y.old result x.new y.new }
{
    if !sizes_fit(n, cost.len(), x.len(), y.len()) {
        return Err(Refusal::BadMatrix);
    }
    let mut rows = [0usize; 64];
    let mut v = [0.0f64; 64];
    let mut pred = [0usize; 64];
    let reads = lapjv_own(n, cost, &mut rows[..n], &mut v[..n], &mut pred[..n], x, y);
    Ok(reads)
}

#[cfg(test)]
mod tests {
    use super::*;
    use lapjv_path::find_path_dense;

    // Rows 0 to 3 at columns 3, 2, 0 and 1 cost 2, and each of the other 23 pairings more. A row is left over after both passes, so the lent distances are used.
    const FOUR: [f64; 16] = [
        2.0, 4.0, 1.0, 1.0, 2.0, 3.0, 0.0, 1.0, 0.0, 0.0, 0.0, 1.0, 2.0, 1.0, 0.0, 3.0,
    ];

    #[test]
    fn pairs_in_lent_lists(rt: HostRuntime) {
        let mut rows = [0usize; 4];
        let mut v = [0.0f64; 4];
        let mut d = [0.0f64; 4];
        let mut pred = [0usize; 4];
        let mut x = [0i64; 4];
        let mut y = [0i64; 4];
        lapjv_in(
            4, &FOUR, &mut rows, &mut v, &mut d, &mut pred, &mut x, &mut y,
        );
        assert_eq!(rt; x, [3, 2, 0, 1]);
        assert_eq!(rt; y, [2, 3, 1, 0]);
    }

    // By hand: rows 0, 1 and 2 at columns 1, 0 and 2 cost 5, and each other way of pairing more. After the columns' reduction row 0 is left over, and its way leads over column 1 and row 1 to column 0.
    const THREE: [f64; 9] = [4.0, 1.0, 3.0, 2.0, 0.0, 5.0, 3.0, 2.0, 2.0];

    #[test]
    fn row_left_over_in_lent_lists(rt: HostRuntime) {
        let mut rows = [0usize; 3];
        let mut v = [0.0f64; 3];
        let mut d = [0.0f64; 3];
        let mut pred = [0usize; 3];
        let mut x = [0i64; 3];
        let mut y = [0i64; 3];
        let first = ccrt_dense(3, &THREE, &mut rows, &mut x, &mut v, &mut y);
        assert_eq!(rt; x, [-1, 1, 2]);
        ca_dense(
            3,
            &THREE,
            first.count,
            &rows,
            &mut d,
            &mut pred,
            &mut x,
            &mut y,
            &mut v,
        );
        assert_eq!(rt; x, [1, 0, 2]);
        assert_eq!(rt; y, [1, 0, 2]);
    }

    #[test]
    fn way_in_lent_lists(rt: HostRuntime) {
        let mut rows = [0usize; 3];
        let mut v = [0.0f64; 3];
        let mut d = [0.0f64; 3];
        let mut pred = [0usize; 3];
        let mut x = [0i64; 3];
        let mut y = [0i64; 3];
        let first = ccrt_dense(3, &THREE, &mut rows, &mut x, &mut v, &mut y);
        assert_eq!(rt; first.count, 1);
        let way = find_path_dense(3, &THREE, rows[0], &mut d, &y, &mut v, &mut pred);
        assert_eq!(rt; way.last, 0);
        assert_eq!(rt; pred[0], 1);
        assert_eq!(rt; pred[1], 0);
    }
}
