// `carr_dence`: augmenting row reduction.
#![tactic(auto)]

ghost use Rattle.std.specs.Prelude.{◌≡◌, [], ℕ, ◌+◌, ◌≤◌, ◌<◌, length};
ghost use Rattle.lapjv_walk.specs.Marks.{mark_of, num_at};
ghost use Rattle.lapjv_walk.specs.Carr.{two, carr_seat, carr_step, carr_dence};
ghost use Rattle.lapjv_walk.specs.Reads.{carr_reads};
ghost use Rattle.lapjv_walk.specs.Holds.{Square, Marked, Left};
ghost use Rattle.costs.specs.OpsOn.{ops};

use costs::{Cost, reduced_cost};
use lapjv_walk::{Remaining, free_at, index_at, put_mark};

// The two best columns of a row, the second where there is one, and their reduced costs.
#[derive(Clone, Copy)]
pub struct Best<C> {
    pub j1: usize,
    pub j2: Option<usize>,
    pub v1: C,
    pub v2: C,
}

// The two columns of least reduced cost in row i.
fn two_best<C: Cost>(n: usize, cost: &[C], i: usize, v: &[C]) -> Best<C>
    requires { Square n cost.now × (i < n) × (length v.now ≡ n) × C.Costs n cost.now × C.Prices n v.now }
    ensures { two (ops C.on) n cost.now i v.now ≡ record { j1 = result.j1; j2 = mark_of result.j2; v1 = result.v1; v2 = result.v2 } }
{
    let mut j1 = 0;
    let mut j2 = None;
    let mut v1 = reduced_cost(n, cost, v, i, 0);
    let mut v2 = C::large();
    for j in 1..n {
        let c = reduced_cost(n, cost, v, i, j);
        if c.is_less(v2) {
            let comes_second = v1.is_at_most(c);
            if comes_second {
                v2 = c;
                j2 = Some(j);
            } else {
                v2 = v1;
                v1 = c;
                j2 = Some(j1);
                j1 = j;
            }
        }
    }
    Best { j1, j2, v1, v2 }
}

// carr_dence's places in the rows: the next to reach, and the end of those kept.
#[derive(Clone, Copy)]
pub struct Turn {
    pub current: usize,
    pub fresh: usize,
}

// Row i takes column j; the row that had it comes next if `again`, else it is kept. Of prices it reads and writes none: its contract is `carr_seat` without any.
pub fn seat(
    n: usize,
    i: usize,
    j: usize,
    again: bool,
    turn: Turn,
    rows: &mut [usize],
    x: &mut [i64],
    y: &mut [i64],
) -> Turn
    requires { (n ≤ 64) × (i < n) × (j < n) × (turn.current < n) × (turn.fresh < n) × (length rows.old ≡ n) × (length x.old ≡ n) × Marked n y.old }
    ensures { (t : ℕ) → carr_seat {C = Unit} i j again [] (record { rows = rows.entry.now; current = turn.current; fresh = turn.fresh; turn = t; x = x.old; y = y.old; v = [] }) ≡ record { rows = rows.exit.now; current = result.current; fresh = result.fresh; turn = t + 1; x = x.new; y = y.new; v = [] } }
{
    let current = turn.current;
    let fresh = turn.fresh;
    put_mark(x, i, j);
    if free_at(y, j) {
        put_mark(y, j, i);
        return Turn {
            current: current + 1,
            fresh,
        };
    }
    let out = index_at(y, j);
    put_mark(y, j, i);
    if again {
        rows[current] = out;
        return Turn { current, fresh };
    }
    rows[fresh] = out;
    Turn {
        current: current + 1,
        fresh: fresh + 1,
    }
}

// One turn: row rows[current] takes its best column, or its second best.
fn carr_turn<C: Cost>(
    n: usize,
    cost: &[C],
    turn: Turn,
    round: usize,
    rows: &mut [usize],
    x: &mut [i64],
    y: &mut [i64],
    v: &mut [C],
) -> Turn
    requires { Square n cost.now × (turn.current < n) × (turn.fresh < n) × (num_at rows.old turn.current < n) × (length rows.old ≡ n) × (length x.old ≡ n) × Marked n y.old × (length v.old ≡ n) × C.Costs n cost.now × C.Prices n v.old }
    ensures { (t : ℕ) → t + 1 ≡ round → carr_step (ops C.on) n cost.now (record { rows = rows.entry.now; current = turn.current; fresh = turn.fresh; turn = t; x = x.old; y = y.old; v = v.old }) ≡ record { rows = rows.exit.now; current = result.current; fresh = result.fresh; turn = round; x = x.new; y = y.new; v = v.new } }
{
    let current = turn.current;
    let i = rows[current];
    let best = two_best(n, cost, i, v);
    let j1 = best.j1;
    let old = v[j1];
    let lower = old.lowered(best.v2, best.v1);
    if round < (current + 1) * n {
        if lower.is_less(old) {
            v[j1] = lower;
            return seat(n, i, j1, true, turn, rows, x, y);
        }
        if !free_at(y, j1) {
            if let Some(j) = best.j2 {
                return seat(n, i, j, false, turn, rows, x, y);
            }
        }
    }
    seat(n, i, j1, false, turn, rows, x, y)
}

// Augmenting row reduction over the rows that are left; how many it leaves, and how many costs it read: n in each turn.
pub fn carr_dence<C: Cost>(
    n: usize,
    cost: &[C],
    count: usize,
    rows: &mut [usize],
    x: &mut [i64],
    y: &mut [i64],
    v: &mut [C],
) -> Remaining
    requires { Square n cost.now × Left n (record { rows = rows.now; count = count; x = x.old; y = y.old; v = v.old }) × C.Costs n cost.now × C.Good n cost.now y.old v.old }
    ensures { (carr_dence (ops C.on) n cost.now (record { rows = rows.entry.now; count = count; x = x.old; y = y.old; v = v.old }) ≡ record { rows = rows.exit.now; count = result.count; x = x.new; y = y.new; v = v.new }) × (result.reads ≡ carr_reads (ops C.on) n cost.now (record { rows = rows.entry.now; count = count; x = x.old; y = y.old; v = v.old })) }
{
    let mut current = 0;
    let mut fresh = 0;
    let mut turn = 0;
    // Stays: no range counts this loop, since a turn may stay at `current`.
    while current < count {
        turn += 1;
        let t = carr_turn(n, cost, Turn { current, fresh }, turn, rows, x, y, v);
        current = t.current;
        fresh = t.fresh;
    }
    let reads = turn * n;
    Remaining {
        count: fresh,
        reads,
    }
}
