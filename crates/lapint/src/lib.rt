// The assignment's steps (lapjv.rs) on whole costs (document 02, 2.3): total, and a cheapest pairing.
#![tactic(auto)]

ghost use Rattle.std.specs.Prelude.{◌≡◌, length};
ghost use Rattle.lapint.specs.Answer.{cost_in_range, all_in_range, WholeAnswer};

use lapjv::{lapjv_own, sizes_fit};
use object::Refusal;

// Whether the cost is from -1,000,000 to 1,000,000.
fn cost_in_range(c: i64) -> bool
    ensures { result ≡ cost_in_range c }
{
    if c < -1_000_000 {
        return false;
    }
    c <= 1_000_000
}

// Whether all costs are.
fn all_in_range(cost: &[i64]) -> bool
    ensures { result ≡ all_in_range cost.now (length cost.now) }
{
    for c in cost {
        if !cost_in_range(*c) {
            return false;
        }
    }
    true
}

// Pairs n rows and n columns by their whole costs, given row after row, at the least total: x gets each row's column, and y each column's row.
pub fn lapint(n: usize, cost: &[i64], x: &mut [i64], y: &mut [i64]) -> Result<(), Refusal>
    ensures { WholeAnswer n cost.now x.old y.old result x.new y.new }
{
    if !sizes_fit(n, cost.len(), x.len(), y.len()) {
        return Err(Refusal::BadMatrix);
    }
    if !all_in_range(cost) {
        return Err(Refusal::CostOutOfRange);
    }
    let mut rows = [0usize; 64];
    let mut v = [0i64; 64];
    let mut pred = [0usize; 64];
    lapjv_own(n, cost, &mut rows[..n], &mut v[..n], &mut pred[..n], x, y);
    Ok(())
}
