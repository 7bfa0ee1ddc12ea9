// What the assignment's steps ask of a type of costs, and that f64 and i64 have it.
#![tactic(auto)]

ghost use Rattle.std.specs.Prelude.{◌≡◌, List, ℕ, ◌<◌, ℤ, length};
ghost use Rattle.lapjv_walk.specs.Ops.{val_at, cost_at};
ghost use Rattle.lapjv_walk.specs.Holds.{Square};
ghost use Rattle.lapint_walk.specs.Holds.{Costs, Far, Good, Prices, Small};
ghost use Rattle.costs.specs.OpsOn.{OpsOn, ops};
ghost use Rattle.costs.specs.Laws.{CostLaws};
ghost use Rattle.costs.specs.Models.{floats_on, wholes_on, float_laws, whole_laws};

// Costs, prices and distances of one type, with the walk's operations on them. A sum or a difference is asked for only of small numbers.
// Stays: the tests are methods and no `<`, `<=`, `==`; those of PartialOrd go by `partial_cmp`, and each would ask for a law that ties it to the walk's own test.
pub trait Cost: Copy {
    ghost on: { OpsOn Self };

    ghost Small: { Self → Type 0 };

    // The bounds of costs, prices and distances; and that prices fit the rows that columns have.
    ghost Costs: { ℕ → List Self → Type 0 };

    ghost Prices: { ℕ → List Self → Type 0 };

    ghost Far: { ℕ → List Self → Type 0 };

    ghost Good: { ℕ → List Self → List ℤ → List Self → Type 0 };

    ghost laws: { CostLaws on Small Costs Prices Far Good };

    // The start value.
    fn large() -> Self
        ensures { result ≡ on.large };

    fn is_less(self, other: Self) -> bool
        ensures { result ≡ on.lt self other };

    fn is_at_most(self, other: Self) -> bool
        ensures { result ≡ on.le self other };

    fn is_same(self, other: Self) -> bool
        ensures { result ≡ on.eq self other };

    fn minus(self, other: Self) -> Self
        requires { Small self × Small other }
        ensures { result ≡ on.sub self other };

    // Less what `high` is above `low`.
    fn lowered(self, high: Self, low: Self) -> Self
        requires { Small self × Small high × Small low }
        ensures { result ≡ on.sub self (on.sub high low) };

    // And what `high` is above `low`.
    fn raised(self, high: Self, low: Self) -> Self
        requires { Small self × Small high × Small low }
        ensures { result ≡ on.add self (on.sub high low) };
}

impl Cost for f64 {
    ghost on = { floats_on };

    ghost Small = { λ _. Unit };

    ghost Costs = { λ _ _. Unit };

    ghost Prices = { λ _ _. Unit };

    ghost Far = { λ _ _. Unit };

    ghost Good = { λ _ _ _ _. Unit };

    ghost laws = { float_laws };

    fn large() -> f64 {
        1000000.0
    }

    fn is_less(self, other: f64) -> bool {
        self < other
    }

    fn is_at_most(self, other: f64) -> bool {
        self <= other
    }

    fn is_same(self, other: f64) -> bool {
        self == other
    }

    fn minus(self, other: f64) -> f64 {
        self - other
    }

    fn lowered(self, high: f64, low: f64) -> f64 {
        self - (high - low)
    }

    fn raised(self, high: f64, low: f64) -> f64 {
        self + (high - low)
    }
}

impl Cost for i64 {
    ghost on = { wholes_on };

    ghost Small = { Small };

    ghost Costs = { Costs };

    ghost Prices = { Prices };

    ghost Far = { Far };

    ghost Good = { Good };

    ghost laws = { whole_laws };

    fn large() -> i64 {
        1_000_000_000_000
    }

    fn is_less(self, other: i64) -> bool {
        self < other
    }

    fn is_at_most(self, other: i64) -> bool {
        self <= other
    }

    fn is_same(self, other: i64) -> bool {
        self == other
    }

    fn minus(self, other: i64) -> i64 {
        self - other
    }

    fn lowered(self, high: i64, low: i64) -> i64 {
        self - (high - low)
    }

    fn raised(self, high: i64, low: i64) -> i64 {
        self + (high - low)
    }
}

// The cost of row i at column j: the one place where costs are read.
// Stays: n and cost travel side by side; a struct of both is no plainer, since a clause then reads `t.entry.cells.now`, and no ghost field can hold `C.Costs`.
pub fn cost_at<C: Cost>(n: usize, cost: &[C], i: usize, j: usize) -> C
    requires { Square n cost.now × (i < n) × (j < n) }
    ensures { result ≡ cost_at (ops C.on) n cost.now i j }
{
    cost[i * n + j]
}

// The reduced cost of row i at column j.
pub fn reduced_cost<C: Cost>(n: usize, cost: &[C], v: &[C], i: usize, j: usize) -> C
    requires { Square n cost.now × (i < n) × (j < n) × (length v.now ≡ n) × C.Costs n cost.now × C.Prices n v.now }
    ensures { result ≡ C.on.sub (cost_at (ops C.on) n cost.now i j) (val_at (ops C.on) v.now j) }
{
    cost_at(n, cost, i, j).minus(v[j])
}
