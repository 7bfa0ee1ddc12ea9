// How often the shortcut of `match_or_lapjv` runs: document 02, 2.14.
#![tactic(auto)]

ghost use Rattle.std.specs.Prelude.{◌≡◌, ◌+◌, ◌*◌, ◌^◌, ◌<◌, ◌≤◌};
ghost use Rattle.shortcut_counts.specs.Counted.{is_small, Counted, EachOnce, AllSizes};
ghost use Rattle.shortcut_counts.specs.Placements.{placements};

// Of all patterns of a size, those that take the shortcut and those that go to the assignment.
#[repr(C)]
#[derive(Clone, Copy)]
pub struct Tally {
    pub shortcut: u64,
    pub assignment: u64,
}

// Whether the size is 1 to 4 rows by 1 to 4 columns.
fn is_small(rows: u64, columns: u64) -> bool
    ensures { result ≡ is_small rows columns }
{
    (0 < rows) & (rows < 5) & ((0 < columns) & (columns < 5))
}

fn power_of_two(k: u64) -> u64
    requires { k < 64 }
    ensures { result ≡ 2 ^ k }
{
    1 << k
}

// In how many ways the rows that remain can be chosen: the next row has no overlap above the threshold, or one, in a column that the mask
// doesn't have. Every row adds at most 8 to the mask.
fn count_placements(rows: u64, columns: u64, mask: u64) -> u64
    requires { (rows < 5) × ((columns < 5) × (mask + 8 * rows ≤ 32)) }
    ensures { result ≡ placements rows columns mask }
{
    if rows == 0 {
        return 1;
    }
    let mut n = count_placements(rows - 1, columns, mask);
    for column in 0..columns {
        let bit = power_of_two(column);
        if mask / bit % 2 == 0 {
            n += count_placements(rows - 1, columns, mask + bit);
        }
    }
    n
}

// Both figures for 1 to 4 rows by 1 to 4 columns; for any other size 0 and 0.
pub fn shortcuts(rows: u64, columns: u64) -> Tally
    ensures { Counted rows columns result.shortcut result.assignment }
{
    if is_small(rows, columns) {
        // all placements but the empty one, which goes to the assignment
        let shortcut = count_placements(rows, columns, 0) - 1;
        let assignment = power_of_two(rows * columns) - shortcut;
        return Tally {
            shortcut,
            assignment,
        };
    }
    Tally {
        shortcut: 0,
        assignment: 0,
    }
}

// Does nothing, and ensures that each pattern is counted once.
pub fn each_pattern_once()
    ensures { EachOnce }
{}

// Does nothing, and ensures the figures of all 16 sizes.
pub fn all_sizes()
    ensures { AllSizes }
{}
