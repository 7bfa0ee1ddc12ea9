// Which object goes to which track, as document 01's items 3 and 6 have it (assoc.rs): the definitions, and what the crates that meet them share.
// Objects are lent as five numbers each (corners and score), boxes as four, directions as two (dy, dx). Matrices are lent row after row, an object each.
#![tactic(auto)]

ghost use Rattle.std.specs.Prelude.{◌≡◌, ◌++◌, ℕ, ◌+◌, ◌-◌, ◌*◌, ◌/◌, ◌%◌, ◌≤◌, ◌<◌, ℤ, length, drop, replicate};
ghost use Rattle.std.proofs.lemmas.List.Edits.{sets};
ghost use Rattle.lists.specs.Lists.{tab};
ghost use Rattle.lapjv_walk.specs.Marks.{free};
ghost use Rattle.matching.specs.Associate.{det_at, corners_at, four_of};
ghost use Rattle.matching.specs.Cells.{entry_at};

use object::{Corners, Detection};

// ---- entries of the lent slices

pub fn corners_at(cells: &[f32], j: usize) -> Corners
    requires { j * 4 + 4 ≤ length cells.now }
    ensures { result ≡ corners_at cells.now j }
{
    let at = j * 4;
    Corners {
        x1: cells[at],
        y1: cells[at + 1],
        x2: cells[at + 2],
        y2: cells[at + 3],
    }
}

pub fn detection_at(cells: &[f32], i: usize) -> Detection
    requires { i * 5 + 5 ≤ length cells.now }
    ensures { result ≡ det_at cells.now i }
{
    let at = i * 5;
    Detection {
        x1: cells[at],
        y1: cells[at + 1],
        x2: cells[at + 2],
        y2: cells[at + 3],
        score: cells[at + 4],
    }
}

pub fn put_corners(cells: &mut [f32], j: usize, b: Corners)
    requires { (j < 64) × (4 * j + 4 ≤ length cells.old) }
    ensures { cells.new ≡ sets cells.old (4 * j) (four_of b) }
{
    let at = 4 * j;
    cells[at] = b.x1;
    cells[at + 1] = b.y1;
    cells[at + 2] = b.x2;
    cells[at + 3] = b.y2;
}

// ---- what is lent

// Objects, as five numbers each: corners and score.
#[derive(Clone, Copy)]
pub struct Detections<'a> {
    pub cells: &'a [f32],
    pub n: usize,
    pub ghost few: { n ≤ 64 },
    pub ghost fits: { n * 5 ≤ length cells.now },
}

impl<'a> Detections<'a> {
    pub fn get(self, i: usize) -> Detection
        requires { i < self.n }
        ensures { result ≡ det_at self.entry.cells.now i }
    {
        detection_at(self.cells, i)
    }
}

// Boxes, as four numbers each.
#[derive(Clone, Copy)]
pub struct Boxes<'a> {
    pub cells: &'a [f32],
    pub n: usize,
    pub ghost few: { n ≤ 64 },
    pub ghost fits: { n * 4 ≤ length cells.now },
}

impl<'a> Boxes<'a> {
    pub fn get(self, j: usize) -> Corners
        requires { j < self.n }
        ensures { result ≡ corners_at self.entry.cells.now j }
    {
        corners_at(self.cells, j)
    }
}

// Tracks as the angle term sees them: directions as two numbers each (dy, dx), and previous boxes.
#[derive(Clone, Copy)]
pub struct Motions<'a> {
    pub directions: &'a [f32],
    pub previous: Detections<'a>,
    pub ghost directed: { previous.n * 2 ≤ length directions.now },
}

// Numbers row after row: a row for each object, in it a number for each track.
#[derive(Clone, Copy)]
pub struct Grid<'a> {
    pub cells: &'a [f32],
    pub objects: usize,
    pub tracks: usize,
    pub ghost few_objects: { objects ≤ 64 },
    pub ghost few_tracks: { tracks ≤ 64 },
    pub ghost fits: { objects * tracks ≤ length cells.now },
}

impl<'a> Grid<'a> {
    // The number of object i and track j.
    pub fn at(self, i: usize, j: usize) -> f32
        requires object { i < self.objects }
        requires track { j < self.tracks }
        ensures { result ≡ entry_at self.entry.tracks self.entry.cells.now i j }
    {
        self.cells[i * self.tracks + j]
    }
}

// ---- a list filled by rule

// The first n cells by their index; cells past them stay.
pub fn fill<T: Copy, F: Fn(usize) -> T>(out: &mut [T], n: usize, value: F)
    requires room { n ≤ length out.old }
    requires called { (j : ℕ) → j < n → F.pre value j }
    ensures { (f : ℕ → T) → ((j : ℕ) (v : T) → j < n → F.post value j v → v ≡ f j) → out.new ≡ tab f n ++ drop n out.old }
{
    for j in 0..n {
        out[j] = value(j);
    }
}

// The first cells row after row, each by its row and column; cells past them stay.
pub fn fill_rows<T: Copy, F: Fn(usize, usize) -> T>(
    out: &mut [T],
    rows: usize,
    columns: usize,
    value: F,
)
    requires room { rows * columns ≤ length out.old }
    requires called { (i j : ℕ) → i < rows → j < columns → F.pre value i j }
    ensures { (f : ℕ → ℕ → T) → ((i j : ℕ) (v : T) → i < rows → j < columns → F.post value i j v → v ≡ f i j) → out.new ≡ tab (λ q. f (q / columns) (q % columns)) (rows * columns) ++ drop (rows * columns) out.old }
{
    for i in 0..rows {
        let from = i * columns;
        fill(
            &mut out[from..],
            columns,
            |j|
                requires { F.pre value i j }
                ensures { F.post value i j result }
            { value(i, j) },
        );
    }
}

// ---- marks

// For each object its track's index, or -1; cells past the objects are -1.
// Stays: no Option, since the assignment's lists, which C passes, hold such marks, and `Round` and `Paired` speak of them.
#[derive(Clone, Copy)]
pub struct Marks {
    pub at: [i64; 64],
}

// The marks of the first n objects, each by its index.
pub fn marks_by<F: Fn(usize) -> i64>(n: usize, mark: F) -> Marks
    requires few { n ≤ 64 }
    requires called { (i : ℕ) → i < n → F.pre mark i }
    ensures { (f : ℕ → ℤ) → ((i : ℕ) (m : ℤ) → i < n → F.post mark i m → m ≡ f i) → result.at ≡ tab f n ++ replicate (64 - n) free }
{
    let mut marks = unmarked();
    fill(&mut marks.at, n, mark);
    marks
}

// No object has a track.
pub fn unmarked() -> Marks
    ensures { result.at ≡ replicate 64 free }
{
    Marks { at: [-1; 64] }
}
