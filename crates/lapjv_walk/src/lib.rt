// The assignment's walk, as definitions and laws (specs/, proofs/); and the marks that its steps read, for the crates of its phases.
// Stays: a mark is an i64, -1 for none, since C hands over and reads the lists of marks.
#![tactic(auto)]

ghost use Rattle.std.specs.Prelude.{◌≡◌, false, ◌<◌, pos, length, set};
ghost use Rattle.lapjv_walk.specs.Marks.{free, is_free, index, mark_at};

// What a step leaves: so many rows without a column; and how many costs it read (document 02, 2.12).
#[derive(Clone, Copy)]
pub struct Remaining {
    pub count: usize,
    pub reads: usize,
}

// Whether a mark is free.
pub fn is_free(m: i64) -> bool
    ensures { result ≡ is_free m }
{
    m < 0
}

// The index that a mark is.
pub fn index_of(m: i64) -> usize
    requires { is_free m ≡ false }
    ensures { result ≡ index m }
{
    m as usize
}

// The mark of an index.
pub fn mark(i: usize) -> i64
    requires { i < 64 }
    ensures { result ≡ pos i }
{
    i as i64
}

// Whether the mark at j is free.
pub fn free_at(y: &[i64], j: usize) -> bool
    requires { (j < length y.now) × (j < 64) }
    ensures { result ≡ is_free (mark_at y.now j) }
{
    is_free(y[j])
}

// The index that the mark at j is.
pub fn index_at(y: &[i64], j: usize) -> usize
    requires { (j < length y.now) × (j < 64) × (is_free (mark_at y.now j) ≡ false) }
    ensures { result ≡ index (mark_at y.now j) }
{
    index_of(y[j])
}

// Puts the mark of i at j.
pub fn put_mark(y: &mut [i64], j: usize, i: usize)
    requires { (j < length y.old) × (j < 64) × (i < 64) }
    ensures { y.new ≡ set y.old j (pos i) }
{
    y[j] = mark(i);
}

// Frees the mark at j.
pub fn clear_mark(y: &mut [i64], j: usize)
    requires { (j < length y.old) × (j < 64) }
    ensures { y.new ≡ set y.old j free }
{
    y[j] = -1;
}
