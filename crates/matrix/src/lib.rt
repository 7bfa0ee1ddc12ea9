// Matrices of f32 on lent slices, row after row: product, sum, difference and transpose, the stand-ins of document 01 for the Rust's matrices. The inverse is crate `inverse`.
#![tactic(auto)]

ghost use Rattle.std.specs.Prelude.{◌≡◌, ℕ, ◌+◌, ◌*◌, ◌≤◌, ◌<◌, Float, length, get_or};
ghost use Rattle.std.specs.Float.{nan};
ghost use Rattle.lists.specs.Lists.{tab};
ghost use Rattle.matrix.specs.Matrix.{entry_of, product, sum, difference, transpose, Fit};

// Each number anew, by its place and by what it was.
fn set_each<F: Fn(usize, f32) -> f32>(out: &mut [f32], f: F)
    requires { (j : ℕ) (x : Float) → j < length out.old → F.pre f j x }
    ensures { (j : ℕ) → j < length out.old → F.post f j (get_or out.old j nan) (get_or out.new j nan) }
{
    for (j, x) in out.iter_mut().enumerate() {
        *x = f(j, *x);
    }
}

// Row i of the product of a, with k columns, and b, k by M: gathered term by term, in an array, so that it stays in registers.
fn row<const M: usize>(a: &[f32], b: &[f32], k: usize, i: usize) -> [f32; M]
    requires { (0 < k) × ((i * k + k ≤ length a.now) × (length b.now ≡ k * M)) }
    ensures { result ≡ tab (entry_of k M a.now b.now i) M }
{
    let s = a[i * k];
    let mut row = [0.0; M];
    set_each(&mut row, |j, _| s * b[j]);
    for l in 1..k {
        let s = a[i * k + l];
        let part = &b[l * M..(l + 1) * M];
        set_each(&mut row, |j, x| x + s * part[j]);
    }
    row
}

// The product of a, n by k, and b, k by M.
pub fn product<const M: usize>(a: &[f32], b: &[f32], out: &mut [f32], n: usize, k: usize)
    requires { Fit n k M a.now b.now out.old }
    ensures { out.new ≡ product n k M a.now b.now }
{
    for i in 0..n {
        let row = row::<M>(a, b, k, i);
        out[i * M..(i + 1) * M].copy_from_slice(&row);
    }
}

// The sum of two matrices of one size.
pub fn sum(a: &[f32], b: &[f32], out: &mut [f32])
    requires { (length a.now ≡ length out.old) × (length b.now ≡ length out.old) }
    ensures { out.new ≡ sum (length out.old) a.now b.now }
{
    set_each(out, |q, _| a[q] + b[q]);
}

// The difference of two matrices of one size.
pub fn difference(a: &[f32], b: &[f32], out: &mut [f32])
    requires { (length a.now ≡ length out.old) × (length b.now ≡ length out.old) }
    ensures { out.new ≡ difference (length out.old) a.now b.now }
{
    set_each(out, |q, _| a[q] - b[q]);
}

// a, n by m, transposed.
pub fn transpose(a: &[f32], out: &mut [f32], n: usize, m: usize)
    requires { (0 < n) × ((length a.now ≡ n * m) × (length out.old ≡ m * n)) }
    ensures { out.new ≡ transpose n m a.now }
{
    for j in 0..m {
        set_each(&mut out[j * n..(j + 1) * n], |i, _| a[i * m + j]);
    }
}
