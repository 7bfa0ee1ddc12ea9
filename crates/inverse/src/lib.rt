// The inverse of a 4 by 4 matrix of f32, by Gauss-Jordan without row exchange: document 01's stand-in for the Rust's `try_inverse`.
#![tactic(auto)]

ghost use Rattle.std.specs.Prelude.{◌≡◌, ◌<◌};
ghost use Rattle.inverse.specs.Inverse.{beside, unusable, scaled, reduced, cleared, right_half, inverse};

use std::array;

// Four rows of the matrix beside the identity.
type Rows = [[f32; 8]; 4];

// A pivot that ends the inversion.
fn is_unusable(p: f32) -> bool
    ensures { result ≡ unusable p }
{
    p == 0.0 || p != p
}

// A row divided by its entry in column c.
fn scale(a: [f32; 8], c: usize) -> [f32; 8]
    requires { c < 8 }
    ensures { result ≡ scaled c a }
{
    let p = a[c];
    a.map(|x| x / p)
}

// A row less t times its own entry in column c.
fn reduce(a: [f32; 8], t: [f32; 8], c: usize) -> [f32; 8]
    requires { c < 8 }
    ensures { result ≡ reduced c t a }
{
    array::from_fn(|j| a[j] - t[j] * a[c])
}

// S beside the identity.
#[rattlefmt::skip]
fn beside_identity(s: [f32; 16]) -> Rows
    ensures { result ≡ beside s }
{
    [
        [s[0], s[1], s[2], s[3], 1.0, 0.0, 0.0, 0.0],
        [s[4], s[5], s[6], s[7], 0.0, 1.0, 0.0, 0.0],
        [s[8], s[9], s[10], s[11], 0.0, 0.0, 1.0, 0.0],
        [s[12], s[13], s[14], s[15], 0.0, 0.0, 0.0, 1.0],
    ]
}

// Column c cleared by the pivot in row c.
fn cleared(m: Rows, c: usize) -> Rows
    requires { c < 4 }
    ensures { result ≡ cleared c m }
{
    let t = scale(m[c], c);
    let mut out = [t; 4];
    for i in 0..4 {
        if i != c {
            out[i] = reduce(m[i], t, c);
        }
    }
    out
}

// What stands right of the first four columns.
fn right_half(m: Rows) -> [f32; 16]
    ensures { result ≡ right_half m }
{
    array::from_fn(|q| m[q / 4][4 + q % 4])
}

// The inverse by Gauss-Jordan without row exchange, if there is one.
pub fn try_inverse(s: [f32; 16]) -> Option<[f32; 16]>
    ensures { result ≡ inverse s }
{
    let mut m = beside_identity(s);
    for c in 0..4 {
        if is_unusable(m[c][c]) {
            return None;
        }
        m = cleared(m, c);
    }
    Some(right_half(m))
}
