// The Kalman filter of kalman_filter.rs (document 01, item 4): its start, predict and update. The replay of a gap is crate `gap`.
#![tactic(auto)]

ghost use Rattle.std.specs.Prelude.{◌≡◌};
ghost use Rattle.matrix.specs.Matrix.{product, transpose};
ghost use Rattle.kalman_filter.specs.Filter.{r_matrix, start_of, predict_of, inverse_or_identity, gain_of, joseph_of, update_of};

// The 7 state numbers (x, y, area, ratio, and the speeds of the first three) and their covariance, row after row.
// C and Rust pass it too, in the image of a state.
#[repr(C)]
#[derive(Clone, Copy)]
pub struct Filter {
    pub x: [f32; 7],
    pub p: [f32; 49],
}

// A measured box: centre, area, and width over height.
#[derive(Clone, Copy)]
pub struct DetectBox {
    pub x: f32,
    pub y: f32,
    pub s: f32,
    pub r: f32,
}

// The transition, row after row: x, y and the area move by their speeds.
#[rattlefmt::skip]
const F: [f32; 49] = [
    1.0, 0.0, 0.0, 0.0, 1.0, 0.0, 0.0,
    0.0, 1.0, 0.0, 0.0, 0.0, 1.0, 0.0,
    0.0, 0.0, 1.0, 0.0, 0.0, 0.0, 1.0,
    0.0, 0.0, 0.0, 1.0, 0.0, 0.0, 0.0,
    0.0, 0.0, 0.0, 0.0, 1.0, 0.0, 0.0,
    0.0, 0.0, 0.0, 0.0, 0.0, 1.0, 0.0,
    0.0, 0.0, 0.0, 0.0, 0.0, 0.0, 1.0,
];

#[rattlefmt::skip]
const F_TRANSPOSED: [f32; 49] = [
    1.0, 0.0, 0.0, 0.0, 0.0, 0.0, 0.0,
    0.0, 1.0, 0.0, 0.0, 0.0, 0.0, 0.0,
    0.0, 0.0, 1.0, 0.0, 0.0, 0.0, 0.0,
    0.0, 0.0, 0.0, 1.0, 0.0, 0.0, 0.0,
    1.0, 0.0, 0.0, 0.0, 1.0, 0.0, 0.0,
    0.0, 1.0, 0.0, 0.0, 0.0, 1.0, 0.0,
    0.0, 0.0, 1.0, 0.0, 0.0, 0.0, 1.0,
];

// What is measured: the first four state numbers.
#[rattlefmt::skip]
const H: [f32; 28] = [
    1.0, 0.0, 0.0, 0.0, 0.0, 0.0, 0.0,
    0.0, 1.0, 0.0, 0.0, 0.0, 0.0, 0.0,
    0.0, 0.0, 1.0, 0.0, 0.0, 0.0, 0.0,
    0.0, 0.0, 0.0, 1.0, 0.0, 0.0, 0.0,
];

#[rattlefmt::skip]
const H_TRANSPOSED: [f32; 28] = [
    1.0, 0.0, 0.0, 0.0,
    0.0, 1.0, 0.0, 0.0,
    0.0, 0.0, 1.0, 0.0,
    0.0, 0.0, 0.0, 1.0,
    0.0, 0.0, 0.0, 0.0,
    0.0, 0.0, 0.0, 0.0,
    0.0, 0.0, 0.0, 0.0,
];

// The measurement's noise.
#[rattlefmt::skip]
const R: [f32; 16] = [
    1.0, 0.0, 0.0, 0.0,
    0.0, 1.0, 0.0, 0.0,
    0.0, 0.0, 10.0, 0.0,
    0.0, 0.0, 0.0, 10.0,
];

// The process noise.
#[rattlefmt::skip]
const Q: [f32; 49] = [
    1.0, 0.0, 0.0, 0.0, 0.0, 0.0, 0.0,
    0.0, 1.0, 0.0, 0.0, 0.0, 0.0, 0.0,
    0.0, 0.0, 1.0, 0.0, 0.0, 0.0, 0.0,
    0.0, 0.0, 0.0, 1.0, 0.0, 0.0, 0.0,
    0.0, 0.0, 0.0, 0.0, 0.01, 0.0, 0.0,
    0.0, 0.0, 0.0, 0.0, 0.0, 0.01, 0.0,
    0.0, 0.0, 0.0, 0.0, 0.0, 0.0, 0.0001,
];

// The covariance at the first box.
#[rattlefmt::skip]
const P: [f32; 49] = [
    10.0, 0.0, 0.0, 0.0, 0.0, 0.0, 0.0,
    0.0, 10.0, 0.0, 0.0, 0.0, 0.0, 0.0,
    0.0, 0.0, 10.0, 0.0, 0.0, 0.0, 0.0,
    0.0, 0.0, 0.0, 10.0, 0.0, 0.0, 0.0,
    0.0, 0.0, 0.0, 0.0, 10000.0, 0.0, 0.0,
    0.0, 0.0, 0.0, 0.0, 0.0, 10000.0, 0.0,
    0.0, 0.0, 0.0, 0.0, 0.0, 0.0, 10000.0,
];

#[rattlefmt::skip]
const IDENTITY4: [f32; 16] = [
    1.0, 0.0, 0.0, 0.0,
    0.0, 1.0, 0.0, 0.0,
    0.0, 0.0, 1.0, 0.0,
    0.0, 0.0, 0.0, 1.0,
];

#[rattlefmt::skip]
const IDENTITY7: [f32; 49] = [
    1.0, 0.0, 0.0, 0.0, 0.0, 0.0, 0.0,
    0.0, 1.0, 0.0, 0.0, 0.0, 0.0, 0.0,
    0.0, 0.0, 1.0, 0.0, 0.0, 0.0, 0.0,
    0.0, 0.0, 0.0, 1.0, 0.0, 0.0, 0.0,
    0.0, 0.0, 0.0, 0.0, 1.0, 0.0, 0.0,
    0.0, 0.0, 0.0, 0.0, 0.0, 1.0, 0.0,
    0.0, 0.0, 0.0, 0.0, 0.0, 0.0, 1.0,
];

// A filter at its first box.
pub fn new(z: DetectBox) -> Filter
    ensures { result ≡ start_of z }
{
    Filter {
        x: [z.x, z.y, z.s, z.r, 0.0, 0.0, 0.0],
        p: P,
    }
}

// One frame ahead.
pub fn predict(f: Filter) -> Filter
    ensures { result ≡ predict_of f }
{
    let mut x = [0.0; 7];
    matrix::product::<1>(&F, &f.x, &mut x, 7, 7);
    let mut fp = [0.0; 49];
    matrix::product::<7>(&F, &f.p, &mut fp, 7, 7);
    let mut fpf = [0.0; 49];
    matrix::product::<7>(&fp, &F_TRANSPOSED, &mut fpf, 7, 7);
    let mut p = [0.0; 49];
    matrix::sum(&fpf, &Q, &mut p);
    Filter { x, p }
}

fn inverse_or_identity(s: [f32; 16]) -> [f32; 16]
    ensures { result ≡ inverse_or_identity s }
{
    inverse::try_inverse(s).unwrap_or(IDENTITY4)
}

// The gain of a measurement.
fn gain(f: Filter) -> [f32; 28]
    ensures { result ≡ gain_of f }
{
    let mut pht = [0.0; 28];
    matrix::product::<4>(&f.p, &H_TRANSPOSED, &mut pht, 7, 7);
    let mut hpht = [0.0; 16];
    matrix::product::<4>(&H, &pht, &mut hpht, 4, 7);
    let mut s = [0.0; 16];
    matrix::sum(&hpht, &R, &mut s);
    let inverse = inverse_or_identity(s);
    let mut k = [0.0; 28];
    matrix::product::<4>(&pht, &inverse, &mut k, 7, 4);
    k
}

// What the measurement's noise adds to the covariance: K R Kᵀ.
fn noise(k: [f32; 28]) -> [f32; 49]
    ensures { result ≡ product 7 4 7 (product 7 4 4 k r_matrix) (transpose 7 4 k) }
{
    let mut kr = [0.0; 28];
    matrix::product::<4>(&k, &R, &mut kr, 7, 4);
    let mut kt = [0.0; 28];
    matrix::transpose(&k, &mut kt, 7, 4);
    let mut krk = [0.0; 49];
    matrix::product::<7>(&kr, &kt, &mut krk, 7, 4);
    krk
}

// The covariance after a measurement with the gain k, in the Joseph form.
fn joseph(k: [f32; 28], p: [f32; 49]) -> [f32; 49]
    ensures { result ≡ joseph_of k p }
{
    let mut kh = [0.0; 49];
    matrix::product::<7>(&k, &H, &mut kh, 7, 4);
    let mut a = [0.0; 49];
    matrix::difference(&IDENTITY7, &kh, &mut a);
    let mut ap = [0.0; 49];
    matrix::product::<7>(&a, &p, &mut ap, 7, 7);
    let mut at = [0.0; 49];
    matrix::transpose(&a, &mut at, 7, 7);
    let mut apa = [0.0; 49];
    matrix::product::<7>(&ap, &at, &mut apa, 7, 7);
    let krk = noise(k);
    let mut p1 = [0.0; 49];
    matrix::sum(&apa, &krk, &mut p1);
    p1
}

// One measured box.
pub fn update(f: Filter, z: DetectBox) -> Filter
    ensures { result ≡ update_of z f }
{
    let mut hx = [0.0; 4];
    matrix::product::<1>(&H, &f.x, &mut hx, 4, 7);
    let mut y = [0.0; 4];
    matrix::difference(&[z.x, z.y, z.s, z.r], &hx, &mut y);
    let k = gain(f);
    let mut ky = [0.0; 7];
    matrix::product::<1>(&k, &y, &mut ky, 7, 4);
    let mut x = [0.0; 7];
    matrix::sum(&f.x, &ky, &mut x);
    let p = joseph(k, f.p);
    Filter { x, p }
}

// The filter to restore when a box comes again after a miss.
pub fn freeze(f: Filter) -> Filter
    ensures { result ≡ f }
{
    f
}
