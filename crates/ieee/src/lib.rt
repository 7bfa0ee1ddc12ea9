// IEEE 754 on f32, as document 01's stand-ins ask for it: comparisons that know a NaN, the square root (by the whole roots of crate `roots`), and the arc cosine.
#![tactic(auto)]

ghost use Rattle.std.specs.Prelude.{◌≡◌, T, cond, ◌*◌, ◌^◌, ◌<◌};
ghost use Rattle.std.specs.Float.{binary32};
ghost use Rattle.std.specs.Float.Ieee.{is_nan, lt, neg, of_bits};
ghost use Rattle.lists.specs.Lists.{every};
ghost use Rattle.ieee.specs.Ops.{max_of, min_of, clamp_of, abs_of, f32, π, half_π};
ghost use Rattle.ieee.specs.Patterns.{Normalised, pattern_units};
ghost use Rattle.ieee.specs.Sqrt.{root_rounded, SquareRoot};
ghost use Rattle.ieee.specs.Acos.{coefficients, horner, is_nearest, acos_upper, acos_of};

pub const PI: f32 = 3.14159274;

pub const FRAC_PI_2: f32 = 1.57079637;

// There is nothing to do: that the constants have document 01's bits is this contract.
pub fn constants()
    ensures pi { PI ≡ π }
    ensures half_pi { FRAC_PI_2 ≡ half_π }
{}

// Whether x is a NaN.
pub fn is_nan(x: f32) -> bool
    ensures { result ≡ is_nan x }
{
    x != x
}

// The larger of two; a NaN gives way. The comparison comes first, since no NaN meets it: in this order the compiler selects instead of branching.
pub fn max(a: f32, b: f32) -> f32
    ensures { result ≡ max_of a b }
{
    if a < b {
        return b;
    }
    if is_nan(a) { b } else { a }
}

// The smaller of two; a NaN gives way.
pub fn min(a: f32, b: f32) -> f32
    ensures { result ≡ min_of a b }
{
    if b < a {
        return b;
    }
    if is_nan(a) { b } else { a }
}

// x brought into lo .. hi; a NaN passes.
pub fn clamp(x: f32, lo: f32, hi: f32) -> f32
    ensures { result ≡ clamp_of x lo hi }
{
    if x < lo {
        return lo;
    }
    if hi < x { hi } else { x }
}

// x with its sign bit cleared.
pub fn abs(x: f32) -> f32
    ensures { result ≡ abs_of x }
{
    if is_nan(x) {
        return x;
    }
    f32::from_bits(f32::to_bits(x) % 0x8000_0000)
}

// m * 2^p
#[derive(Clone, Copy)]
pub struct Scaled {
    pub m: u64,
    pub p: u64,
}

// t * 2^149 with m's leading digit at place 23.
pub fn normalised(t: u64) -> Scaled
    requires { (0 < t) × (t < 2 ^ 24) }
    ensures { Normalised (t * 2 ^ 149) result.m result.p }
{
    let mut m = t;
    let mut p: u64 = 149;
    // Stays: a number is doubled and no index counted, so a `for` would be no plainer.
    while m < 0x80_0000 {
        m = 2 * m;
        p = p - 1;
    }
    Scaled { m, p }
}

// The value of a finite pattern above zero, in units of 2^-149, times 2^149: the root of that is the value's root in units.
fn split(b: u64) -> Scaled
    requires { (0 < b) × (b < 0x7f80_0000) }
    ensures { Normalised (pattern_units binary32 b * 2 ^ 149) result.m result.p }
{
    let field = b / 0x80_0000;
    let digits = b % 0x80_0000;
    if field == 0 {
        return normalised(digits);
    }
    Scaled {
        m: 0x80_0000 + digits,
        p: field + 148,
    }
}

// The pattern of the f32 nearest to the square root of m * 2^p, in units of 2^-149: the root of m * 2^24 or m * 2^23, whichever leaves an even power of two.
fn sqrt_scaled(m: u64, p: u64) -> u64
    requires { Normalised (m * 2 ^ p) m p }
    ensures { (of_bits binary32 result ≡ root_rounded (m * 2 ^ p)) × (result < 0x7f80_0000) }
{
    let odd = p % 2;
    let q = roots::nearest_root(m * 0x80_0000 * (2 - odd), roots::root_estimate(m, odd));
    (p - 24 + odd) / 2 * 0x80_0000 + q
}

// The square root of IEEE 754.
pub fn sqrt(x: f32) -> f32
    ensures { SquareRoot x result }
{
    if is_nan(x) {
        return x;
    }
    let b = f32::to_bits(x) as u64;
    if 0x7f80_0000 <= b {
        // plus infinity or -0
        if b <= 0x8000_0000 {
            return x;
        }
        return 0.0 / 0.0;
    }
    if b < 0x80_0000 {
        if b == 0 {
            return x;
        }
    }
    let s = split(b);
    f32::from_bits(sqrt_scaled(s.m, s.p) as u32)
}

// The polynomial of Abramowitz and Stegun 4.4.46, from its last coefficient on; and that its coefficients are the nearest to the decimals and have their signs.
fn acos_polynomial(c: f32) -> f32
    ensures value { result ≡ horner c coefficients }
    ensures nearest { T (every is_nearest coefficients) }
{
    let p = -0.0012624911;
    let p = p * c + 0.0066700901;
    let p = p * c + -0.0170881256;
    let p = p * c + 0.0308918810;
    let p = p * c + -0.0501743046;
    let p = p * c + 0.0889789874;
    let p = p * c + -0.2145988016;
    p * c + 1.5707963050
}

// The arc cosine of a c that isn't below zero.
fn acos_upper(c: f32) -> f32
    ensures { result ≡ acos_upper c }
{
    sqrt(1.0 - c) * acos_polynomial(c)
}

// c or -c: the one that isn't below zero, or a NaN.
fn folded(c: f32) -> f32
    ensures { result ≡ cond (lt c (f32 0)) (neg c) c }
{
    if c < 0.0 { -c } else { c }
}

// The arc cosine by Abramowitz and Stegun 4.4.46. Both signs share the costly part, so that the compiler selects instead of branching.
pub fn acos(c: f32) -> f32
    ensures { result ≡ acos_of c }
{
    let upper = acos_upper(folded(c));
    if c < 0.0 { PI - upper } else { upper }
}
