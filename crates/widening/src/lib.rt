// f32 to f64, class by class: document 02, 2.10. The classes and the fields of a pattern are those of IEEE 754-2019, 3.4.
#![tactic(auto)]

ghost use Rattle.std.specs.Prelude.{◌≡◌, ◌+◌, ◌*◌, ◌^◌, ◌≤◌, ◌<◌};
ghost use Rattle.std.specs.Float.{binary32, binary64};
ghost use Rattle.std.specs.Float.Ieee.{of_bits, to_bits};
ghost use Rattle.widening.specs.Classes.{sign_bit, biased_exponent, trailing_significand, ClassOf, ByClass};

#[derive(Clone, Copy)]
pub enum Class {
    Zero,
    Subnormal,
    Normal,
    Infinity,
    NaN,
}

// The sign S of an f32's pattern.
fn sign_bit(b: u32) -> u64
    ensures { result ≡ sign_bit binary32 b }
{
    (b / 0x8000_0000) as u64
}

// Its biased exponent E.
fn biased_exponent(b: u32) -> u64
    ensures { result ≡ biased_exponent binary32 b }
{
    (b % 0x8000_0000 / 0x80_0000) as u64
}

// Its trailing significand T.
fn trailing_significand(b: u32) -> u64
    ensures { result ≡ trailing_significand binary32 b }
{
    (b % 0x80_0000) as u64
}

// The class of an f32's pattern, NaNs' too: the one that it is in. Normal patterns and zeros, which costs mostly are, take two tests.
pub fn class_of(b: u32) -> Class
    ensures { ClassOf binary32 b result }
{
    let e = biased_exponent(b);
    let t = trailing_significand(b);
    if 0 < e {
        if e < 255 {
            return Class::Normal;
        }
        if t == 0 {
            return Class::Infinity;
        }
        return Class::NaN;
    }
    if t == 0 {
        Class::Zero
    } else {
        Class::Subnormal
    }
}

// The bits of x; a NaN's are not told, so it gets those of one NaN.
pub fn bits_of(x: f32) -> u32
    ensures { result ≡ to_bits binary32 x }
{
    if ieee::is_nan(x) {
        return 0x7fc0_0000;
    }
    f32::to_bits(x)
}

// The f64 of a sign, a biased exponent and a trailing significand; no NaN.
fn from_fields(s: u64, e: u64, t: u64) -> f64
    requires { (s < 2) × (t < 2 ^ 52) × (e * 2 ^ 52 + t ≤ 2047 * 2 ^ 52) }
    ensures { result ≡ of_bits binary64 (s * 2 ^ 63 + e * 2 ^ 52 + t) }
{
    f64::from_bits(s * 0x8000_0000_0000_0000 + e * 0x10_0000_0000_0000 + t)
}

// The f64 of the subnormal f32 with the sign s and the trailing significand t: a normal one, its leading digit brought to its place.
// The value is t * 2^-149, that is m * 2^(p - 298) with m from 2^23 to below 2^24: the exponent is p - 275, and p + 748 with the bias of 1023.
fn from_subnormal(s: u64, t: u64) -> f64
    requires { (s < 2) × (0 < t) × (t < 2 ^ 23) }
    ensures { result ≡ of_bits binary32 (s * 2 ^ 31 + t) }
{
    let n = ieee::normalised(t);
    let m = n.m;
    let p = n.p;
    from_fields(s, p + 748, (m - 0x80_0000) * 0x2000_0000)
}

// The same value as an f64, worked out from the bits. One `Float` stands for both formats, so `r ≡ x` says: the same value.
// Of a normal value the bias grows from 127 to 1023, and 29 zeros come behind the digits of its significand.
pub fn widen(x: f32) -> f64
    ensures { result ≡ x }
{
    let b = bits_of(x);
    let s = sign_bit(b);
    let e = biased_exponent(b);
    let t = trailing_significand(b);
    match class_of(b) {
        Class::Zero => from_fields(s, 0, 0),
        Class::Subnormal => from_subnormal(s, t),
        Class::Normal => from_fields(s, e + 896, t * 0x2000_0000),
        Class::Infinity => from_fields(s, 2047, 0),
        Class::NaN => 0.0 / 0.0,
    }
}

// What `widen` gives: the value, and by class the bits, in one contract. Nothing calls it.
pub fn widen_by_class(x: f32) -> f64
    ensures { ByClass x result }
{
    widen(x)
}
