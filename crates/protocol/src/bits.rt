// Numbers by their bit patterns.
ghost use Rattle.std.specs.Prelude.{◌≡◌, from_bits};
ghost use Rattle.std.specs.Float.{binary32, binary64};

use std::fmt;

// Stays: the f64 beside the f32 in four functions, since one form is no plainer: no trait of std has from_bits or to_bits, so one of
// the crate's would have these four bodies as its methods.

// The f32 of a bit pattern, any NaN's too.
pub fn f32_of(b: u32) -> f32
    ensures { result ≡ from_bits binary32 b }
{
    if 0x7f80_0000 < b % 0x8000_0000 {
        return 0.0 / 0.0;
    }
    f32::from_bits(b)
}

// The f64 of a bit pattern, any NaN's too.
pub fn f64_of(b: u64) -> f64
    ensures { result ≡ from_bits binary64 b }
{
    if 0x7ff0_0000_0000_0000 < b % 0x8000_0000_0000_0000 {
        return 0.0 / 0.0;
    }
    f64::from_bits(b)
}

// An f32's pattern; any NaN's is the same.
pub fn f32_bits(x: f32) -> u32 {
    if x != x {
        return 0x7FC0_0000;
    }
    f32::to_bits(x)
}

// An f64's pattern; any NaN's is the same.
pub fn f64_bits(x: f64) -> u64 {
    if x != x {
        return 0x7FF8_0000_0000_0000;
    }
    f64::to_bits(x)
}

// A number whose text is its pattern.
#[derive(Clone, Copy)]
pub struct Bits<T>(pub T);

impl fmt::Display for Bits<f32> {
    fn fmt<W: fmt::Write>(&self, f: &mut fmt::Formatter<W>) -> fmt::Result {
        let bits = f32_bits(self.0);
        write!(f, "{bits:08X}")
    }
}

impl fmt::Display for Bits<f64> {
    fn fmt<W: fmt::Write>(&self, f: &mut fmt::Formatter<W>) -> fmt::Result {
        let bits = f64_bits(self.0);
        write!(f, "{bits:016X}")
    }
}

// Patterns with blanks between them.
#[derive(Clone, Copy)]
pub struct Row<'a>(pub &'a [f32]);

impl fmt::Display for Row<'_> {
    fn fmt<W: fmt::Write>(&self, f: &mut fmt::Formatter<W>) -> fmt::Result {
        let mut blank = "";
        for x in self.0 {
            write!(f, "{blank}{}", Bits(*x))?;
            blank = " ";
        }
        Ok(())
    }
}
