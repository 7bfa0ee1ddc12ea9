// The lines whose answer is one number.
use protocol::{Bits, Fault, Words};

// What a function makes of a line's one number.
pub fn of_one<F: Fn(f32) -> f32>(words: Words<'_>, f: F) -> Result<Bits<f32>, Fault>
    requires { F.IsAlwaysCallable f }
{
    let [x] = words.all::<1>()?;
    Ok(Bits(f(x)))
}

// What a function makes of a line's two numbers.
pub fn of_two<F: Fn(f32, f32) -> f32>(words: Words<'_>, f: F) -> Result<Bits<f32>, Fault>
    requires { F.IsAlwaysCallable f }
{
    let [a, b] = words.all::<2>()?;
    Ok(Bits(f(a, b)))
}

// A line's one number as an f64.
pub fn widened(words: Words<'_>) -> Result<Bits<f64>, Fault> {
    let [x] = words.all::<1>()?;
    Ok(Bits(widening::widen(x)))
}
