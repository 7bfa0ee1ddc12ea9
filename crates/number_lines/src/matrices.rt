// The lines on matrices.
ghost use Rattle.std.specs.Prelude.{◌≡◌, ◌*◌, ◌<◌, length, OnErr};
ghost use Rattle.matrix.specs.Matrix.{Fit};

use protocol::{Buffer, Fault, Row, Words};

// `inverse` and a 4 by 4 matrix.
pub fn inverse(words: Words<'_>, out: &mut Buffer<'_>) -> Result<(), Fault>
    ensures { OnErr result (out.new ≡ out.old) }
{
    match inverse::try_inverse(words.all::<16>()?) {
        Some(entries) => out.put_line(Row(&entries)),
        None => out.put_line("none"),
    }
    Ok(())
}

// n * k, for sizes below 8.
fn times(n: usize, k: usize) -> usize
    requires { (n < 8) × (k < 8) }
    ensures { (result ≡ n * k) × (result < 50) }
{
    n * k
}

// `product N K M` and the numbers of both matrices, of an N by K and a K by M one. Of the answer to no rows a 0 is put.
pub fn product(mut words: Words<'_>, out: &mut Buffer<'_>) -> Result<(), Fault>
    ensures { OnErr result (out.new ≡ out.old) }
{
    let n = words.size(7)?;
    let k = words.size(7)?;
    let m = words.size(7)?;
    let mut numbers = [0.0f32; 98];
    let count = words.fill(&mut numbers)?;
    if count != times(n, k) + times(k, m) {
        return Err(Fault::BadNumbers);
    }
    let mut entries = [0.0f32; 49];
    multiply(&numbers, &mut entries, n, k, m)?;
    let count = times(n, m).max(1);
    out.put_line(Row(&entries[..count]));
    Ok(())
}

// Puts the product of the first n by k numbers and the k by m behind them at the start of `into`, if there is one.
fn multiply(numbers: &[f32], into: &mut [f32], n: usize, k: usize, m: usize) -> Result<(), Fault>
    requires { (n < 8) × (k < 8) × (m < 8) × (length numbers.now ≡ 98) × (length into.old ≡ 49) }
{
    let left = times(n, k);
    let all = left + times(k, m);
    let room = times(n, m);
    if k == 0 {
        return Err(Fault::BadNumbers);
    }
    if m == 0 {
        return Err(Fault::BadNumbers);
    }
    by_width(
        &numbers[..left],
        &numbers[left..all],
        &mut into[..room],
        n,
        k,
        m,
    )
}

// The product by the function of its width.
fn by_width(
    a: &[f32],
    b: &[f32],
    into: &mut [f32],
    n: usize,
    k: usize,
    m: usize,
) -> Result<(), Fault>
    requires { Fit n k m a.now b.now into.old }
{
    match m {
        1 => matrix::product::<1>(a, b, into, n, k),
        4 => matrix::product::<4>(a, b, into, n, k),
        7 => matrix::product::<7>(a, b, into, n, k),
        _ => return Err(Fault::BadNumbers),
    }
    Ok(())
}
