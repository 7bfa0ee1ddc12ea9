// Whole numbers as the words of the comparison's lines say them: digits, at most so many, and nothing else.
#![tactic(auto)]

ghost use Rattle.std.specs.Prelude.{◌≡◌, ◌<◌, ◌≤◌, length, IfSome};

// The value of a digit, of an upper-case letter above 9.
fn digit(b: u8) -> Option<u64>
    ensures { IfSome result (λ d. d < 16) }
{
    match b {
        b'0'..=b'9' => Some((b - b'0') as u64),
        b'A'..=b'F' => Some((b - b'A' + 10) as u64),
        _ => None,
    }
}

// The number that digits of a base say, if 64 bits hold it.
fn number(digits: &[u8], base: u64) -> Option<u64> {
    digits.iter().try_fold(0u64, |n, b| {
        let d = digit(*b).filter(|d| *d < base)?;
        n.checked_mul(base)?.checked_add(d)
    })
}

// The number of just so many hexadecimal digits.
pub fn hex(word: &[u8], count: usize) -> Option<u64>
    ensures { IfSome result (λ n. length word.now ≡ count) }
{
    if word.len() == count {
        number(word, 16)
    } else {
        None
    }
}

// The number of decimal digits, one at least and at most so many.
fn decimal(word: &[u8], most: usize) -> Option<u64>
    ensures { IfSome result (λ n. (0 < length word.now) × (length word.now ≤ most)) }
{
    if word.is_empty() || most < word.len() {
        None
    } else {
        number(word, 10)
    }
}

// The number below 2^32 of at most 11 decimal digits.
pub fn whole(word: &[u8]) -> Option<u32>
    ensures { IfSome result (λ n. (0 < length word.now) × (length word.now ≤ 11)) }
{
    u32::try_from(decimal(word, 11)?).ok()
}

// The number from -2^63 to 2^63 - 1 of at most 19 decimal digits, behind a minus where it is negative.
pub fn signed(word: &[u8]) -> Option<i64>
    ensures { IfSome result (λ n. (0 < length word.now) × (length word.now ≤ 20)) }
{
    match word.strip_prefix(b"-") {
        Some(size) => 0i64.checked_sub_unsigned(decimal(size, 19)?),
        None => i64::try_from(decimal(word, 19)?).ok(),
    }
}
