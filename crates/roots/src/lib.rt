// Square roots of whole numbers, below 2^48: the whole number nearest to the root, and an estimate of it to start from. Crate `ieee` takes the root of an f32 by them.
#![tactic(auto)]

ghost use Rattle.std.specs.Prelude.{◌≡◌, ◌^◌, ◌<◌};
ghost use Rattle.roots.specs.Roots.{IsRoot, nearest_root};

// The whole part of the square root of a, by halving the range in which it lies.
fn whole_root(a: u64) -> u64
    requires { a < 2 ^ 48 }
    ensures { IsRoot a result }
{
    let mut lo: u64 = 0;
    let mut hi: u64 = 0x100_0000;
    // Stays: a range is halved and no index counted, so a `for` would be no plainer.
    while 1 < hi - lo {
        let mid = lo + (hi - lo) / 2;
        if mid * mid <= a {
            lo = mid;
        } else {
            hi = mid;
        }
    }
    lo
}

// The whole number nearest to the square root of a: twice the root against twice the halfway point, by their squares.
// They are never equal, since 4 * a is even and h * h odd.
fn nearest_root_by_halving(a: u64) -> u64
    requires { a < 2 ^ 48 }
    ensures { result ≡ nearest_root a }
{
    let q = whole_root(a);
    let h = 2 * q + 1;
    if 4 * a < h * h { q } else { q + 1 }
}

// At i 2^13 / (32 + i), rounded up. Times this and 2^-8, a number from 1 + i / 32 to 1 + (i + 1) / 32 comes to 1 or little more.
#[rattlefmt::skip]
const STEP_RECIPROCALS: [u64; 32] = [
    256, 249, 241, 235, 228, 222, 216, 211,
    205, 200, 196, 191, 187, 183, 179, 175,
    171, 168, 164, 161, 158, 155, 152, 149,
    147, 144, 142, 139, 137, 135, 133, 131,
];

// The root of what a reciprocal divided out: at i the square root of 2^8 / STEP_RECIPROCALS[i % 32], and of twice that for an i below 32, times 2^31.
#[rattlefmt::skip]
const STEP_ROOTS: [u64; 64] = [
    3037000500, 3079393385, 3130086394, 3169793094, 3218084345, 3261282040, 3306267366, 3345211787,
    3393813052, 3435973837, 3470857714, 3515994301, 3553399548, 3592024591, 3631937201, 3673210539,
    3715923725, 3748954808, 3794398344, 3829586716, 3865772592, 3903004006, 3941332297, 3980812404,
    4007801271, 4049334000, 4077750728, 4121520326, 4151495414, 4182134172, 4213461458, 4245503451,
    2147483648, 2177459945, 2213305315, 2241382192, 2275529262, 2306074646, 2337884075, 2365421939,
    2399788223, 2429600400, 2454267026, 2486183413, 2512632917, 2539944947, 2568167423, 2597352081,
    2627554864, 2650911367, 2683044799, 2707926736, 2733514014, 2759840599, 2786942794, 2814859445,
    2833943457, 2863311531, 2883405191, 2914354971, 2935550559, 2957215433, 2979367169, 3002024280,
];

// About the square root of m * 2^23, or of m * 2^24 where odd is 0, for an m of 24 digits. Its five digits after the leading one choose a factor that brings it to 1 + t, with t = u / 2^31 below 1/16;
// the root of that is near to 1 + t / 2 - t^2 * (0.12497 - 0.0604 * t), and is scaled back. All in whole numbers, since a float would wait longer. Over every m, 0.03 % of the estimates are one too high,
// and 0.6 % one too low, which costs less: so a little less than a half is added before the last division.
// Nothing is claimed of it but its range, since the squares decide.
pub fn root_estimate(m: u64, odd: u64) -> u64
    requires { (m < 2 ^ 24) × (odd < 2) }
    ensures { result < 2 ^ 25 }
{
    let i = (m / 0x4_0000 % 32) as usize;
    let u = m * STEP_RECIPROCALS[i] % 0x800_0000;
    let square = u * u / 0x8000_0000;
    let bend = (281410109672014 - 63332 * u) / 0x10_0000;
    let root = 2147483646 + u / 2 - square * bend / 0x8000_0000;
    (STEP_ROOTS[odd as usize * 32 + i] * root + 0x3f_0000_0000) / 0x80_0000_0000
}

// The whole number nearest to the square root of a: the estimate e or the next one, if the root lies between the halfway points beside it. The squares of those beside e are e^2 - e and e^2 + e, and a quarter.
pub fn nearest_root(a: u64, e: u64) -> u64
    requires { (a < 2 ^ 48) × (e < 2 ^ 25) }
    ensures { result ≡ nearest_root a }
{
    let square = e * e;
    if square < a + e {
        if a <= square + e {
            return e;
        }
        // one too low
        if a <= square + 3 * e + 2 {
            return e + 1;
        }
    }
    nearest_root_by_halving(a)
}
