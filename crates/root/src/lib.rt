// The square root of an f32, rounded to the nearest f32: specs/Root.antt says what that is.
//
// A guess in fixed point comes first, and nothing is proved of how near it is. `nearest` tests it against the
// radicand and mends it where it is off, so the result is right whatever the guess.
#![tactic(auto)]

ghost use Rattle.std.specs.Prelude.{T, ◌≡◌, ◌+◌, ◌*◌, ◌^◌, ◌≤◌, ◌<◌};
ghost use Rattle.root.specs.Root.{units, root_bits, is_root, root_of};

// `whole` times the fraction `share` / 2^32.
fn part(whole: u64, share: u64) -> u64
    requires { (whole < 4294967296) × (share < 4294967296) }
    ensures { result ≤ whole }
{
    whole * share >> 32
}

// About 887,548 / √v, where v is digits / 2^23 and so from 1 up to 2: a parabola, off by 1/300 at most.
fn inverse(digits: u64) -> u64
    requires { (8388608 ≤ digits) × (digits < 16777216) }
    ensures { result ≤ 884724 }
{
    let below = 20747059 - digits;
    (below * below >> 29) + 600239
}

// About the root of digits * 2^23, or of digits * 2^24 where odd is 1.
// With y for `inverse`, digits * y is that root times √t, where t is v * y * y up to constant factors, and nearly
// constant itself. 1 / √t is close to a cubic in t: a linear factor, which is in `scaled`, times `curve`, a square
// and a constant. Measured over all radicands: the guess is off for 1 in 178, and never by more than one.
fn guess(digits: u64, odd: u64) -> u64
    requires { (8388608 ≤ digits) × (digits < 16777216) × (odd < 2) }
    ensures { result < 268435456 }
{
    let y = inverse(digits);
    let raised = digits * y;
    let t = raised * y >> 32;
    let start = part(2155866804 + 892989268 * odd, raised >> 12);
    let scaled = part(start, 3886225161 - t);
    let off = (t + 3007051071) % 4294967296;
    let curve = part(off, off) + 1141243691;
    (scaled * curve + 34359738368) >> 36
}

// The whole number g nearest to √n, which lies between g - 1/2 and g + 1/2. So n lies between g * g - g and
// g * g + g: the quarter that both squares have is dropped, since n is whole. The loops mend g and count nothing, so they are no `for`.
fn nearest(n: u64, guess: u64) -> u64
    requires { (70368744177664 ≤ n) × (n ≤ 281474959933440) × (guess < 268435456) }
    ensures { (result * result < n + result) × (n ≤ result * result + result) }
{
    let square = guess * guess;
    if square < n + guess {
        if n <= square + guess {
            return guess;
        }
    }
    let mut g = guess;
    while g * g + g < n {
        g += 1;
    }
    while n + g <= g * g {
        g -= 1;
    }
    g
}

// The pattern of the root of the finite number above zero whose pattern is b.
// The number is m * 2^(a - 126) units, and m has 24 digits: a subnormal is moved up by its leading zeros.
// The root takes half of the exponent, and where a is odd the rest of it goes into the radicand.
fn pattern_of_root(b: u32) -> u32
    requires { (0 < b) × (b < 2139095040) }
    ensures { T (root_bits (units b * 2 ^ 149) 1 result) }
{
    let mut m = b;
    let mut a = 126;
    if b < 8388608 {
        let shift = u32::leading_zeros(b) - 8;
        m = b << shift;
        a = 126 - shift;
    } else {
        m = b % 8388608 + 8388608;
        a = b / 8388608 + 125;
    }
    let digits = m as u64;
    let odd = (a % 2) as u64;
    let q = nearest(digits * 8388608 << odd, guess(digits, odd));
    a / 2 * 8388608 + q as u32
}

// Plus infinity and either zero are their own roots; a number below zero and NaN have none, and give NaN.
pub fn root(x: f32) -> f32
    ensures nearest { T (is_root x result) }
    ensures worked { result ≡ root_of x }
{
    if 0.0 < x {
        let b = f32::to_bits(x);
        if 2139095040 <= b {
            return x;
        }
        return f32::from_bits(pattern_of_root(b));
    }
    if x != 0.0 {
        return 0.0 / 0.0;
    }
    x
}
