// The f64 methods that the date functions use: sign, whole part, floor and remainder worked out from sign, exponent and fraction bits, the others
// by the language's own. Each contract holds for every f64: NaN, infinities, -0 and subnormals too. The definitions are in specs/, and the laws of whole numbers in f64 in proofs/.
#![tactic(auto)]

ghost use Rattle.std.specs.Prelude.{◌≡◌, ℕ, IsTrue, ◌+◌, ◌-◌, ◌*◌, ◌/◌, ◌%◌, ◌^◌, ◌<◌, ◌≤◌, false, from_bits, is_nan, to_bits};
ghost use Rattle.std.specs.Float.Ieee.Scale.{finite};
ghost use Rattle.std.specs.Float.{binary64, NotNan, NotNanBits};
ghost use Rattle.std.specs.Float.Ieee.{round, rem, to_unsigned, to_signed};
ghost use Rattle.float.specs.Rounding.{trunc_f, floor_f, abs_f, copysign_f, rem_euclid_f, to_integer_or_infinity, is_whole_within};
ghost use Rattle.float.specs.Inner.{fraction_bits, lead, place};
ghost use Rattle.float.specs.Whole.{trunc_z, WholeWithin};

// ---- a pattern's parts

// The 11 bits of the exponent.
fn exponent(b: u64) -> u64
    ensures { result ≡ b / 2 ^ 52 % 2 ^ 11 }
{
    (b >> 52) & 0x7ff
}

// b with its highest bit cleared.
fn without_sign(b: u64) -> u64
    ensures { result ≡ b % 2 ^ 63 }
{
    b & 0x7fff_ffff_ffff_ffff
}

// b with its k lowest bits cleared.
fn clear_low(b: u64, k: u64) -> u64
    requires { k < 64 }
    ensures { result ≡ b / 2 ^ k * 2 ^ k }
{
    (b >> k) << k
}

// The highest bit of s, and the others of b.
fn join_sign(s: u64, b: u64) -> u64
    ensures { result ≡ s / 2 ^ 63 * 2 ^ 63 + b % 2 ^ 63 }
{
    ((s >> 63) << 63) | without_sign(b)
}

// ---- values and patterns

// Rust's `is_nan`.
pub fn is_nan(x: f64) -> bool
    ensures { result ≡ is_nan x }
{
    x.is_nan()
}

// Rust's `is_finite`: neither a NaN nor an infinity.
#[tactic(auto, using(crate::proofs::Special::finite_is))]
pub fn is_finite(x: f64) -> bool
    ensures { result ≡ finite x }
{
    x.is_finite()
}

// The pattern of x, Rust's `to_bits`. A NaN's is 7ff8000000000000, whatever its sign and payload were: every NaN handed out has these bits.
pub fn bits_of(x: f64) -> u64
    ensures { result ≡ to_bits binary64 x }
{
    std::num::f64_to_bits_with_nan(x)
}

// The value that n is the pattern of, Rust's `from_bits`: a NaN for each pattern of one.
pub fn of_bits(n: u64) -> f64
    ensures { result ≡ from_bits binary64 n }
{
    std::num::f64_from_bits_with_nan(n)
}

// What `change` makes of the pattern of x, as a value again; a NaN is returned as it came.
fn by_bits<Change: Fn(u64) -> u64>(x: f64, change: Change) -> f64
    requires callable { Change.IsAlwaysCallable change }
    requires number { (r : ℕ) → NotNan x → Change.post change (to_bits binary64 x) r → NotNanBits binary64 r }
    ensures nan { IsTrue (is_nan x) → result ≡ x }
    ensures number { NotNan x → (r : ℕ) × Change.post change (to_bits binary64 x) r × (result ≡ from_bits binary64 r) }
{
    if x.is_nan() {
        return x;
    }
    f64::from_bits(change(x.to_bits()))
}

// Rust's `abs`: the sign's bit is cleared.
pub fn abs(x: f64) -> f64
    ensures { result ≡ abs_f x }
{
    by_bits(x, without_sign)
}

// Rust's `copysign`: the magnitude of x with the sign of y. A NaN y counts as positive: so its pattern is.
#[tactic(auto, using(crate::proofs::Changed::signed_nan, crate::proofs::Changed::signed_number, crate::proofs::Changed::signed_of))]
pub fn copysign(x: f64, y: f64) -> f64
    ensures { result ≡ copysign_f x y }
{
    if x.is_nan() {
        return x;
    }
    f64::from_bits(join_sign(bits_of(y), x.to_bits()))
}

// ---- the whole part and the floor: the bits below the point are cleared

// How many of the lowest bits of a pattern lie below the point, where the exponent's field is e.
#[tactic(auto, unfolding(crate::specs::Inner::fraction_bits))]
fn fraction_bits(e: u64) -> u64
    ensures { result ≡ fraction_bits e }
{
    if e < 1023 {
        63
    } else {
        1075u64.saturating_sub(e)
    }
}

// The pattern of the whole part of b's value.
#[tactic(auto, using(crate::proofs::Clearing::fraction_fits, crate::proofs::Clearing::trunc_cut))]
fn trunc_bits(b: u64) -> u64
    ensures { from_bits binary64 result ≡ trunc_f (from_bits binary64 b) }
{
    clear_low(b, fraction_bits(exponent(b)))
}

// The pattern of the floor of b's value.
fn floor_bits(b: u64) -> u64
    ensures { from_bits binary64 result ≡ floor_f (from_bits binary64 b) }
{
    let k = fraction_bits(exponent(b));
    let c = clear_low(b, k);
    let below = if c == b { 0 } else { b >> 63 };
    if k == 63 {
        return if below == 0 { c } else { 0xbff0_0000_0000_0000 };
    }
    c + (below << k)
}

// Rust's `trunc`: toward zero. The sign stays, so -0.5 gives -0.0.
pub fn trunc(x: f64) -> f64
    ensures { result ≡ trunc_f x }
{
    by_bits(x, trunc_bits)
}

// Rust's `floor`: toward minus infinity. -0.0 gives -0.0, and -0.5 gives -1.0.
pub fn floor(x: f64) -> f64
    ensures { result ≡ floor_f x }
{
    by_bits(x, floor_bits)
}

// ---- the remainder: a magnitude is digits, shifted up by a place, of the smallest value 2 ^ -1074

// The digits of b's magnitude, the leading one with them where the exponent's field is not 0.
#[tactic(auto, using(crate::proofs::Digits::lead_some))]
fn lead_bits(b: u64) -> u64
    ensures { result ≡ lead (b / 2 ^ 52 % 2 ^ 11) (b % 2 ^ 52) }
{
    let t = b & 0xf_ffff_ffff_ffff;
    if exponent(b) == 0 {
        t
    } else {
        0x10_0000_0000_0000 + t
    }
}

// How far those digits are shifted up from the smallest value.
fn place_bits(b: u64) -> u64
    ensures { result ≡ place (b / 2 ^ 52 % 2 ^ 11) }
{
    exponent(b).saturating_sub(1)
}

// The shift that brings q's top bit to bit 52.
#[tactic(auto, using(crate::proofs::Digits::room_is))]
fn room(q: u64) -> u64
    requires { (0 < q) × (q < 2 ^ 53) }
    ensures { (2 ^ 52 ≤ q * 2 ^ result) × (q * 2 ^ result < 2 ^ 53) × (result ≤ 52) }
{
    u64::from(q.leading_zeros() - 11)
}

// The pattern of q * 2 ^ k times the smallest value.
fn units_bits(q: u64, k: u64) -> u64
    requires { (q < 2 ^ 53) × (k ≤ 2045) }
    ensures { (result < 2 ^ 63) × (from_bits binary64 result ≡ round binary64 false (q * 2 ^ k) (2 ^ 1074)) }
{
    if q == 0 {
        return 0;
    }
    let h = room(q);
    if h < k {
        return ((k - h) << 52) + (q << h);
    }
    q << k
}

// How many of n's lowest bits, at most d, are all zeros.
#[tactic(auto, using(crate::proofs::Digits::zeros_fit, crate::proofs::Digits::zeros_whole))]
fn low_zeros(n: u64, d: u64) -> u64
    requires { 0 < n }
    ensures { (result ≤ d) × (result < 64) × (n / 2 ^ result * 2 ^ result ≡ n) }
{
    u64::from(n.trailing_zeros()).min(d)
}

// q * 2 ^ d % n, as many bits at a time as n leaves above it.
#[tactic(auto, using(crate::proofs::Digits::room_some, crate::proofs::Digits::stepped, crate::proofs::Digits::finished))]
fn shifted_rem(q: u64, d: u64, n: u64) -> u64
    requires { (q < n) × (n < 2 ^ 53) }
    ensures { result ≡ q * 2 ^ d % n }
{
    let s = u64::from(n.leading_zeros());
    let mut r = q;
    let mut k = d;
    while s < k {
        r = (r << s) % n;
        k -= s;
    }
    if k == 0 {
        return r;
    }
    (r << k) % n
}

// The pattern of the remainder of a's value by b's, for two finite ones and a b that is not zero. It has a's sign.
// Both are digits shifted up: where a's are shifted d further than b's, zeros at the end of b's digits take up as much of d as they can.
// Of two whole numbers below 2 ^ 53 they take up all of it, and one integer `%` is left.
fn rem_bits(a: u64, b: u64) -> u64
    requires { (a / 2 ^ 52 % 2 ^ 11 < 2047) × (b / 2 ^ 52 % 2 ^ 11 < 2047) × (0 < b % 2 ^ 63) }
    ensures { from_bits binary64 result ≡ rem binary64 (from_bits binary64 a) (from_bits binary64 b) }
{
    let m = lead_bits(a);
    let n = lead_bits(b);
    let i = place_bits(a);
    let j = place_bits(b);
    if i < j {
        return a;
    }
    let d = i - j;
    let c = low_zeros(n, d);
    let w = n >> c;
    join_sign(a, units_bits(shifted_rem(m % w, d - c, w), j + c))
}

// Rust's `x % y`, for every two, without the C library's fmod. Inlined: where y is written out, its digits are known.
#[tactic(auto, using(crate::proofs::Digits::not_finite, crate::proofs::Digits::by_nan, crate::proofs::Digits::by_zero, crate::proofs::Digits::by_infinity, crate::proofs::Digits::finite_field, crate::proofs::Digits::some_digits, crate::proofs::Digits::field_below, crate::proofs::Digits::of_two))]
#[inline]
fn remainder(x: f64, y: f64) -> f64
    ensures { result ≡ rem binary64 x y }
{
    if !x.is_finite() || y.is_nan() || y == 0.0 {
        return f64::NAN;
    }
    if y.is_infinite() {
        return x;
    }
    f64::from_bits(rem_bits(x.to_bits(), y.to_bits()))
}

// Rust's `rem_euclid`: x % y, and |y| more, rounded once, where that is below zero. A multiple of y below zero gives -0.0. Inlined as
// `remainder` is.
#[tactic(auto, unfolding(crate::specs::Rounding::rem_euclid_f))]
#[inline]
pub fn rem_euclid(x: f64, y: f64) -> f64
    ensures { result ≡ rem_euclid_f x y }
{
    let r = remainder(x, y);
    let n = abs(y);
    if r < 0.0 { r + n } else { r }
}

// ---- integers

// 2^53: a whole number to there, either way, is an f64.
pub const EXACT_LIMIT: f64 = 9_007_199_254_740_992.0;

// Whether x is a whole number, and no larger than `most` either way. No NaN is; of any other the pattern is that of its whole part.
#[tactic(auto, using(crate::proofs::Within::not_whole, crate::proofs::Within::unbounded))]
pub fn is_whole_within(x: f64, most: f64) -> bool
    ensures { result ≡ is_whole_within most x }
{
    if x.is_nan() {
        return false;
    }
    let b = x.to_bits();
    abs(x) <= most && trunc_bits(b) == b
}

// A whole number as an integer. Rounded to the nearest, a sum with 0.0 is never -0, which the cast does not take.
#[tactic(auto, using(crate::proofs::Casts::exact_taken, crate::proofs::Casts::exact_back))]
pub fn exact_i64(x: f64) -> i64
    requires { WholeWithin (2 ^ 53) x }
    ensures { result ≡ trunc_z x }
{
    (x + 0.0) as i64
}

// Rust's `x as i64`: toward zero, to the nearer end of the range where x is beyond it, and 0 for a NaN. A whole number to 2^53 takes one cast.
pub fn as_i64(x: f64) -> i64
    ensures { result ≡ to_signed 63 x }
{
    if is_whole_within(x, EXACT_LIMIT) {
        return exact_i64(x);
    }
    std::num::saturating_f64_to_i64(x)
}

// Rust's `x as i32`.
#[tactic(auto, using(crate::proofs::Narrow::i32_clamped))]
pub fn as_i32(x: f64) -> i32
    ensures { result ≡ to_signed 31 x }
{
    as_i64(x).clamp(i64::from(i32::MIN), i64::from(i32::MAX)) as i32
}

// Rust's `x as u16`.
#[tactic(auto, using(crate::proofs::Narrow::u16_clamped))]
pub fn as_u16(x: f64) -> u16
    ensures { result ≡ to_unsigned 16 x }
{
    as_i64(x).clamp(0, i64::from(u16::MAX)) as u16
}

// Rust's `x as u8`.
#[tactic(auto, using(crate::proofs::Narrow::u8_clamped))]
pub fn as_u8(x: f64) -> u8
    ensures { result ≡ to_unsigned 8 x }
{
    as_i64(x).clamp(0, i64::from(u8::MAX)) as u8
}

// ECMA-262, ToIntegerOrInfinity of a number: NaN and -0.5 give +0.0, an infinity is itself, and any other is cut toward zero.
#[tactic(auto, using(crate::proofs::Integer::of_nan, crate::proofs::Integer::of_zero, crate::proofs::Integer::of_other))]
pub fn to_integer_or_infinity(x: f64) -> f64
    ensures { result ≡ to_integer_or_infinity x }
{
    if x.is_nan() {
        return 0.0;
    }
    let t = trunc(x);
    if t == 0.0 { 0.0 } else { t }
}
