// Checked arithmetic on values (i64): each operation answers the value, or why there is none.
#![tactic(auto)]

ghost use Rattle.std.specs.Prelude.{◌≡◌, ◌+ℤ◌, ◌≤◌, ◌^◌, ◌*◌, ◌+◌, min};
ghost use Rattle.std.specs.Int.{w64};
ghost use Rattle.std.proofs.Common.{to_z, of_z};
ghost use Rattle.num.specs.Arithmetic.{fit, truth, negated, added, subtracted, multiplied, divided, remainder, less, at_most, equal};
ghost use Rattle.num.specs.Parts.{signed, of, lowered};

// Why an operation has no value.
#[derive(Clone, Copy, PartialEq, Eq)]
pub enum Reason {
    // The result lies outside the value range.
    Outside,
    // The divisor is zero.
    ZeroDivisor,
}

// The two's complement bits of x.
pub fn bits(x: i64) -> u64
    ensures { result ≡ of_z w64 x }
{
    x.cast_unsigned()
}

// The number whose two's complement bits are u.
pub fn of_bits(u: u64) -> i64
    ensures { result ≡ to_z w64 u }
{
    u.cast_signed()
}

// A number as its sign and its magnitude.
#[derive(Clone, Copy)]
pub struct Parts {
    pub neg: bool,
    pub mag: u64,
}

// The magnitude of the least value.
const HALF: u64 = 0x8000_0000_0000_0000;

// The half of a 64-bit word that a product by halves works on.
const BASE: u64 = 0x1_0000_0000;

fn split(x: i64) -> Parts
    ensures { (of result ≡ x) × (result.mag ≤ 2 ^ 63) }
{
    let u = bits(x);
    if u < HALF {
        Parts { neg: false, mag: u }
    } else {
        Parts {
            neg: true,
            mag: u64::MAX - u + 1,
        }
    }
}

// The number of a sign and a magnitude, if it is a value.
fn join(neg: bool, mag: u64) -> Result<i64, Reason>
    ensures { result ≡ fit (signed neg mag) }
{
    if neg {
        if mag == 0 {
            Ok(0)
        } else if mag <= HALF {
            Ok(of_bits(u64::MAX - (mag - 1)))
        } else {
            Err(Reason::Outside)
        }
    } else if mag < HALF {
        Ok(of_bits(mag))
    } else {
        Err(Reason::Outside)
    }
}

// The product of two magnitudes, or 2^63 + 1, which no value has, where it is larger. By halves of 32 bits: the
// controller has no divider, and no 64-bit product with its upper half.
fn product(m: u64, n: u64) -> u64
    requires { (m ≤ 2 ^ 63) × (n ≤ 2 ^ 63) }
    ensures { result ≡ min (m * n) (2 ^ 63 + 1) }
{
    let mh = m / BASE;
    let ml = m % BASE;
    let nh = n / BASE;
    let nl = n % BASE;
    if mh == 0 {
        return shifted_sum(ml * nh, ml * nl);
    }
    if nh == 0 {
        return shifted_sum(mh * nl, ml * nl);
    }
    HALF + 1
}

// high · 2^32 + low, or 2^63 + 1 where it is larger.
fn shifted_sum(high: u64, low: u64) -> u64
    ensures { result ≡ min (high * 4294967296 + low) (2 ^ 63 + 1) }
{
    if HALF / BASE < high {
        return HALF + 1;
    }
    if HALF - high * BASE < low {
        return HALF + 1;
    }
    high * BASE + low
}

pub fn neg(a: i64) -> Result<i64, Reason>
    ensures { result ≡ negated a }
{
    a.checked_neg().ok_or(Reason::Outside)
}

pub fn add(a: i64, b: i64) -> Result<i64, Reason>
    ensures { result ≡ added a b }
{
    a.checked_add(b).ok_or(Reason::Outside)
}

pub fn sub(a: i64, b: i64) -> Result<i64, Reason>
    ensures { result ≡ subtracted a b }
{
    a.checked_sub(b).ok_or(Reason::Outside)
}

pub fn mul(a: i64, b: i64) -> Result<i64, Reason>
    ensures { result ≡ multiplied a b }
{
    let p = split(a);
    let q = split(b);
    join(p.neg != q.neg, product(p.mag, q.mag))
}

// 1 where a quotient lies below zero, else 0: the signs differ, and the dividend's magnitude is not 0.
fn below_zero(s: bool, t: bool, m: u64) -> u64
    ensures { result ≡ lowered s t m }
{
    if m == 0 {
        return 0;
    }
    if s == t {
        return 0;
    }
    1
}

// The quotient, down to the next whole number: below zero the magnitude goes up. One division, of m − 1 there, does both.
pub fn div(a: i64, b: i64) -> Result<i64, Reason>
    ensures { result ≡ divided a b }
{
    let p = split(a);
    let q = split(b);
    let m = p.mag;
    let n = q.mag;
    if n == 0 {
        return Err(Reason::ZeroDivisor);
    }
    let up = below_zero(p.neg, q.neg, m);
    join(p.neg != q.neg, (m - up) / n + up)
}

// The remainder, with the divisor's sign: what the quotient leaves.
pub fn rem(a: i64, b: i64) -> Result<i64, Reason>
    ensures { result ≡ remainder a b }
{
    let p = split(a);
    let q = split(b);
    let m = p.mag;
    let n = q.mag;
    if n == 0 {
        return Err(Reason::ZeroDivisor);
    }
    let less = below_zero(p.neg, q.neg, m);
    let left = (m - less) % n;
    if less == 1 {
        return join(q.neg, n - 1 - left);
    }
    join(q.neg, left)
}

// 1 for yes, 0 for no.
fn one_or_zero(yes: bool) -> Result<i64, Reason>
    ensures { result ≡ truth yes }
{
    Ok(if yes { 1 } else { 0 })
}

pub fn lt(a: i64, b: i64) -> Result<i64, Reason>
    ensures { result ≡ less a b }
{
    one_or_zero(a < b)
}

pub fn le(a: i64, b: i64) -> Result<i64, Reason>
    ensures { result ≡ at_most a b }
{
    one_or_zero(a <= b)
}

pub fn eq(a: i64, b: i64) -> Result<i64, Reason>
    ensures { result ≡ equal a b }
{
    one_or_zero(a == b)
}
