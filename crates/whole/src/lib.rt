// Whole numbers: the leaf functions of the run.
#![tactic(auto)]

ghost use Rattle.std.specs.Prelude.{◌≡◌, ◌≤◌, ◌<◌, ◌/◌, pos, nat_abs, ◌<ℤ◌};
ghost use Rattle.whole.specs.Limit.{W, within as within_limit};
ghost use Rattle.whole.specs.Gcd.{gcd as gcd_of};
ghost use Rattle.whole.specs.Quotient.{quotient as quotient_of, exactly as exactly_of, ceiling as ceiling_of};
ghost use Rattle.whole.specs.BitLength.{bit_length};

// The greatest common divisor, by Euclid's rule. Only 1 divides 1, so that the last division by 1 is not made.
pub fn gcd(a: u64, b: u64) -> u64
    ensures { result ≡ gcd_of a b }
{
    let mut x = a;
    let mut y = b;
    while 1 < y {
        let rest = x % y;
        x = y;
        y = rest;
    }
    if y == 1 {
        return 1;
    }
    x
}

// x divided by e. Most of a run's divisors are 1, and a division is the longest step of a machine.
pub fn over(x: u64, e: u64) -> u64
    requires { 0 < e }
    ensures { result ≡ x / e }
{
    if e == 1 {
        return x;
    }
    x / e
}

// The absolute value. Only the least number of 64 bits has none.
pub fn magnitude(z: i64) -> u64
    requires { nat_abs z ≤ 9223372036854775807 }
    ensures { result ≡ nat_abs z }
{
    z.unsigned_abs()
}

// A number that is not negative, as a signed one.
pub fn signed(x: u64) -> i64
    requires { x ≤ 9223372036854775807 }
    ensures { result ≡ pos x }
{
    x as i64
}

// Whether z lies in -W..W.
pub fn within(z: i64) -> bool
    ensures { result ≡ within_limit z }
{
    -268435455 <= z && z <= 268435455
}

// The quotient of step (c). Most of a run's are by 1 or -1; numbers within the limit have 32 bits, which are divided faster than 64.
pub fn quotient(z: i64, a: i64) -> i64
    requires { (nat_abs z ≤ W) × (nat_abs a ≤ W) × (a ≡ pos 0 → ⊥) }
    ensures { result ≡ quotient_of z a }
{
    if a == 1 {
        return z;
    }
    if a == -1 {
        return 0 - z;
    }
    let short = (z as i32) / (a as i32);
    short as i64
}

// z divided by one of its divisors.
pub fn exactly(z: i64, g: i64) -> i64
    requires { (nat_abs z ≤ 9223372036854775807) × (g ≡ pos 0 → ⊥) }
    ensures { result ≡ exactly_of z g }
{
    z / g
}

// The least whole number not below z / g.
pub fn ceiling(z: i64, g: i64) -> i64
    requires { (nat_abs z ≤ 9223372036854775806) × (pos 0 <ℤ g) }
    ensures { result ≡ ceiling_of z g }
{
    let q = z / g;
    if 0 < z % g {
        return q + 1;
    }
    q
}

// The bit length of x, from the count of its leading zeros.
pub fn bit_length(x: u64) -> u32
    ensures { result ≡ bit_length x }
{
    64 - x.leading_zeros()
}
