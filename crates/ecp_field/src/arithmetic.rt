//! Sums, products and quotients of two bytes.
ghost use Rattle.std.specs.Prelude.{◌≡◌, ◌≢◌, ◌<◌, slice_index};
ghost use Rattle.ecp_field.specs.Field.{byte_sum, byte_product, byte_quotient, byte_power};

use crate::tables::{EXP, LOG};

/// How many powers of 2 there are: each byte but 0.
const ORDER: usize = 255;

fn exp(i: usize) -> u8
    requires { i < 255 }
    ensures { result ≡ slice_index EXP i }
{
    EXP[i]
}

fn log(a: u8) -> usize
    ensures value { result ≡ slice_index LOG a }
    ensures byte { result < 256 }
{
    LOG[a as usize] as usize
}

/// The sum of two bytes, which is their difference too.
pub fn add(a: u8, b: u8) -> u8
    ensures { result ≡ byte_sum a b }
{
    a ^ b
}

/// The product of two bytes.
pub fn mul(a: u8, b: u8) -> u8
    ensures { result ≡ byte_product a b }
{
    if a == 0 || b == 0 {
        return 0;
    }
    exp((log(a) + log(b)) % ORDER)
}

/// The byte whose product with `a` is 1.
pub fn inv(a: u8) -> u8
    requires { a ≢ 0 }
    ensures { result ≡ byte_quotient 1 a }
{
    exp((ORDER - log(a)) % ORDER)
}

/// The byte whose product with `b` is `a`.
pub fn div(a: u8, b: u8) -> u8
    requires { b ≢ 0 }
    ensures { result ≡ byte_quotient a b }
{
    if a == 0 {
        return 0;
    }
    exp((log(a) + ORDER - log(b)) % ORDER)
}

/// `a` to the power `e`. `pow(0, 0)` is 1.
pub fn pow(a: u8, e: u32) -> u8
    ensures { result ≡ byte_power a e }
{
    if e == 0 {
        return 1;
    }
    if a == 0 {
        return 0;
    }
    power_of_nonzero(a, e)
}

fn power_of_nonzero(a: u8, e: u32) -> u8
    requires { a ≢ 0 }
    ensures { result ≡ byte_power a e }
{
    let turns = log(a) as u64 * e as u64;
    exp((turns % ORDER as u64) as usize)
}
