//! Products of a slice with a constant.
ghost use Rattle.std.specs.Prelude.{◌≡◌, ◌≤◌, length};
ghost use Rattle.ecp_field.specs.Lists.{sums, scaled};

use crate::multiplier::Multiplier;
use crate::nibbles::Nibbles;
use crate::plain::{mul_add_bytes, mul_bytes};
use crate::planes::Planes;
use crate::xor::xor_into;
use std::simd::prelude::*;

/// From how many bytes on the look-ups are worth the tables that they need.
const WORTH_TABLES: usize = 256;

/// Makes each byte of `dst` the product of `c` and the byte of `src` at its place.
pub fn mul_into(dst: &mut [u8], c: u8, src: &[u8])
    requires { length dst.old ≡ length src.now }
    ensures { dst.new ≡ scaled c src.now }
{
    match c {
        0 => dst.fill(0),
        1 => dst.copy_from_slice(src),
        _ if src.len() < WORTH_TABLES => mul_by(dst, &Planes::new(c), src),
        _ => mul_by(dst, &Nibbles::new(c), src),
    }
}

/// Adds the product of `c` and each byte of `src` to the byte of `dst` at its place.
pub fn mul_add_into(dst: &mut [u8], c: u8, src: &[u8])
    requires { length dst.old ≡ length src.now }
    ensures { dst.new ≡ sums dst.old (scaled c src.now) }
{
    match c {
        0 => {}
        1 => xor_into(dst, src),
        _ if src.len() < WORTH_TABLES => mul_add_by(dst, &Planes::new(c), src),
        _ => mul_add_by(dst, &Nibbles::new(c), src),
    }
}

/// `mul_into` by bit planes at every length, as the reference for the look-ups.
pub fn mul_into_by_planes(dst: &mut [u8], c: u8, src: &[u8])
    requires { length dst.old ≡ length src.now }
    ensures { dst.new ≡ scaled c src.now }
{
    mul_by(dst, &Planes::new(c), src)
}

/// `mul_add_into` by bit planes at every length, as the reference for the look-ups.
pub fn mul_add_into_by_planes(dst: &mut [u8], c: u8, src: &[u8])
    requires { length dst.old ≡ length src.now }
    ensures { dst.new ≡ sums dst.old (scaled c src.now) }
{
    mul_add_by(dst, &Planes::new(c), src)
}

#[inline(always)]
fn mul_by<M: Multiplier>(dst: &mut [u8], by: &M, src: &[u8])
    requires { length dst.old ≡ length src.now }
    ensures { dst.new ≡ scaled (M.factor by.now) src.now }
{
    let mut at = 0;
    while src.len() - at >= 64 {
        let products = by.products(u8x64::from_slice(&src[at..]));
        products.copy_to_slice(&mut dst[at..]);
        at += 64;
    }
    mul_bytes(&mut dst[at..], by.constant(), &src[at..]);
}

#[inline(always)]
fn mul_add_by<M: Multiplier>(dst: &mut [u8], by: &M, src: &[u8])
    requires { length dst.old ≡ length src.now }
    ensures { dst.new ≡ sums dst.old (scaled (M.factor by.now) src.now) }
{
    let mut at = 0;
    while src.len() - at >= 64 {
        let products = by.products(u8x64::from_slice(&src[at..]));
        let sum = u8x64::from_slice(&dst[at..]) ^ products;
        sum.copy_to_slice(&mut dst[at..]);
        at += 64;
    }
    mul_add_bytes(&mut dst[at..], by.constant(), &src[at..]);
}
