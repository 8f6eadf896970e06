//! Products by bit planes: the product with a byte is the sum of the products with its bits.
ghost use Rattle.std.specs.Prelude.{◌≡◌, ℕ, ◌^◌, ◌<◌, ◌==◌, if◌then◌else◌, map, bit_and, slice_index};
ghost use Rattle.ecp_field.specs.Field.{byte_product};

use crate::multiplier::Multiplier;
use ecp_field::mul;
use std::simd::prelude::*;

/// A constant, and its product with each bit of a byte.
#[derive(Drop)]
pub(crate) struct Planes {
    constant: u8,
    products: [u8; 8],
    ghost exact: { (i : ℕ) → i < 8 → slice_index products i ≡ byte_product constant (2 ^ i) },
}

impl Planes {
    pub(crate) fn new(constant: u8) -> Planes
        ensures { result.constant ≡ constant }
    {
        let mut products = [0; 8];
        for i in 0..8 {
            products[i] = mul(constant, 1 << i);
        }
        Planes { constant, products }
    }
}

/// `value` in each lane where `bit` is set, and 0 elsewhere.
#[inline(always)]
fn plane(bytes: u8x64, bit: u8, value: u8) -> u8x64
    ensures { result ≡ map (λ x. if bit_and x bit == bit then value else 0) bytes }
{
    (bytes & u8x64::splat(bit))
        .simd_eq(u8x64::splat(bit))
        .select(u8x64::splat(value), u8x64::splat(0))
}

impl Multiplier for Planes {
    ghost factor = { λ p. p.constant };

    fn constant(&self) -> u8 {
        self.constant
    }

    #[inline(always)]
    fn products(&self, bytes: u8x64) -> u8x64 {
        let mut sum = u8x64::splat(0);
        for i in 0..self.products.len() {
            sum ^= plane(bytes, 1 << i, self.products[i]);
        }
        sum
    }
}
