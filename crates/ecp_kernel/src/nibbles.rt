//! Products by look-ups: the product with a byte is the sum of the products with its two halves.
ghost use Rattle.std.specs.Prelude.{◌≡◌, ℕ, ◌*◌, ◌/◌, ◌%◌, ◌<◌, map, slice_index};
ghost use Rattle.ecp_field.specs.Field.{byte_product};

use crate::multiplier::Multiplier;
use crate::planes::Planes;
use std::simd::prelude::*;

/// The 16 low halves of a byte, four times over.
const LOW: [u8; 64] = [
    0x00, 0x01, 0x02, 0x03, 0x04, 0x05, 0x06, 0x07, 0x08, 0x09, 0x0a, 0x0b, 0x0c, 0x0d, 0x0e, 0x0f,
    0x00, 0x01, 0x02, 0x03, 0x04, 0x05, 0x06, 0x07, 0x08, 0x09, 0x0a, 0x0b, 0x0c, 0x0d, 0x0e, 0x0f,
    0x00, 0x01, 0x02, 0x03, 0x04, 0x05, 0x06, 0x07, 0x08, 0x09, 0x0a, 0x0b, 0x0c, 0x0d, 0x0e, 0x0f,
    0x00, 0x01, 0x02, 0x03, 0x04, 0x05, 0x06, 0x07, 0x08, 0x09, 0x0a, 0x0b, 0x0c, 0x0d, 0x0e, 0x0f,
];

/// The 16 high halves of a byte, four times over.
const HIGH: [u8; 64] = [
    0x00, 0x10, 0x20, 0x30, 0x40, 0x50, 0x60, 0x70, 0x80, 0x90, 0xa0, 0xb0, 0xc0, 0xd0, 0xe0, 0xf0,
    0x00, 0x10, 0x20, 0x30, 0x40, 0x50, 0x60, 0x70, 0x80, 0x90, 0xa0, 0xb0, 0xc0, 0xd0, 0xe0, 0xf0,
    0x00, 0x10, 0x20, 0x30, 0x40, 0x50, 0x60, 0x70, 0x80, 0x90, 0xa0, 0xb0, 0xc0, 0xd0, 0xe0, 0xf0,
    0x00, 0x10, 0x20, 0x30, 0x40, 0x50, 0x60, 0x70, 0x80, 0x90, 0xa0, 0xb0, 0xc0, 0xd0, 0xe0, 0xf0,
];

/// A constant, and its products with the low and with the high halves of a byte, each four times over.
#[derive(Drop)]
pub(crate) struct Nibbles {
    constant: u8,
    low: u8x64,
    high: u8x64,
    ghost low_exact: { (i : ℕ) → i < 64 → slice_index low i ≡ byte_product constant (i % 16) },
    ghost high_exact: { (i : ℕ) → i < 64 → slice_index high i ≡ byte_product constant (i % 16 * 16) },
}

impl Nibbles {
    pub(crate) fn new(constant: u8) -> Nibbles
        ensures { result.constant ≡ constant }
    {
        let planes = Planes::new(constant);
        let low = planes.products(u8x64::from_array(LOW));
        let high = planes.products(u8x64::from_array(HIGH));
        Nibbles {
            constant,
            low,
            high,
        }
    }

    #[inline(always)]
    fn low_products(&self, bytes: u8x64) -> u8x64
        ensures { result ≡ map (λ x. byte_product self.now.constant (x % 16)) bytes }
    {
        self.low.swizzle_dyn_within::<16>(bytes & u8x64::splat(15))
    }

    #[inline(always)]
    fn high_products(&self, bytes: u8x64) -> u8x64
        ensures { result ≡ map (λ x. byte_product self.now.constant (x / 16 * 16)) bytes }
    {
        self.high.swizzle_dyn_within::<16>(bytes >> u8x64::splat(4))
    }
}

impl Multiplier for Nibbles {
    ghost factor = { λ n. n.constant };

    fn constant(&self) -> u8 {
        self.constant
    }

    #[inline(always)]
    fn products(&self, bytes: u8x64) -> u8x64 {
        self.low_products(bytes) ^ self.high_products(bytes)
    }
}
