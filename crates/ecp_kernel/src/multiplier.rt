//! What multiplies 64 bytes at a time by a constant.
ghost use Rattle.std.specs.Prelude.{◌≡◌, ℕ, map};
ghost use Rattle.ecp_field.specs.Field.{byte_product};

use std::simd::prelude::*;

pub(crate) trait Multiplier {
    ghost factor: { Self → ℕ };

    fn constant(&self) -> u8
        ensures { result ≡ factor self.now };

    fn products(&self, bytes: u8x64) -> u8x64
        ensures { result ≡ map (byte_product (factor self.now)) bytes };
}
