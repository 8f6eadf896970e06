//! The sum of two slices.
ghost use Rattle.std.specs.Prelude.{◌≡◌, ◌≤◌, length};
ghost use Rattle.ecp_field.specs.Lists.{sums};

use crate::plain::xor_bytes;
use std::simd::prelude::*;

/// Adds each byte of `src` to the byte of `dst` at its place.
pub fn xor_into(dst: &mut [u8], src: &[u8])
    requires { length dst.old ≡ length src.now }
    ensures { dst.new ≡ sums dst.old src.now }
{
    let mut at = 0;
    while src.len() - at >= 64 {
        let sum = u8x64::from_slice(&dst[at..]) ^ u8x64::from_slice(&src[at..]);
        sum.copy_to_slice(&mut dst[at..]);
        at += 64;
    }
    xor_bytes(&mut dst[at..], &src[at..]);
}
