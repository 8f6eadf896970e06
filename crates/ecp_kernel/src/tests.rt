ghost use Rattle.std.specs.Prelude.{◌≤◌};

use super::*;
use ecp_field::{add, mul};
use std::process::Abort;

const LONGEST: usize = 4096;

#[test]
fn a_product_and_a_sum_of_one_byte(rt: HostRuntime) {
    let mut product = [0];
    mul_into(&mut product, 3, &[0x41]);
    assert_eq!(rt; product[0], 0xc3);
    let mut sum = [0x84];
    mul_add_into(&mut sum, 3, &[0x41]);
    assert_eq!(rt; sum[0], 0x47);
    xor_into(&mut sum, &[0x47]);
    assert_eq!(rt; sum[0], 0);
}

/// Bytes of all values, in an order that differs from one `step` to another.
fn bytes(step: u8) -> [u8; LONGEST] {
    let mut made = [0; LONGEST];
    let mut byte: u8 = 1;
    for place in made.iter_mut() {
        *place = byte;
        byte = byte.wrapping_add(step);
    }
    made
}

fn kernels_agree(rt: &impl Abort, c: u8, len: usize)
    requires { len ≤ 4096 }
{
    let (old, src) = (bytes(7), bytes(5));
    let (mut sums, mut products, mut both) = (old, old, old);
    xor_into(&mut sums[..len], &src[..len]);
    mul_into(&mut products[..len], c, &src[..len]);
    mul_add_into(&mut both[..len], c, &src[..len]);
    for i in 0..len {
        let product = mul(c, src[i]);
        assert_eq!(rt; sums[i], add(old[i], src[i]));
        assert_eq!(rt; products[i], product);
        assert_eq!(rt; both[i], add(old[i], product));
    }
}

#[test]
fn each_kernel_is_its_plain_sum(rt: HostRuntime) {
    for len in [0, 1, 31, 32, 33, 4096] {
        for c in 0..=255 {
            kernels_agree(&rt, c, len);
        }
    }
}

#[test]
fn look_ups_and_planes_agree(rt: HostRuntime) {
    let (old, src) = (bytes(7), bytes(5));
    for c in 0..=255 {
        let (mut by_planes, mut by_look_ups) = (old, old);
        mul_add_into_by_planes(&mut by_planes, c, &src);
        mul_add_into(&mut by_look_ups, c, &src);
        assert_eq!(rt; by_planes.as_slice(), by_look_ups.as_slice());
        mul_into_by_planes(&mut by_planes, c, &src);
        mul_into(&mut by_look_ups, c, &src);
        assert_eq!(rt; by_planes.as_slice(), by_look_ups.as_slice());
    }
}
