//! The same sums and products byte by byte: what each call means, and what it does where fewer bytes
//! are left than there are lanes.
ghost use Rattle.std.specs.Prelude.{◌≡◌, length};
ghost use Rattle.ecp_field.specs.Lists.{sums, scaled};

use ecp_field::mul;

pub(crate) fn xor_bytes(dst: &mut [u8], src: &[u8])
    requires { length dst.old ≡ length src.now }
    ensures { dst.new ≡ sums dst.old src.now }
{
    for i in 0..src.len() {
        dst[i] ^= src[i];
    }
}

pub(crate) fn mul_bytes(dst: &mut [u8], c: u8, src: &[u8])
    requires { length dst.old ≡ length src.now }
    ensures { dst.new ≡ scaled c src.now }
{
    for i in 0..src.len() {
        dst[i] = mul(c, src[i]);
    }
}

pub(crate) fn mul_add_bytes(dst: &mut [u8], c: u8, src: &[u8])
    requires { length dst.old ≡ length src.now }
    ensures { dst.new ≡ sums dst.old (scaled c src.now) }
{
    for i in 0..src.len() {
        dst[i] ^= mul(c, src[i]);
    }
}
