//! The bytes of a payload, as the front of the room that a message has for them.

ghost use Rattle.std.specs.Prelude.{◌≡◌, ◌≤◌, if◌then◌else◌, length, take, replicate, IfOk};
ghost use Rattle.ecp_field.specs.Lists.{sums, scaled};

use ecp_kernel::{mul_add_into, mul_into};
use ecp_store::NoMemory;
use std::alloc::Global;

/// Room for `size` bytes, which are zeros.
pub(crate) fn zeros(alloc: Global, size: u32) -> Result<Vec<u8>, NoMemory>
    ensures { IfOk result (λ room. room.items ≡ replicate size 0) }
{
    Ok(vec![in alloc; 0; size as usize]?)
}

/// Makes the first `len` bytes zeros.
pub(crate) fn clear(room: &mut [u8], len: u32)
    requires { len ≤ length room.old }
    ensures { take len room.new ≡ replicate len 0 }
{
    room[..len as usize].fill(0);
}

/// Adds `weight` times these bytes to the first bytes of the room, or writes them there where they are the first.
pub(crate) fn add_scaled(room: &mut [u8], first: bool, weight: u8, bytes: &[u8])
    requires { length bytes.now ≤ length room.old }
    ensures { take (length bytes.now) room.new ≡ (if first then scaled weight bytes.now else sums (take (length bytes.now) room.old) (scaled weight bytes.now)) }
{
    let sum = &mut room[..bytes.len()];
    if first {
        mul_into(sum, weight, bytes);
    } else {
        mul_add_into(sum, weight, bytes);
    }
}
