//! The slices of a block, and in which order a slice visits its helpers.

ghost use Rattle.std.specs.Prelude.{◌≡◌, ◌⊎◌, ◌<◌, ◌≤◌, ◌+◌, ◌-◌, ◌*◌};
ghost use Rattle.ecp_plan.specs.Order.{slice_count, slice_start, slice_end, helper_after};

/// How many slices of `slice` bytes a block of `block` bytes has.
///
/// Slice j has the bytes from j * `slice` up to the lesser of (j + 1) * `slice` and `block`: the last one may be shorter.
pub fn slices(block: u32, slice: u32) -> u32
    requires block { 1 ≤ block }
    requires slice { 1 ≤ slice }
    ensures count { result ≡ slice_count block slice }
    ensures last { slice_start slice (result - 1) < block }
    ensures whole { slice_end block slice (result - 1) ≡ block }
{
    block.div_ceil(slice)
}

/// The helper that slice `slice` visits after `at` others, as its place among the `helpers` helpers of a plan.
///
/// A plan with one lane has every slice visit the helpers in their order. In a plan with as many lanes as helpers slice
/// j begins at helper j mod `helpers` and goes round, so that each of them is the first for a part of the block (Li, Li,
/// Lee and Huang, Repair Pipelining for Erasure-Coded Storage, USENIX ATC 2017).
pub fn hop_at(lanes: u8, helpers: u8, slice: u32, at: u8) -> u8
    requires lanes { (lanes ≡ 1) ⊎ (lanes ≡ helpers) }
    requires at { at < helpers }
    ensures helper { result ≡ helper_after lanes helpers slice at }
    ensures within { result < helpers }
{
    let first = slice % u32::from(lanes);
    ((first + u32::from(at)) % u32::from(helpers)) as u8
}
