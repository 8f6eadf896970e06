ghost use Rattle.std.specs.Prelude.{◌≡◌, ◌+◌, ◌<◌, ◌≤◌};
ghost use Rattle.ecp_plan.specs.Order.{slice_count, slice_start, slice_end};
ghost use Rattle.ecp_slice.specs.Messages.{slice_len};

/// The bytes of a slice: where they begin in the block, and how many they are.
#[derive(Clone, Copy, Debug)]
pub(crate) struct Span {
    pub(crate) off: u32,
    pub(crate) len: u32,
}

impl Span {
    /// Those of slice `slice`, of a block of `block` bytes in slices of `size` bytes.
    pub(crate) fn of(block: u32, size: u32, slice: u32) -> Span
        requires size { 1 ≤ size }
        requires slice { slice < slice_count block size }
        ensures begins { result.off ≡ slice_start size slice }
        ensures len { result.len ≡ slice_len block size slice }
        ensures ends { result.off + result.len ≡ slice_end block size slice }
        ensures few { result.len ≤ size }
    {
        let off = slice * size;
        Span {
            off,
            len: size.min(block - off),
        }
    }
}
