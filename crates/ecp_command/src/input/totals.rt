ghost use Rattle.std.specs.Prelude.{◌≤◌};
ghost use Rattle.ecp_shape.specs.declared.limits.TheConstants.{MAX_LINES, MAX_BYTES, MAX_STRIPES};

/// What lines of a script come to.
#[derive(Debug, Drop)]
pub(crate) struct Totals {
    /// How many lines there are that are not skipped.
    pub lines: u64,
    /// The bytes of all puts.
    pub bytes: u64,
    /// The stripes that they fill.
    pub stripes: u64,
    /// How many lines ask for a block.
    pub reads: u64,
    ghost few_lines: { lines ≤ MAX_LINES },
    ghost few_bytes: { bytes ≤ MAX_BYTES },
    ghost few_stripes: { stripes ≤ MAX_STRIPES },
    ghost few_reads: { reads ≤ lines },
}
