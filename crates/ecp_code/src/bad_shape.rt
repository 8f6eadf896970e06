use std::error::Error;
use std::fmt;

/// Numbers that no code has: a code has 1 <= k < n <= 16. Both are kept as they were given.
#[derive(Clone, Copy, Debug, PartialEq, Eq)]
pub struct BadShape {
    /// How many rows were asked for.
    pub n: u32,
    /// How many of them were to be data.
    pub k: u32,
}

impl fmt::Display for BadShape {
    ghost use Rattle.std.specs.Prelude.{Some};
    ghost use Rattle.ecp_code.specs.Code.{bad_shape_text};

    ghost output = { λ bad. Some (bad_shape_text bad.n bad.k) };

    fn fmt<W: fmt::Write>(&self, f: &mut fmt::Formatter<W>) -> fmt::Result {
        let BadShape { n, k } = *self;
        write!(f, "no code has n = {n} and k = {k}: 1 <= k < n <= 16")
    }
}

impl Error for BadShape {}
