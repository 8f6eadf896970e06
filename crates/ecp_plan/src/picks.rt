ghost use Rattle.std.specs.Prelude.{◌≡◌, ◌<◌, ◌+◌, ◌-◌, ◌++◌, [], ◌∷◌, drop, replicate, take};

use ecp_shape::limits::MAX_ROWS;

/// The rows that are chosen to help.
#[derive(Clone, Copy, Debug, PartialEq, Eq)]
pub struct Picks {
    /// How many rows there are.
    pub len: u8,
    /// The rows, in rising order, and 0 past them.
    pub rows: [u8; 16],
}

impl Picks {
    /// No rows.
    pub(crate) fn none() -> Picks
        ensures len { result.len ≡ 0 }
        ensures rest { result.rows ≡ replicate MAX_ROWS 0 }
    {
        Picks {
            len: 0,
            rows: [0; MAX_ROWS as usize],
        }
    }

    /// Puts a row behind the others.
    pub(crate) fn push(&mut self, row: u8)
        requires { self.old.len < MAX_ROWS }
        ensures len { self.new.len ≡ self.old.len + 1 }
        ensures rows { take self.new.len self.new.rows ≡ take self.old.len self.old.rows ++ row ∷ [] }
        ensures rest { drop self.new.len self.new.rows ≡ drop (self.old.len + 1) self.old.rows }
    {
        self.rows[usize::from(self.len)] = row;
        self.len += 1;
    }
}
