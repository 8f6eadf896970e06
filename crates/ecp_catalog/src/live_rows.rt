ghost use Rattle.std.specs.Prelude.{◌≡◌, ◌<◌, ◌≤◌, [], ◌∷◌, ◌++◌, length};
ghost use Rattle.ecp_shape.specs.declared.limits.TheConstants.{MAX_ROWS};

use ecp_plan::LiveRow;
use ecp_shape::limits::MAX_ROWS;
use std::marker::Model;

/// The live rows of a stripe, in rising order, each with the node that it is live on. It takes no memory.
#[derive(Drop)]
pub struct LiveRows {
    len: usize,
    rows: [LiveRow; 16],
}

impl Model for LiveRows {
    ghost use Rattle.std.specs.Prelude.{◌≤◌, List, take};
    ghost use Rattle.ecp_plan.specs.declared.live_row.LiveRow.{LiveRow};

    ghost Value = { List LiveRow };

    ghost view = { λ live. take live.len live.rows };

    ghost invariant = { λ live. live.len ≤ 16 };
}

impl LiveRows {
    /// No rows.
    pub(crate) fn none() -> LiveRows
        ensures { result ≡ [] }
    {
        LiveRows {
            len: 0,
            rows: [LiveRow { row: 0, node: 0 }; MAX_ROWS as usize],
        }
    }

    /// Puts a row behind the others.
    pub(crate) fn push(&mut self, row: LiveRow)
        requires { length self.old < MAX_ROWS }
        ensures { self.new ≡ self.old ++ row ∷ [] }
    {
        self.rows[self.len] = row;
        self.len += 1;
    }

    /// The rows, as [`pick`](ecp_plan::pick) takes them.
    pub fn as_slice(&self) -> &[LiveRow]
        ensures rows { result.now ≡ self.now }
        ensures few { length self.now ≤ MAX_ROWS }
    {
        &self.rows[..self.len]
    }

    /// How many rows are live.
    pub fn len(&self) -> usize
        ensures { result ≡ length self.now }
    {
        self.as_slice().len()
    }
}
