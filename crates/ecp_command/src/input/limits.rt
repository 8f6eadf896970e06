ghost use Rattle.std.specs.Prelude.{◌≡◌, ◌≤◌, List, [], ◌∷◌, ◌++◌, SomeIff};
ghost use Rattle.ecp_code.specs.Stripes.{stripe_count};
ghost use Rattle.ecp_command.specs.declared.input.form.Form.{Form};
ghost use Rattle.ecp_command.specs.Input.Limits.{put_len, is_read};
ghost use Rattle.ecp_command.specs.Input.Settings.{IsInRange};
ghost use Rattle.ecp_command.specs.Input.Totals.{AreTotals, HaveTotals};

use crate::input::call::Call;
use crate::input::form::Form;
use crate::input::head::Head;
use crate::input::totals::Totals;
use ecp_shape::limits::{
    MAX_BYTES, MAX_LINES, MAX_PUT_BYTES, MAX_PUT_STRIPES, MAX_READ, MAX_STORED, MAX_STRIPES,
};

/// The totals of no line.
pub(crate) fn no_lines(head: &Head) -> Totals
    ensures { AreTotals head.now [] result }
{
    Totals {
        lines: 0,
        bytes: 0,
        stripes: 0,
        reads: 0,
    }
}

/// The totals with one more line, or None where a limit is passed. Each limit of the first pass is here.
pub(crate) fn with_line(head: &Head, totals: &Totals, form: &Form) -> Option<Totals>
    requires { IsInRange head.now }
    ensures { (forms : List Form) → AreTotals head.now forms totals.now → HaveTotals head.now (forms ++ form.now ∷ []) result }
{
    let put = within(put_len(form), MAX_PUT_BYTES)?;
    let filled = within(stripes_of(head, put), MAX_PUT_STRIPES)?;
    let lines = within(totals.lines + 1, MAX_LINES)?;
    let bytes = within(totals.bytes + put, MAX_BYTES)?;
    let stripes = within(totals.stripes + filled, MAX_STRIPES)?;
    within(
        stripes * u64::from(head.n) * u64::from(head.block),
        MAX_STORED,
    )?;
    let reads = totals.reads + u64::from(is_read(form));
    within(reads * u64::from(head.block), MAX_READ)?;
    Some(Totals {
        lines,
        bytes,
        stripes,
        reads,
    })
}

// The number, where it is at most the limit.
fn within(n: u64, limit: u64) -> Option<u64>
    ensures { SomeIff result (n ≤ limit) n }
{
    if n <= limit { Some(n) } else { None }
}

// How many bytes the line puts.
fn put_len(form: &Form) -> u64
    ensures { result ≡ put_len form.now }
{
    match form {
        Form::Call(Call::Put { bytes, .. }) => bytes.len() as u64,
        Form::Session(_)
        | Form::Barrier
        | Form::Call(
            Call::Read { .. }
            | Call::Sum { .. }
            | Call::Cat { .. }
            | Call::Lose { .. }
            | Call::Join { .. }
            | Call::Rebuild { .. }
            | Call::Stat { .. },
        ) => 0,
    }
}

// How many stripes so many bytes fill.
fn stripes_of(head: &Head, size: u64) -> u64
    requires in_range { IsInRange head.now }
    requires size { size ≤ MAX_PUT_BYTES }
    ensures { result ≡ stripe_count head.now.k head.now.block size }
{
    let stripe = u64::from(head.k) * u64::from(head.block);
    (size + stripe - 1) / stripe
}

// Whether the line asks for a block.
fn is_read(form: &Form) -> bool
    ensures { result ≡ is_read form.now }
{
    match form {
        Form::Call(Call::Read { .. }) => true,
        Form::Session(_)
        | Form::Barrier
        | Form::Call(
            Call::Put { .. }
            | Call::Sum { .. }
            | Call::Cat { .. }
            | Call::Lose { .. }
            | Call::Join { .. }
            | Call::Rebuild { .. }
            | Call::Stat { .. },
        ) => false,
    }
}
