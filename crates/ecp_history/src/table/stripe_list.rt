//! The stripes of a table, in rising order of their numbers.

ghost use Rattle.std.specs.Prelude.{◌≡◌, ℕ, ◌+◌, ◌==◌, ◌<◌, ◌≤◌, false, find, if◌then◌else◌, length, map, option_copied, true, IfSome, IfNone, IsTrue, None, slice_index_or, take, vec_capacity, vec_len};
ghost use Rattle.ecp_history.specs.table.Rising.{AllBelow, IsRising};
ghost use Rattle.ecp_history.specs.table.Steps.{given_up, live_onto, placed, with_row, with_rows, without_node};
ghost use Rattle.ecp_history.specs.table.Tables as tables;

use super::placed_stripe::PlacedStripe;

/// The stripe with this number, if there is one.
pub(super) fn stripe_with(stripes: &[PlacedStripe], number: u32) -> Option<&PlacedStripe>
    requires { IsRising stripes.now }
    ensures { option_copied result ≡ find (λ x. x.number == number) stripes.now }
{
    let at = index_with(stripes, number)?;
    Some(&stripes[at])
}

/// The index of the stripe with this number, if there is one.
fn index_with(stripes: &[PlacedStripe], number: u32) -> Option<usize>
    requires { IsRising stripes.now }
    ensures within { IfSome result (λ at. at < length stripes.now) }
    ensures some { IfSome result (λ at. (d : tables.Stripe) → (slice_index_or stripes.now at d).number ≡ number) }
    ensures none { IfNone result (find (λ x. x.number == number) stripes.now ≡ None) }
{
    let mut low = 0;
    let mut high = stripes.len();
    while low < high {
        let middle = low + (high - low) / 2;
        let found = stripes[middle].number();
        if found == number {
            return Some(middle);
        }
        if found < number {
            low = middle + 1;
        } else {
            high = middle;
        }
    }
    None
}

/// Puts a stripe at its place, or in the place of one of its number.
pub(super) fn put_stripe(stripes: &mut Vec<PlacedStripe>, stripe: PlacedStripe)
    requires room { vec_len stripes.old < vec_capacity stripes.old }
    requires rising { IsRising stripes.old.items }
    ensures placed { stripes.new.items ≡ placed stripes.old.items stripe }
    ensures longer { vec_len stripes.new ≤ vec_len stripes.old + 1 }
    ensures room { vec_capacity stripes.old ≤ vec_capacity stripes.new }
{
    let number = stripe.number();
    let at = place_of(stripes, number);
    if at < stripes.len() && stripes[at].number() == number {
        stripes[at] = stripe;
    } else {
        let _ = stripes.insert(at, stripe);
    }
}

/// The first place with no lower number.
fn place_of(stripes: &[PlacedStripe], number: u32) -> usize
    requires { IsRising stripes.now }
    ensures within { result ≤ length stripes.now }
    ensures below { AllBelow number (take result stripes.now) }
    ensures reached { result < length stripes.now → (d : tables.Stripe) → number ≤ (slice_index_or stripes.now result d).number }
{
    if is_behind(stripes, number) {
        return stripes.len();
    }
    let mut at = 0;
    while at < stripes.len() && stripes[at].number() < number {
        at += 1;
    }
    at
}

/// Whether the number is above all others.
fn is_behind(stripes: &[PlacedStripe], number: u32) -> bool
    requires { IsRising stripes.now }
    ensures { IsTrue result → AllBelow number stripes.now }
{
    match stripes.last() {
        Some(last) => last.number() < number,
        None => true,
    }
}

/// No row is live on the node.
pub(super) fn lose_all(stripes: &mut [PlacedStripe], node: u8)
    ensures { stripes.new ≡ with_rows (λ x. map (without_node node) x.rows) stripes.old }
{
    for stripe in stripes.iter_mut() {
        stripe.lose(node);
    }
}

/// The row of the stripe is live on the node.
pub(super) fn restore_in(stripes: &mut [PlacedStripe], number: u32, row: u8, node: u8)
    requires { IsRising stripes.old }
    ensures { stripes.new ≡ with_row number row (live_onto node) stripes.old }
{
    if let Some(at) = index_with(stripes, number) {
        stripes[at].restore(row, node);
    }
}

/// The row of the stripe is lost where it stands.
pub(super) fn give_up_in(stripes: &mut [PlacedStripe], number: u32, row: u8)
    requires { IsRising stripes.old }
    ensures { stripes.new ≡ with_row number row given_up stripes.old }
{
    if let Some(at) = index_with(stripes, number) {
        stripes[at].give_up(row);
    }
}
