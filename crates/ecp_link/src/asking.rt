//! How a pop asks the senders in turn.
ghost use Rattle.std.specs.Prelude.{◌≤◌, ◌<◌, length, IfSome, IfNone};
ghost use Rattle.ecp_link.specs.Links.{TakesInTurn, NoneOfAny};
ghost use Rattle.ecp_link.specs.Among.{TakesAmong, NoneAmong};

use crate::taker_end::TakerEnd;

/// An item, and the number of its sender.
pub(crate) struct Found<T> {
    pub(crate) from: usize,
    pub(crate) item: T,
}

/// The first item of the senders from `next` on, and then of the others.
pub(crate) fn first_in_turn<T>(ends: &mut [TakerEnd<T>], next: usize) -> Option<Found<T>>
    requires { next ≤ length ends.old }
    ensures some { IfSome result (λ f. TakesInTurn next ends.old ends.new f.from f.item) }
    ensures none { IfNone result (NoneOfAny ends.old ends.new) }
{
    let last = ends.len();
    match first_among(ends, next, last) {
        Some(found) => Some(found),
        None => first_among(ends, 0, next),
    }
}

// The first item of the senders from `first` to before `last`.
fn first_among<T>(ends: &mut [TakerEnd<T>], first: usize, last: usize) -> Option<Found<T>>
    requires first { first ≤ last }
    requires last { last ≤ length ends.old }
    ensures some { IfSome result (λ f. TakesAmong first last ends.old ends.new f.from f.item) }
    ensures none { IfNone result (NoneAmong first last ends.old ends.new) }
{
    for from in first..last {
        let end = &mut ends[from];
        if end.is_empty() {
            continue;
        }
        if let Some(item) = end.take() {
            return Some(Found { from, item });
        }
    }
    None
}
