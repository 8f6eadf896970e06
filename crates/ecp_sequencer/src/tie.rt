ghost use Rattle.std.specs.Prelude.{◌≡◌, ◌-◌, ◌^◌, ◌<◌, [], length};
ghost use Rattle.ecp_sequencer.specs.Ties.{AreEnds, new_end, with_item};

use ecp_book::{Book, Entered, Keeper, Names, Tag};
use std::marker::Model;
use std::mem;

/// One end of a tie: the keeper of one log, and a tag on the other, with the same list.
///
/// Each side has one end. Both logs have the same list whenever neither side is within a call.
#[derive(Drop)]
pub(crate) struct Tie<N: Names> {
    keeper: Keeper<N>,
    tag: Tag<N>,
}

impl<N: Names> Model for Tie<N> {
    ghost use Rattle.std.specs.Prelude.{◌≡◌};
    ghost use Rattle.ecp_sequencer.specs.Ties.{TieState};

    ghost Value = { TieState };

    ghost view = { λ t. record { speaks = t.keeper.log; hears = t.tag.log; items = t.keeper.items } };

    ghost invariant = { λ t. t.tag.items ≡ t.keeper.items };
}

impl<N: Names> Tie<N> {
    /// The two ends of a tie by two logs that are empty. The first speaks by the first log.
    pub(crate) fn pair(book: &Book<N>, mut one: Keeper<N>, mut other: Keeper<N>) -> (Self, Self)
        requires one { one.items ≡ [] }
        requires other { other.items ≡ [] }
        ensures one { result.0 ≡ new_end one.log other.log }
        ensures other { result.1 ≡ new_end other.log one.log }
    {
        let heard = book.tag(&mut other);
        let spoken = book.tag(&mut one);
        (
            Tie {
                keeper: one,
                tag: heard,
            },
            Tie {
                keeper: other,
                tag: spoken,
            },
        )
    }

    /// How many items it has.
    pub(crate) fn len(&self) -> u32
        ensures { result ≡ length self.now.items }
    {
        self.keeper.len()
    }

    /// Shows that both ends have the same list.
    #[tactic(auto, using(ecp_book::proofs::Prefixes::prefix_both))]
    pub(crate) fn meet(&mut self, book: &Book<N>, end: &mut Tie<N>)
        requires { AreEnds self.old end.old }
        ensures same { self.old.items ≡ end.old.items }
        ensures kept { self.new ≡ self.old }
        ensures end { end.new ≡ end.old }
    {
        book.meet(&mut self.keeper, &mut end.tag);
        book.meet(&mut end.keeper, &mut self.tag);
    }

    /// Adds an item at both ends.
    pub(crate) fn note<E: Entered>(&mut self, book: &Book<N>, end: &mut Tie<N>, what: &E)
        requires ends { AreEnds self.old end.old }
        requires same { self.old.items ≡ end.old.items }
        requires places { length self.old.items < 2 ^ 32 - 1 }
        ensures added { self.new ≡ with_item self.old (E.item what.now) }
        ensures end { end.new ≡ with_item end.old (E.item what.now) }
    {
        book.append(&mut self.keeper, what);
        book.append(&mut end.keeper, what);
        let ours = book.tag(&mut self.keeper);
        let theirs = book.tag(&mut end.keeper);
        book.end_tag(mem::replace(&mut self.tag, theirs));
        book.end_tag(mem::replace(&mut end.tag, ours));
    }
}
