//! Spare hands that are lent to workers, and come back.
ghost use Rattle.std.specs.Prelude.{◌≡◌, ◌∷◌, ◌++◌, [], Ok};
ghost use mathlib.Core.List.{IsPrefix};
ghost use Rattle.ecp_entry.specs.Told.{items_by};
ghost use Rattle.ecp_sequencer.specs.Branches.{CanLend, HasPlace, IsBranch, Lent, acting};
ghost use Rattle.ecp_sequencer.specs.Facts.{entries_noted};
ghost use Rattle.ecp_sequencer.specs.Passes.{PassState, longer};

use crate::NoMemory;
use crate::pass::Pass;
use ecp_book::{Book, Names};
use std::alloc::Global;

impl<N: Names> Pass<N> {
    /// Lends the last of its spare hands: a branch, which is a pass of that hand, of the same caller, call and front, and
    /// knows what the call asks for.
    ///
    /// It takes no memory, so it never fails.
    pub fn branch(&mut self, alloc: Global, book: &Book<N>) -> Result<Pass<N>, NoMemory>
        requires { CanLend self.old }
        ensures { (b : PassState) × (result ≡ Ok b) × Lent self.old b self.new }
    {
        let hand = self.spare.pop().unwrap();
        Ok(Pass {
            caller: self.caller,
            calls: self.calls,
            number: self.number,
            deed: self.deed,
            front: book.copy(&mut self.front),
            hand,
            spare: Vec::new(alloc),
        })
    }

    /// Takes a branch back: its hand behind the other spare hands, and as the front the longer of the two. Takes no memory.
    ///
    /// Branches that rejoin in the reverse order of their lending put the hands in their old order.
    pub fn rejoin(&mut self, book: &Book<N>, branch: Pass<N>)
        requires branch { IsBranch N.spare_hands self.old branch }
        requires place { HasPlace N.spare_hands self.old }
        ensures joined { self.new ≡ record self.old { front = longer self.old.front branch.front; spare = self.old.spare ++ acting branch ∷ [] } }
        ensures extends { IsPrefix self.old.front self.new.front }
        ensures reaches { IsPrefix branch.front self.new.front }
        ensures noted { IsPrefix (entries_noted branch.notes) (items_by branch.hand self.new.front) }
    {
        let Pass {
            mut front,
            hand,
            ..
        } = branch;
        self.raise(book, &mut front);
        book.end_tag(front);
        self.spare.push_reserved(hand);
    }
}
