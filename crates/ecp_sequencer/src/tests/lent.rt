//! A spare hand that is told of its caller's call, is lent as a branch, and comes back.
ghost use Rattle.std.specs.Prelude.{◌≡◌, ℕ, [], ◌∷◌, map, OnOk};
ghost use Rattle.ecp_book.specs.Logs.{logs_of};
ghost use Rattle.ecp_sequencer.specs.Branches.{CanLend};
ghost use Rattle.ecp_sequencer.specs.Passes.{first_pass};

use super::calls::Plan;
use super::{CALLERS, LOGS, NODES, SPARE, opened};
use crate::{Pass, Sequencer};
use ecp_book::{Blank, Book, Names};
use ecp_entry::Deed;
use std::alloc::Global;
use std::marker::Brand;
use std::process::Abort;
use std::test::Fail;

/// Caller 1 begins a call, at its own hand and at its spare one.
fn begin<N: Names>(
    book: &Book<N>,
    sequencer: &mut Sequencer<N>,
    pass: &mut Pass<N>,
) -> Result<(), Fail>
    requires { pass.old ≡ first_pass SPARE 1 }
    ensures lend { OnOk result (CanLend pass.new) }
    ensures own { OnOk result ((pass.new.caller ≡ 1) × (pass.new.hand ≡ 2)) }
    ensures spare { OnOk result (map (λ h. h.hand) pass.new.spare ≡ 3 ∷ []) }
{
    sequencer.gather(book, pass);
    sequencer.begin(book, pass, Deed::Lose { node: 7 })?;
    sequencer.gather(book, pass);
    sequencer.call_spares(book, pass)?;
    Ok(())
}

/// The spare hand works on the call, comes back, and the call is over for it.
fn lend<N: Names, R: Abort>(
    rt: &R,
    alloc: Global,
    book: &Book<N>,
    sequencer: &mut Sequencer<N>,
    pass: &mut Pass<N>,
) -> Result<(), Fail>
    requires names { N.spare_hands ≡ SPARE }
    requires lend { CanLend pass.old }
    requires own { (pass.old.caller ≡ 1) × (pass.old.hand ≡ 2) }
    requires spare { map (λ h. h.hand) pass.old.spare ≡ 3 ∷ [] }
{
    let mut branch = pass.branch(alloc, book)?;
    assert_eq!(rt; (branch.caller(), branch.hand(), branch.calls()), (1, 3, 1));
    assert_eq!(rt; branch.deed(), Some(Deed::Lose { node: 7 }));
    sequencer.meet(book, &mut branch);
    sequencer.note_taking(book, &mut branch, &Plan(5))?;
    pass.rejoin(book, branch);
    sequencer.gather(book, pass);
    sequencer.release(book, pass);
    Ok(())
}

#[test]
fn a_spare_hand_is_lent_and_comes_back(rt: HostRuntime) -> Result<(), Fail> {
    let blank = Blank::new(rt.alloc(), LOGS)?;
    lent::<Brand, _>(&rt, rt.alloc(), blank)
}

fn lent<N: Names, R: Abort>(rt: &R, alloc: Global, blank: Blank) -> Result<(), Fail>
    requires book { (blank ≡ N.book) × (logs_of blank ≡ LOGS) }
    requires names { (N.callers ≡ CALLERS) × (N.spare_hands ≡ SPARE) × (N.shape.nodes ≡ NODES) }
{
    let (book, history, ties) = opened::<N>(alloc, blank)?;
    let (mut sequencer, mut passes) = Sequencer::new(alloc, &book, history, ties, CALLERS, SPARE)?;
    let mut pass = passes.pop().ok_or("caller 1")?;
    begin(&book, &mut sequencer, &mut pass)?;
    lend(rt, alloc, &book, &mut sequencer, &mut pass)?;
    assert_eq!(rt; (pass.hand(), pass.calls()), (2, 1));
    assert_eq!(rt; sequencer.close(&book, passes).len(), 0);
    Ok(())
}
