//! Plans, as far as there is no file.
ghost use Rattle.std.specs.Prelude.{◌≡◌};
ghost use Rattle.ecp_book.specs.Logs.{logs_of};

use super::{CALLERS, LOGS, Parts, SHAPE, SPARE, opened};
use crate::{Ask, NoPlan};
use ecp_book::{Blank, Names};
use ecp_entry::{Deed, Name};
use std::alloc::Global;
use std::marker::Brand;
use std::process::Abort;
use std::test::Fail;

#[test]
fn a_read_and_a_sum_of_no_file_end(rt: HostRuntime) -> Result<(), Fail> {
    let blank = Blank::new(rt.alloc(), LOGS)?;
    unplanned::<Brand, _>(&rt, rt.alloc(), blank)
}

fn unplanned<N: Names, R: Abort>(rt: &R, alloc: Global, blank: Blank) -> Result<(), Fail>
    requires book { (blank ≡ N.book) × (logs_of blank ≡ LOGS) }
    requires names { (N.callers ≡ CALLERS) × (N.spare_hands ≡ SPARE) × (N.shape ≡ SHAPE) }
{
    let Parts {
        book,
        mut coord,
        mut passes,
        nodes: _,
    } = opened::<N>(alloc, blank)?;
    let mut pass = passes.pop().ok_or("caller 1")?;
    let (name, index) = (Name::new("a"), 0);
    coord.begin(&book, &mut pass, Deed::Read { name, index })?;
    let ask = Ask::Read { name: "a", index };
    let Err(read) = coord.plan(alloc, &book, &mut pass, ask) else {
        return Err("a file".into());
    };
    coord.begin(&book, &mut pass, Deed::Sum { name, index })?;
    let ask = Ask::Sum { name: "a", index };
    let Err(sum) = coord.plan(alloc, &book, &mut pass, ask) else {
        return Err("a file".into());
    };
    assert_eq!(rt; (read, sum), (NoPlan::NoSuchFile, NoPlan::NoSuchFile));
    assert_eq!(rt; pass.front(&book).len(), 2);
    assert_eq!(rt; coord.close(&book, passes).len(), 2);
    Ok(())
}
