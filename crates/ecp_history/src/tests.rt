use crate::{Act, Journal, Line, Part};
use std::test::Fail;

#[test]
fn keeps_lines(rt: HostRuntime) -> Result<(), Fail> {
    let line = Line {
        caller: 0,
        call: 0,
        part: Part::End,
        point: 0,
        act: Act::NoSuchFile,
    };
    let mut journal = Journal::new(rt.alloc());
    journal.reserve(2)?;
    journal.add(line);
    assert_eq!(rt; journal.len(), 1);
    assert_eq!(rt; journal.spare(), 1);
    assert_eq!(rt; *journal.line(0), line);
    Ok(())
}
