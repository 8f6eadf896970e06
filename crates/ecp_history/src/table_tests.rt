ghost use Rattle.std.specs.Prelude.{◌≡◌, [], IsSome, IsTrue};
ghost use Rattle.ecp_history.specs.table.Tables.{standing_of};

use crate::{Act, Deed, Entry, File, Line, Name, Part, Shape, Table, Text};
use ecp_store::{Block, NoMemory};
use std::alloc::Global;
use std::process::Abort;
use std::test::Fail;

/// What happens to the one stripe of a table.
#[derive(Clone, Copy)]
enum Step {
    Stay,
    Lose(u32),
    Join(u32),
    Restore(u8, u8),
    GiveUp(u8),
}

/// What is seen of a table of three nodes and one stripe of three rows.
#[derive(Clone, Copy)]
struct Seen {
    live: [bool; 3],
    live_on: [u32; 3],
    live_rows: usize,
    up: [bool; 3],
    inc: [u32; 3],
    up_count: u32,
    up_mask: u32,
}

/// An entry with no name and no bytes.
fn entry_of(alloc: Global, caller: u8, deed: Option<Deed>, part: Part, act: Act) -> Entry
    ensures { result ≡ record { line = record { caller = caller; call = 0; part = part; point = 0; act = act }; deed = deed; name = []; bytes = [] } }
{
    let line = Line {
        caller,
        call: 0,
        part,
        point: 0,
        act,
    };
    Entry {
        line,
        deed,
        name: Text::new(Vec::new(alloc)),
        bytes: Block::new(Vec::new(alloc)),
    }
}

/// A table of three nodes with the file `a` of two bytes.
fn with_file(alloc: Global) -> Result<Table, NoMemory> {
    let shape = Shape {
        n: 3,
        k: 2,
        nodes: 3,
        block: 1,
    };
    let mut table = Table::new(alloc, shape)?;
    let act = Act::Stored {
        first: 0,
        stripes: 1,
        up: 7,
    };
    let deed = Deed::Put {
        name: Name::new("a"),
        len: 2,
    };
    let mut entry = entry_of(alloc, 0, Some(deed), Part::End, act);
    entry.name = Text::new(vec![in alloc; 0x61]?);
    entry.bytes = Block::new(vec![in alloc; 0x41, 0x42]?);
    table.after(&entry)?;
    Ok(table)
}

fn lose(rt: &impl Abort, alloc: Global, table: &mut Table, node: u32) -> Result<(), NoMemory> {
    assert!(rt; node < table.shape().nodes);
    let deed = Deed::Lose { node };
    table.after(&entry_of(alloc, 0, Some(deed), Part::End, Act::Lost(1)))
}

fn join(rt: &impl Abort, alloc: Global, table: &mut Table, node: u32) -> Result<(), NoMemory> {
    assert!(rt; node < table.shape().nodes);
    assert!(rt; table.incarnation(node) == 0);
    let deed = Deed::Join { node };
    table.after(&entry_of(alloc, 0, Some(deed), Part::End, Act::Joined(1)))
}

/// Whether the stripe has this row.
fn has_row(table: &Table, row: u8) -> bool
    ensures { IsTrue result → IsSome (standing_of table.now.table 0 row) }
{
    table.is_live(0, row) || table.is_lost(0, row)
}

fn restore(
    rt: &impl Abort,
    alloc: Global,
    table: &mut Table,
    row: u8,
    node: u8,
) -> Result<(), NoMemory> {
    assert!(rt; has_row(table, row));
    assert!(rt; u32::from(node) < table.shape().nodes);
    let deed = Deed::Rebuild { from: 0, to: 0 };
    let act = Act::Restored {
        stripe: 0,
        row,
        node,
        inc: 1,
    };
    table.after(&entry_of(alloc, 0, Some(deed), Part::Part(1), act))
}

fn give_up(rt: &impl Abort, alloc: Global, table: &mut Table, row: u8) -> Result<(), NoMemory> {
    assert!(rt; has_row(table, row));
    let act = Act::Drop { stripe: 0, row };
    table.after(&entry_of(alloc, 9, None, Part::End, act))
}

fn take(rt: &impl Abort, alloc: Global, table: &mut Table, step: Step) -> Result<(), NoMemory> {
    match step {
        Step::Stay => Ok(()),
        Step::Lose(node) => lose(rt, alloc, table, node),
        Step::Join(node) => join(rt, alloc, table, node),
        Step::Restore(row, node) => restore(rt, alloc, table, row, node),
        Step::GiveUp(row) => give_up(rt, alloc, table, row),
    }
}

/// The only byte of a row of the stripe.
fn byte_of(rt: &impl Abort, table: &Table, row: u8) -> Result<u8, NoMemory> {
    assert!(rt; has_row(table, row));
    assert!(rt; u32::from(row) < table.shape().n);
    let block = table.row(0, row)?;
    assert!(rt; block.len() == 1);
    Ok(block.bytes()[0])
}

fn shows(rt: &impl Abort, table: &Table, want: &Seen) -> Result<(), NoMemory> {
    let bytes = [0x41, 0x42, 0x47];
    for i in 0..3u8 {
        let at = usize::from(i);
        assert_eq!(rt; table.is_live(0, i), want.live[at]);
        assert_eq!(rt; table.is_lost(0, i), !want.live[at]);
        assert_eq!(rt; byte_of(rt, table, i)?, bytes[at]);
        let node = u32::from(i);
        assert_eq!(rt; table.live_on(node), want.live_on[at]);
        assert_eq!(rt; table.is_up(node), want.up[at]);
        assert_eq!(rt; table.incarnation(node), want.inc[at]);
    }
    assert_eq!(rt; table.live_rows(0), want.live_rows);
    assert_eq!(rt; table.up_count(), want.up_count);
    assert_eq!(rt; table.up_mask(), want.up_mask);
    Ok(())
}

const ALL: Seen = Seen {
    live: [true; 3],
    live_on: [1; 3],
    live_rows: 3,
    up: [true; 3],
    inc: [0; 3],
    up_count: 3,
    up_mask: 7,
};

const LOST: Seen = Seen {
    live: [false, true, true],
    live_on: [0, 1, 1],
    live_rows: 2,
    up: [false, true, true],
    inc: [0; 3],
    up_count: 2,
    up_mask: 6,
};

const JOINED: Seen = Seen {
    live: [false, true, true],
    live_on: [0, 1, 1],
    live_rows: 2,
    up: [true; 3],
    inc: [1, 0, 0],
    up_count: 3,
    up_mask: 7,
};

const RESTORED: Seen = Seen {
    live: [true; 3],
    live_on: [1; 3],
    live_rows: 3,
    up: [true; 3],
    inc: [1, 0, 0],
    up_count: 3,
    up_mask: 7,
};

const GIVEN_UP: Seen = Seen {
    live: [true, false, true],
    live_on: [1, 0, 1],
    live_rows: 2,
    up: [true; 3],
    inc: [1, 0, 0],
    up_count: 3,
    up_mask: 7,
};

#[test]
fn keeps_the_table_through_acts(rt: HostRuntime) -> Result<(), Fail> {
    let steps = [
        (Step::Stay, ALL),
        (Step::Lose(0), LOST),
        (Step::Join(0), JOINED),
        (Step::Restore(0, 0), RESTORED),
        (Step::GiveUp(1), GIVEN_UP),
    ];
    let mut table = with_file(rt.alloc())?;
    for (step, want) in steps {
        take(&rt, rt.alloc(), &mut table, step)?;
        shows(&rt, &table, &want)?;
    }
    Ok(())
}

#[test]
fn finds_a_file_and_its_counts(rt: HostRuntime) -> Result<(), Fail> {
    let table = with_file(rt.alloc())?;
    let name = Name::new(Text::new(vec![in rt.alloc(); 0x61]?).as_str());
    let file = File {
        name,
        len: 2,
        first: 0,
        stripes: 1,
    };
    assert_eq!(rt; table.file(&name), Some(file));
    assert_eq!(rt; table.file(&Name::new("b")), None);
    assert_eq!(rt; table.block_count(&file), 2);
    assert_eq!(rt; table.stripe_count(3), 2);
    Ok(())
}
