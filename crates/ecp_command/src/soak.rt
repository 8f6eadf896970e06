//! The large input that a number makes.
ghost use Rattle.std.specs.Prelude.{◌≡◌, ◌<◌, [], ◌∷◌, ◌++◌, IfOk, OnOk};
ghost use Rattle.ecp_command.specs.Input.Accepted.{view};
ghost use Rattle.ecp_command.specs.Input.Calls.{planned};
ghost use Rattle.ecp_command.specs.Input.Settings.{IsInRange};
ghost use Rattle.ecp_command.specs.Soak.{soak_bytes, soak_calls, soak_cats, soak_content, soak_name, soak_puts};

use crate::generated::generate;
use crate::input::{Call, Head, Input, Planned, Session};
use ecp_history::Text;
use ecp_store::{Block, NoMemory};
use std::alloc::Global;

/// The settings of each such input.
const HEAD: Head = Head {
    k: 4,
    n: 6,
    nodes: 8,
    block: 4096,
    slice: 512,
    window: 4,
    workers: 2,
    cyclic: false,
};

/// How many sessions there are, and how many files each has.
const SESSIONS: u32 = 4;

const FILES: u32 = 4;

const PHASES: u32 = 6;

/// The input that this number makes: four sessions that put sixteen files, read them whole while a node is lost, and while
/// and after it is rebuilt. Memory is taken for its calls and for the bytes of its files.
pub fn soak_input(alloc: Global, seed: u32) -> Result<Input, NoMemory>
    ensures content { IfOk result (λ input. view input ≡ soak_content seed) }
    ensures in_range { IfOk result (λ input. IsInRange input.head) }
{
    let mut sessions = Vec::with_capacity(alloc, SESSIONS as usize)?;
    for number in 0..SESSIONS {
        let calls = calls_of(alloc, seed, number)?;
        sessions.push(Session { number, calls })?;
    }
    Ok(Input {
        head: HEAD,
        sessions,
        phases: PHASES,
    })
}

// The calls of a session.
fn calls_of(alloc: Global, seed: u32, session: u32) -> Result<Vec<Planned>, NoMemory>
    requires { session < 4 }
    ensures { IfOk result (λ calls. calls.items ≡ soak_calls seed session) }
{
    let node = seed % 8;
    let mut calls = Vec::new(alloc);
    put_files(alloc, &mut calls, seed, session)?;
    if session == 0 {
        add(&mut calls, 1, Call::Lose { node })?;
    }
    cat_files(alloc, &mut calls, 2, session)?;
    cat_files(alloc, &mut calls, 2, (session + 1) % SESSIONS)?;
    if session == 0 {
        add(&mut calls, 3, Call::Join { node })?;
    }
    if session == 1 {
        let rebuild = Call::Rebuild {
            from: node,
            to: node,
        };
        add(&mut calls, 4, rebuild)?;
    } else {
        cat_files(alloc, &mut calls, 4, session)?;
    }
    cat_files(alloc, &mut calls, 5, session)?;
    Ok(calls)
}

// One call more, in this phase.
fn add(calls: &mut Vec<Planned>, phase: u32, call: Call) -> Result<(), NoMemory>
    ensures { OnOk result (calls.new.items ≡ calls.old.items ++ planned phase call ∷ []) }
{
    calls.push(Planned { phase, call })?;
    Ok(())
}

// The session puts its files.
fn put_files(
    alloc: Global,
    calls: &mut Vec<Planned>,
    seed: u32,
    session: u32,
) -> Result<(), NoMemory>
    requires { session < 4 }
    ensures { OnOk result (calls.new.items ≡ calls.old.items ++ soak_puts seed session) }
{
    for file in FILES * session..FILES * session + FILES {
        let name = name_of(alloc, file)?;
        let bytes = bytes_of(alloc, seed, file)?;
        add(calls, 0, Call::Put { name, bytes })?;
    }
    Ok(())
}

// Files of this session are read whole in this phase.
fn cat_files(
    alloc: Global,
    calls: &mut Vec<Planned>,
    phase: u32,
    session: u32,
) -> Result<(), NoMemory>
    requires { session < 4 }
    ensures { OnOk result (calls.new.items ≡ calls.old.items ++ soak_cats phase session) }
{
    for file in FILES * session..FILES * session + FILES {
        let name = name_of(alloc, file)?;
        add(calls, phase, Call::Cat { name })?;
    }
    Ok(())
}

// The name of a file.
fn name_of(alloc: Global, file: u32) -> Result<Text, NoMemory>
    ensures { IfOk result (λ name. name ≡ soak_name file) }
{
    Ok(Text::new(format!(in alloc; "f{file}")?.into_bytes()))
}

// Its bytes.
fn bytes_of(alloc: Global, seed: u32, file: u32) -> Result<Block, NoMemory>
    requires { file < 16 }
    ensures { IfOk result (λ bytes. bytes ≡ soak_bytes seed file) }
{
    generate(
        alloc,
        u64::from(seed) + u64::from(file),
        65_536 + 1_000 * file,
    )
}
