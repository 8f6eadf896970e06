//! The calls of a session, one after another.
ghost use Rattle.std.specs.Prelude.{◌≡◌, ◌≤◌, [], IfOk, OnOk, length, vec_capacity};
ghost use mathlib.Core.List.{IsPrefix};
ghost use Rattle.ecp_sequencer.specs.Passes.{IsWhole};
ghost use Rattle.ecp_service.specs.Callers.{ServedNext};
ghost use Rattle.ecp_service.specs.Served.{AnsweredCall};
ghost use Rattle.ecp_service.specs.Servable.{EachServable, IsServable};

use ecp_book::Names;
use ecp_cluster::{Answer, Pass, Service};
use ecp_command::{Call, Planned};
use ecp_entry::Act;
use ecp_helper::Gate;
use ecp_store::{Block, NoMemory, Store};
use std::alloc::Global;
use std::sync::Wait;

/// Serves the next of these calls, as long as they are of this phase. The first of them have these answers, and there is room
/// for those of all.
pub(super) fn serve_next<N: Names, S: Store + Drop, G: Gate, R: Wait>(
    rt: &R,
    alloc: Global,
    service: &Service<N, S, G>,
    pass: &mut Pass<N>,
    calls: &[Planned],
    answers: &mut Vec<Answer>,
    phase: u32,
) -> Result<(), NoMemory>
    requires room { length calls.now ≤ vec_capacity answers.old }
    requires servable { EachServable calls.now }
    requires whole { IsWhole pass.old }
    ensures served { OnOk result (ServedNext N.shape N.told phase calls.now answers.old.items pass.old answers.new.items pass.new) }
    ensures grows { IsPrefix pass.old.front pass.new.front }
    ensures room { vec_capacity answers.new ≡ vec_capacity answers.old }
    ensures whole { IsWhole pass.new }
{
    while let Some(planned) = calls.get(answers.len()) {
        if planned.phase != phase {
            break;
        }
        answers.push_reserved(serve(rt, alloc, service, pass, &planned.call)?);
    }
    Ok(())
}

/// Serves a call, and gives its answer.
#[tactic(auto, using(crate::proofs::AnswerLaws::join_answered, crate::proofs::AnswerLaws::lose_answered))]
fn serve<N: Names, S: Store + Drop, G: Gate, R: Wait>(
    rt: &R,
    alloc: Global,
    service: &Service<N, S, G>,
    pass: &mut Pass<N>,
    call: &Call,
) -> Result<Answer, NoMemory>
    requires servable { IsServable call.now }
    requires whole { IsWhole pass.old }
    ensures answered { IfOk result (λ a. AnsweredCall N.shape N.told pass.old call.now a pass.new) }
    ensures grows { IsPrefix pass.old.front pass.new.front }
    ensures whole { IsWhole pass.new }
{
    match call {
        Call::Put { name, bytes } => {
            let act = service.put(rt, pass, name.as_str(), bytes.bytes())?;
            Ok(without_bytes(alloc, act))
        }
        Call::Read { name, index } => service.read(rt, pass, name.as_str(), *index),
        Call::Sum { name, index } => service.sum(rt, pass, name.as_str(), *index),
        Call::Cat { name } => service.cat(rt, pass, name.as_str()),
        Call::Lose { node } => {
            let act = service.lose(rt, pass, *node)?;
            Ok(without_bytes(alloc, act))
        }
        Call::Join { node } => {
            let act = service.join(rt, pass, *node)?;
            Ok(without_bytes(alloc, act))
        }
        Call::Stat { name } => {
            let act = service.stat(rt, pass, name.as_str())?;
            Ok(without_bytes(alloc, act))
        }
        Call::Rebuild { .. } => unreachable!(),
    }
}

/// The answer of a call that has no bytes, no digest and no file.
fn without_bytes(alloc: Global, act: Act) -> Answer
    ensures { (result.act ≡ act) × (result.bytes ≡ []) }
{
    Answer {
        act,
        bytes: Block::new(Vec::new(alloc)),
        by_digest: false,
        digest: [0; 32],
        len: 0,
        cause: act,
    }
}
