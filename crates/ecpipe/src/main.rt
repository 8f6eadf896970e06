//! The program `ecpipe`: the commands of `ecp_service` over the standard streams and stores in memory.
#![tactic(auto)]

ghost use Rattle.std.specs.Prelude.{◌≡◌, IfOk, vec_len};
ghost use Rattle.ecp_shape.specs.declared.limits.TheConstants.{MAX_NODES};

use ecp_helper::OpenGate;
use ecp_service::{Stop, refuse, stores_in_memory, top};
use ecp_store::{MemStore, StdSink, StdSource};
use std::alloc::Global;
use std::env;
use std::env::Env;
use std::process::ExitCode;

/// The words of the command line behind the program's name. One that can't be read, as one with a word
/// that is not UTF-8, has none.
fn words(rt: &(impl Env + Alloc<A = Global>)) -> Result<Vec<String>, Stop> {
    match env::args(rt) {
        Ok(words) => Ok(words.skip(1).collect(rt.alloc())?),
        Err(_) => Ok(Vec::new(rt.alloc())),
    }
}

/// What a command works with: the words and the stores.
fn given(rt: &(impl Env + Alloc<A = Global>)) -> Result<(Vec<String>, Vec<MemStore>), Stop>
    ensures { IfOk result (λ g. vec_len g.1 ≡ MAX_NODES) }
{
    Ok((words(rt)?, stores_in_memory(rt.alloc())?))
}

/// Ends with the status of the command.
fn main(rt: HostRuntime) -> ExitCode {
    let alloc = rt.alloc();
    let mut input = StdSource::new(rt.stdin());
    let mut out = StdSink::new(rt.stdout());
    let mut diag = StdSink::new(rt.stderr());
    let status = match given(&rt) {
        Ok((words, stores)) => {
            let (status, _) = top(
                &rt, alloc, &words, &mut input, &mut out, &mut diag, stores, &OpenGate,
            );
            status
        }
        Err(stop) => refuse(&mut diag, stop),
    };
    ExitCode::from(status)
}
