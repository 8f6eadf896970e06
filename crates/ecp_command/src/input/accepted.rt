ghost use Rattle.std.specs.Prelude.{◌≤◌, length, IfOk, IfErr};
ghost use Rattle.ecp_shape.specs.declared.limits.TheConstants.{MAX_INPUT};
ghost use Rattle.ecp_command.specs.Input.Accepted.{IsAccepted, MayRefuse, view};
ghost use Rattle.ecp_command.specs.Input.Settings.{IsInRange};

use crate::input::Input;
use crate::input::costs::line_over;
use crate::input::lines::divide;
use crate::input::refusal::Refusal;
use crate::input::script::Script;
use crate::input::sessions::sessions_with_calls;
use crate::input::settings::read_head;
use std::alloc::Global;

/// Reads an input of at most [`MAX_INPUT`](ecp_shape::limits::MAX_INPUT) bytes: a head, a line `---` and a script.
///
/// What the input asks for is copied out of the bytes, which are read once for their lines. On a
/// refusal nothing is kept. Of the faults of an input the first one is answered: that there is no
/// rule, then that the head is no document, then the keys in their order, then an unknown key, then
/// the lines in theirs, and last the costs of the lines.
pub fn read_input(alloc: Global, bytes: &[u8]) -> Result<Input, Refusal>
    requires { length bytes.now ≤ MAX_INPUT }
    ensures accepted { IfOk result (λ input. IsAccepted bytes.now (view input)) }
    ensures in_range { IfOk result (λ input. IsInRange input.head) }
    ensures refused { IfErr result (MayRefuse bytes.now) }
{
    let Some(parts) = divide(bytes) else {
        return Err(Refusal::NoRule);
    };
    let head = read_head(alloc, parts.head)?;
    let script = Script::read(alloc, &head, parts.script, parts.first)?;
    if let Some(line) = line_over(alloc, &head, &script.forms)? {
        return Err(Refusal::Line(line));
    }
    let schedule = sessions_with_calls(alloc, script.forms)?;
    Ok(Input {
        head,
        sessions: schedule.sessions,
        phases: schedule.phases,
    })
}
