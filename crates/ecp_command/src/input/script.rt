ghost use Rattle.std.specs.Prelude.{◌<◌, ◌+◌, ◌^◌, length, IfOk, IfErr, OnOk};
ghost use Rattle.ecp_command.specs.Input.Lines.{lines, numbered};
ghost use Rattle.ecp_command.specs.Input.Settings.{IsInRange};

use crate::input::forms::form_of;
use crate::input::head::Head;
use crate::input::limits::{no_lines, with_line};
use crate::input::lines::{is_skipped, next_line};
use crate::input::numbered::Numbered;
use crate::input::refusal::Refusal;
use crate::input::totals::Totals;
use std::alloc::Global;

/// The lines of a script that were read: those that are not skipped, and what they come to.
#[derive(Debug, Drop)]
pub(crate) struct Script {
    pub forms: Vec<Numbered>,
    pub totals: Totals,
}

impl Script {
    ghost use Rattle.ecp_command.specs.Input.Script.{HasRead, MayRefuseForm, ReadsLine, MayRefuseLine};

    /// Reads the lines of a script, the first of which has this number, up to the first one that is
    /// refused.
    pub(crate) fn read(
        alloc: Global,
        head: &Head,
        text: &[u8],
        first: u32,
    ) -> Result<Script, Refusal>
        requires in_range { IsInRange head.now }
        requires room { first + length text.now < 2 ^ 32 }
        ensures read { IfOk result (λ s. HasRead head.now (numbered first (lines text.now)) s) }
        ensures refused { IfErr result (MayRefuseForm head.now (numbered first (lines text.now))) }
    {
        let mut script = Script {
            forms: Vec::new(alloc),
            totals: no_lines(head),
        };
        let mut rest = text;
        let mut number = first;
        'lines: while !rest.is_empty() {
            let (line, after) = next_line(rest);
            script.read_line(alloc, head, number, line)?;
            rest = after;
            number += 1;
        }
        Ok(script)
    }

    // Reads one more line.
    fn read_line(
        &mut self,
        alloc: Global,
        head: &Head,
        number: u32,
        line: &[u8],
    ) -> Result<(), Refusal>
        requires { IsInRange head.now }
        ensures read { OnOk result (ReadsLine head.now number line.now self.old self.new) }
        ensures refused { IfErr result (MayRefuseLine head.now number line.now self.old) }
    {
        if is_skipped(line) {
            return Ok(());
        }
        let Some(form) = form_of(alloc, line)? else {
            return Err(Refusal::Line(number));
        };
        let Some(totals) = with_line(head, &self.totals, &form) else {
            return Err(Refusal::Line(number));
        };
        self.forms.push(Numbered { line: number, form })?;
        self.totals = totals;
        Ok(())
    }
}
