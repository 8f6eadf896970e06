//! The words of a command line, and numbers in words.

ghost use Rattle.std.specs.Prelude.{◌≡◌, ◌≤◌, ◌<◌, ◌↔◌, IsTrue, IfSome, IfNone, string_bytes};
ghost use Rattle.ecp_command.specs.declared.words.commands.Command.{Command};
ghost use Rattle.ecp_command.specs.Words.{IsSpelled, IsRow, texts};

mod commands;
mod numbers;

pub use commands::Command;
use ecp_shape::limits::MAX_ROWS;
pub(crate) use numbers::{number, wide_number};

/// What the words of a command line ask for, or None where they are none of the forms.
pub fn command(words: &[String]) -> Option<Command<'_>>
    ensures some { IfSome result (IsSpelled (texts words.now)) }
    ensures none { IfNone result ((c : Command) → ¬ IsSpelled (texts words.now) c) }
{
    match words {
        [word] if word.as_str() == "run" => Some(Command::Run),
        [word] if word.as_str() == "check" => Some(Command::Check),
        [word, k, n, row] if word.as_str() == "mend" => {
            let k = number(k.as_bytes())?;
            let n = number(n.as_bytes())?;
            let row = number(row.as_bytes())?;
            if is_row(k, n, row) {
                Some(Command::Mend { k, n, row })
            } else {
                None
            }
        }
        _ => None,
    }
}

// Whether the row is one that can be rebuilt under an (n, k) code.
fn is_row(k: u32, n: u32, row: u32) -> bool
    ensures { IsTrue result ↔ IsRow k n row }
{
    1 <= k && k < n && n <= MAX_ROWS && row < n
}
