ghost use Rattle.std.specs.Prelude.{◌≡◌, ◌<◌, [], length};
ghost use Rattle.ecp_command.specs.Input.Refusals.{refusal_text};
ghost use Rattle.ecp_service.specs.Stops.{refusal_code};

use ecp_command::{Refusal, RefusalText, Subject};
use ecp_text::LineBuffer;
use ecp_text::bytes::LINE_ROOM;
use std::alloc::AllocError;

/// What is said where the words ask for no command.
const USAGE: &[u8] = b"usage: ecpipe run | run-dir PATH | mend K N ROW | check | soak SEED";

/// Why a command stops with nothing written to its output.
#[derive(Clone, Copy, Debug, PartialEq, Eq)]
pub enum Stop {
    /// The words ask for no command.
    Usage,
    /// The input is not accepted: its first fault.
    Refused(Refusal),
    /// A read of the input failed.
    ReadFault,
    /// Memory ran out.
    NoMemory,
    /// The input has more than 16 MiB.
    TooLong,
}

impl Stop {
    ghost use Rattle.ecp_service.specs.Stops.{code_of, line_of};

    /// The status that the program ends with.
    pub fn code(self) -> u8
        ensures { result ≡ code_of self }
    {
        match self {
            Stop::Usage => 2,
            Stop::Refused(refusal) => code_of_refusal(refusal),
            Stop::ReadFault => 5,
            Stop::NoMemory => 7,
            Stop::TooLong => 8,
        }
    }

    /// The line that tells the user, with its line feed.
    pub fn line(self) -> LineBuffer
        ensures { result ≡ line_of self }
    {
        let mut line = LineBuffer::new();
        match self {
            Stop::Usage => line.put(USAGE),
            Stop::Refused(refusal) => put_refusal(&mut line, refusal),
            Stop::ReadFault => line.put(b"input: read fault"),
            Stop::NoMemory => line.put(b"no memory"),
            Stop::TooLong => line.put(b"input: too long"),
        }
        line.end_line();
        line
    }
}

fn code_of_refusal(refusal: Refusal) -> u8
    ensures { result ≡ refusal_code refusal }
{
    match refusal {
        Refusal::Line(_) => 4,
        Refusal::NoMemory => 7,
        Refusal::NoRule | Refusal::NotToml | Refusal::Key(_) | Refusal::UnknownKey => 3,
    }
}

/// Puts the text of a refusal into an empty line.
fn put_refusal(line: &mut LineBuffer, refusal: Refusal)
    requires { line.old ≡ [] }
    ensures text { line.new ≡ refusal_text refusal }
    ensures within { length line.new < LINE_ROOM }
{
    let RefusalText { words, subject } = refusal.text();
    line.put(words.as_bytes());
    match subject {
        Subject::Nothing => {}
        Subject::Key(setting) => line.put_word(setting.key().as_bytes()),
        Subject::Line(number) => line.put_number(number),
    }
}

impl From<AllocError> for Stop {
    ghost use Rattle.std.specs.Prelude.{◌≡◌};
    ghost use Rattle.ecp_service.specs.declared.stop.Stop.TheVariants.{NoMemory};

    ghost from_gives = { λ _ stop. stop ≡ NoMemory };

    fn from(_error: AllocError) -> Stop {
        Stop::NoMemory
    }
}

impl From<ecp_store::NoMemory> for Stop {
    ghost use Rattle.std.specs.Prelude.{◌≡◌};
    ghost use Rattle.ecp_service.specs.declared.stop.Stop.TheVariants.{NoMemory};

    ghost from_gives = { λ _ stop. stop ≡ NoMemory };

    fn from(_error: ecp_store::NoMemory) -> Stop {
        Stop::NoMemory
    }
}

impl From<Refusal> for Stop {
    ghost use Rattle.std.specs.Prelude.{◌≡◌};
    ghost use Rattle.ecp_service.specs.Stops.{stop_at};

    ghost from_gives = { λ refusal stop. stop ≡ stop_at refusal };

    fn from(refusal: Refusal) -> Stop {
        match refusal {
            Refusal::NoMemory => Stop::NoMemory,
            _ => Stop::Refused(refusal),
        }
    }
}
