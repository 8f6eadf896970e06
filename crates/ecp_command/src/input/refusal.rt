use crate::input::refusal_text::RefusalText;
use crate::input::setting::Setting;
use crate::input::subject::Subject;
use ecp_store::NoMemory;
use std::alloc::{AllocError, AllocFailed};
use std::error::Error;
use std::fmt;

/// Why an input is not accepted. Each but the last is the first fault of the input.
#[derive(Clone, Copy, Debug, PartialEq, Eq)]
pub enum Refusal {
    /// The head is no TOML document, or not UTF-8.
    NotToml,
    /// No line is `---`.
    NoRule,
    /// The key is missing without a default, has a value of another type, or one out of its range.
    Key(Setting),
    /// The head has a key at its top that is none of the settings.
    UnknownKey,
    /// The line of this number, counted from 1 over the whole input, has none of the forms or passes a
    /// limit.
    Line(u32),
    /// Memory ran out.
    NoMemory,
}

impl Refusal {
    ghost use Rattle.std.specs.Prelude.{◌≡◌, ◌≤◌, length};
    ghost use Rattle.ecp_command.specs.Input.Refusals.{refusal_text, whole_text};

    /// What is printed of it. Each refusal has its words here alone.
    pub fn text(self) -> RefusalText
        ensures text { whole_text result ≡ refusal_text self }
        ensures short { length result.words.now ≤ RefusalText.WORDS_ROOM }
    {
        let (words, subject) = match self {
            Refusal::NotToml => ("head: not TOML", Subject::Nothing),
            Refusal::NoRule => ("head: no line ---", Subject::Nothing),
            Refusal::Key(setting) => ("head:", Subject::Key(setting)),
            Refusal::UnknownKey => ("head: unknown key", Subject::Nothing),
            Refusal::Line(number) => ("line", Subject::Line(number)),
            Refusal::NoMemory => ("no memory", Subject::Nothing),
        };
        RefusalText { words, subject }
    }
}

impl fmt::Display for Refusal {
    ghost use Rattle.std.specs.Prelude.{Some};
    ghost use Rattle.ecp_command.specs.Input.Refusals.{refusal_text};

    ghost output = { λ refusal. Some (refusal_text refusal) };

    fn fmt<W: fmt::Write>(&self, f: &mut fmt::Formatter<W>) -> fmt::Result {
        let RefusalText { words, subject } = self.text();
        match subject {
            Subject::Nothing => f.write_str(words),
            Subject::Key(setting) => write!(f, "{words} {setting}"),
            Subject::Line(number) => write!(f, "{words} {number}"),
        }
    }
}

impl Error for Refusal {}

impl From<AllocError> for Refusal {
    ghost use Rattle.std.specs.Prelude.{◌≡◌};
    ghost use Rattle.ecp_command.specs.declared.input.refusal.Refusal.TheVariants.{NoMemory as MemoryCase};

    ghost from_gives = { λ _ e. e ≡ MemoryCase };

    fn from(_error: AllocError) -> Refusal {
        Refusal::NoMemory
    }
}

impl<T: Drop> From<AllocFailed<T>> for Refusal {
    ghost use Rattle.std.specs.Prelude.{◌≡◌};
    ghost use Rattle.ecp_command.specs.declared.input.refusal.Refusal.TheVariants.{NoMemory as MemoryCase};

    ghost from_gives = { λ _ e. e ≡ MemoryCase };

    fn from(_error: AllocFailed<T>) -> Refusal {
        Refusal::NoMemory
    }
}

impl From<NoMemory> for Refusal {
    ghost use Rattle.std.specs.Prelude.{◌≡◌};
    ghost use Rattle.ecp_command.specs.declared.input.refusal.Refusal.TheVariants.{NoMemory as MemoryCase};

    ghost from_gives = { λ _ e. e ≡ MemoryCase };

    fn from(_error: NoMemory) -> Refusal {
        Refusal::NoMemory
    }
}
