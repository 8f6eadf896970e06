ghost use Rattle.std.specs.Prelude.{◌≡◌, ◌+◌, ◌<◌, ◌≤◌, [], ◌∷◌, ◌++◌, length, max, slice_get, OnErr, OnOk, Some};

use ecp_entry::Line;
use ecp_store::NoMemory;
use std::alloc::Global;
use std::marker::Model;

/// The lines of the history, in their order. Room for them is taken by `reserve` alone.
#[derive(Debug, Drop)]
pub struct Journal {
    lines: Vec<Line>,
    spare: u32,
}

impl Model for Journal {
    ghost use Rattle.std.specs.Prelude.{ℕ, ◌+◌, ◌^◌, ◌<◌, ◌≤◌, vec_len, vec_capacity};
    ghost use Rattle.ecp_history.specs.Journals.{Held};

    ghost Value = { Held };

    ghost view = { λ j. record { lines = j.lines.items; spare = j.spare } };

    ghost invariant = { λ j. (vec_len j.lines + j.spare ≤ vec_capacity j.lines) × (vec_len j.lines + j.spare < 2 ^ 32) };
}

impl Journal {
    /// A journal of no lines, with no room.
    pub fn new(alloc: Global) -> Journal
        ensures lines { result.lines ≡ [] }
        ensures spare { result.spare ≡ 0 }
    {
        Journal {
            lines: Vec::new(alloc),
            spare: 0,
        }
    }

    /// Takes room, so that there is room for at least this many more lines. More lines than positions have
    /// numbers are refused as want of memory; a refusal changes nothing.
    pub fn reserve(&mut self, more: u32) -> Result<(), NoMemory>
        ensures lines { self.new.lines ≡ self.old.lines }
        ensures ok { OnOk result (self.new.spare ≡ max self.old.spare more) }
        ensures err { OnErr result (self.new.spare ≡ self.old.spare) }
    {
        if more <= self.spare {
            return Ok(());
        }
        if self.lines.len() > u32::MAX as usize - more as usize {
            return Err(NoMemory);
        }
        self.lines.reserve(more as usize)?;
        self.spare = more;
        Ok(())
    }

    /// For how many more lines there is room.
    pub fn spare(&self) -> u32
        ensures { result ≡ self.now.spare }
    {
        self.spare
    }

    /// Adds a line, in one place of the room.
    pub fn add(&mut self, line: Line)
        requires { 1 ≤ self.old.spare }
        ensures lines { self.new.lines ≡ self.old.lines ++ line ∷ [] }
        ensures spare { self.new.spare + 1 ≡ self.old.spare }
    {
        self.lines.push_reserved(line);
        self.spare -= 1;
    }

    /// How many lines it has.
    pub fn len(&self) -> u32
        ensures { result ≡ length self.now.lines }
    {
        self.lines.len() as u32
    }

    /// The line at a position.
    pub fn line(&self, at: u32) -> &Line
        requires { at < length self.now.lines }
        ensures { slice_get self.now.lines at ≡ Some result.now }
    {
        &self.lines[at as usize]
    }
}
