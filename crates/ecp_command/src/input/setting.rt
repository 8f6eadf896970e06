ghost use Rattle.std.specs.Prelude.{◌≡◌, ◌≤◌, length};

use std::fmt;

/// A key of the head of an input.
#[derive(Clone, Copy, Debug, PartialEq, Eq)]
pub enum Setting {
    K,
    N,
    Nodes,
    Block,
    Slice,
    Window,
    Workers,
    Path,
}

impl Setting {
    ghost use Rattle.ecp_command.specs.Input.Settings.{key};

    /// How many bytes a key has at most.
    pub const KEY_ROOM: usize = 7;

    /// The key as the head spells it.
    pub fn key(self) -> &'static str
        ensures value { result.now ≡ key self }
        ensures short { length result.now ≤ Self.KEY_ROOM }
    {
        match self {
            Setting::K => "k",
            Setting::N => "n",
            Setting::Nodes => "nodes",
            Setting::Block => "block",
            Setting::Slice => "slice",
            Setting::Window => "window",
            Setting::Workers => "workers",
            Setting::Path => "path",
        }
    }
}

impl fmt::Display for Setting {
    ghost use Rattle.std.specs.Prelude.{Some};
    ghost use Rattle.ecp_command.specs.Input.Settings.{key};

    ghost output = { λ setting. Some (key setting) };

    fn fmt<W: fmt::Write>(&self, f: &mut fmt::Formatter<W>) -> fmt::Result {
        f.write_str(self.key())
    }
}
