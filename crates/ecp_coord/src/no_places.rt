ghost use Rattle.std.specs.Prelude.{◌≡◌};
ghost use Rattle.ecp_coord.specs.Puts.{refusal_of};

use ecp_entry::Act;

/// Why a put gets no places.
#[derive(Clone, Copy, Debug, PartialEq, Eq)]
pub enum NoPlaces {
    /// A file has the name.
    NameTaken,
    /// So many nodes are up, fewer than a stripe has rows.
    TooFewNodes(u32),
    /// Want of memory, or of stripe numbers.
    NoMemory,
}

impl NoPlaces {
    /// The act that says so in the history, where there is one.
    pub(crate) fn act(self) -> Option<Act>
        ensures { result ≡ refusal_of self }
    {
        match self {
            NoPlaces::NameTaken => Some(Act::NameTaken),
            NoPlaces::TooFewNodes(up) => Some(Act::TooFewNodes(up)),
            NoPlaces::NoMemory => None,
        }
    }
}
