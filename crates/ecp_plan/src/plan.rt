use crate::hop::Hop;
use crate::order::slices;
use crate::target::Target;
use crate::voids::Voids;
use ecp_book::{Names, Tag};
use ecp_history::Part;

/// How one block is made: which rows help, with which weights, and along how many lanes its slices pass.
///
/// A direct plan has the row itself as its one helper, with weight 1.
#[derive(Drop)]
pub struct Plan<N: Names> {
    /// The number of the repair, counted from 0.
    pub repair: u64,
    /// The number of the attempt of this repair, counted from 1.
    pub attempt: u32,
    /// The part of its call that it makes the block for.
    pub part: Part,
    /// The stripe of the block.
    pub stripe: u32,
    /// The row that is made.
    pub row: u8,
    /// How many lanes there are: 1, or one a helper.
    pub lanes: u8,
    /// The helpers, in rising order of their rows.
    pub hops: Vec<Hop<N>>,
    /// How many bytes a block has.
    pub block: u32,
    /// How many bytes a slice has, but for a shorter last one.
    pub slice: u32,
    /// The length of the history when the attempt was planned.
    pub point: u32,
    /// The history when the attempt was planned.
    pub front: Tag<N>,
    /// Where the block is to be kept, if it is.
    pub to: Option<Target>,
    /// At which positions earlier attempts came to nothing.
    pub voids: Voids,
}

impl<N: Names> Plan<N> {
    ghost use Rattle.std.specs.Prelude.{◌≡◌};
    ghost use Rattle.ecp_plan.specs.Order.{slice_count};
    ghost use Rattle.ecp_plan.specs.Plans.{IsSound};

    /// How many slices the block has.
    pub fn slices(&self) -> u32
        requires { IsSound N.shape N.told self.now }
        ensures { result ≡ slice_count self.now.block self.now.slice }
    {
        slices(self.block, self.slice)
    }
}
