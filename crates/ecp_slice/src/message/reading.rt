//! What a message says, read field by field.

ghost use Rattle.std.specs.Prelude.{◌≡◌};
ghost use Rattle.ecp_slice.specs.Sound.{IsSound};

use super::SliceMsg;
use ecp_book::Names;

impl<N: Names> SliceMsg<N> {
    /// The number of its repair.
    pub fn repair(&self) -> u64
        ensures { result ≡ self.now.repair }
    {
        self.parts.repair
    }

    /// The number of its attempt, counted from 1.
    pub fn attempt(&self) -> u32
        ensures { result ≡ self.now.attempt }
    {
        self.parts.attempt
    }

    /// Which slice of the block it sums, counted from 0.
    pub fn slice(&self) -> u32
        ensures { result ≡ self.now.slice }
    {
        self.parts.slice
    }

    /// Which helpers were added: bit i is set for helper i.
    pub fn summed(&self) -> u32
        ensures { result ≡ self.now.summed }
    {
        self.parts.summed
    }

    /// The stripe of the block.
    pub fn stripe(&self) -> u32
        ensures { result ≡ self.now.stripe }
    {
        self.parts.stripe
    }

    /// The row that is made.
    pub fn row(&self) -> u8
        ensures { result ≡ self.now.row }
    {
        self.parts.row
    }

    /// How many lanes the plan has: 1, or one a helper.
    pub fn lanes(&self) -> u8
        ensures { result ≡ self.now.lanes }
    {
        self.parts.lanes
    }

    /// How many helpers were added.
    pub fn at(&self) -> u8
        ensures { result ≡ self.now.at }
    {
        self.parts.at
    }

    /// The port that it goes to once it is full.
    pub fn home(&self) -> u8
        ensures { result ≡ self.now.home }
    {
        self.parts.home
    }

    /// Where the slice begins in the block, in bytes.
    pub fn off(&self) -> u32
        ensures { result ≡ self.now.off }
    {
        self.parts.span.off
    }

    /// How many bytes the slice has.
    pub fn len(&self) -> u32
        ensures { result ≡ self.now.len }
    {
        self.parts.span.len
    }

    /// How many bytes the block has.
    pub fn block(&self) -> u32
        ensures { result ≡ self.now.block }
    {
        self.parts.block
    }

    /// How many bytes a slice has, but for a shorter last one.
    pub fn size(&self) -> u32
        ensures { result ≡ self.now.size }
    {
        self.parts.size
    }

    /// The row of each helper.
    pub fn rows(&self) -> &[u8]
        ensures { result.now ≡ self.now.rows }
    {
        &self.parts.rows
    }

    /// The node of each helper.
    pub fn nodes(&self) -> &[u8]
        ensures { result.now ≡ self.now.nodes }
    {
        &self.parts.nodes
    }

    /// The weight of each helper.
    pub fn weights(&self) -> &[u8]
        ensures { result.now ≡ self.now.weights }
    {
        &self.parts.weights
    }

    /// The sum, of as many bytes as the slice has.
    pub fn payload(&self) -> &[u8]
        ensures payload { result.now ≡ self.now.payload }
        ensures sound { IsSound N.shape N.told self.now }
    {
        &self.parts.room[..self.parts.span.len as usize]
    }
}
