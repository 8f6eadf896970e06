ghost use Rattle.std.specs.Prelude.{◌≡◌, ℕ, ◌<◌, ◌==◌, if◌then◌else◌, All, length, map, replicate, slice_index};
ghost use Rattle.std.specs.List.{list_any};
ghost use Rattle.ecp_shape.specs.declared.limits.TheConstants.{MAX_NODES};
ghost use Rattle.ecp_catalog.specs.Stamps.{IsRaised};

use ecp_book::Names;
use ecp_plan::Hop;
use ecp_shape::limits::MAX_NODES;
use std::marker::Model;

/// When each node helped last: the stamp of each node, and a counter that only rises.
#[derive(Drop)]
pub struct Stamps {
    stamps: [u64; 32],
    counter: u64,
}

impl Model for Stamps {
    ghost use Rattle.ecp_catalog.specs.Stamps.{StampsSeen};

    ghost Value = { StampsSeen };

    ghost view = { λ s. record { stamps = s.stamps; counter = s.counter } };
}

impl Stamps {
    /// The stamps of nodes that have not helped yet, and the counter at the start: all are 0.
    pub fn new() -> Stamps
        ensures { result ≡ record { stamps = replicate MAX_NODES 0; counter = 0 } }
    {
        Stamps {
            stamps: [0; MAX_NODES as usize],
            counter: 0,
        }
    }

    /// Raises the counter by one, and gives it as stamp to the nodes of these helpers. It stands still at the greatest
    /// u64.
    pub fn raise<N: Names>(&mut self, hops: &[Hop<N>])
        requires { All (λ hop. hop.node < MAX_NODES) hops.now }
        ensures { IsRaised self.old self.new (map (λ hop. hop.node) hops.now) }
    {
        self.counter = self.counter.saturating_add(1);
        give(&mut self.stamps, self.counter, hops);
    }

    /// The stamps, by the numbers of the nodes, as [`pick`](ecp_plan::pick) takes them.
    pub fn as_slice(&self) -> &[u64]
        ensures stamps { result.now ≡ self.now.stamps }
        ensures len { length result.now ≡ MAX_NODES }
    {
        &self.stamps
    }
}

/// Gives a stamp to the nodes of these helpers.
fn give<N: Names>(stamps: &mut [u64], stamp: u64, hops: &[Hop<N>])
    requires size { length stamps.old ≡ MAX_NODES }
    requires there { All (λ hop. hop.node < MAX_NODES) hops.now }
    ensures { (m : ℕ) → m < MAX_NODES →
        slice_index stamps.new m ≡ (if list_any (λ x. x == m) (map (λ hop. hop.node) hops.now) then stamp else slice_index stamps.old m) }
{
    for hop in hops {
        stamps[usize::from(hop.node)] = stamp;
    }
}
