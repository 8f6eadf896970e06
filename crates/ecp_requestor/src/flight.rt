ghost use Rattle.std.specs.Prelude.{◌≡◌, ◌≤◌};
ghost use Rattle.ecp_plan.specs.Order.{slice_count};
ghost use Rattle.ecp_plan.specs.Plans.{IsSound};

use crate::port::Port;
use ecp_book::{Book, Names};
use ecp_link::Pushed;
use ecp_plan::Plan;
use ecp_slice::{Cancel, SliceMsg};
use ecp_store::NoMemory;
use std::alloc::Global;

/// The messages of one attempt: those that are ready to go, the first one last, and which slice has none yet. No more are
/// under way than it has places for.
#[derive(Drop)]
pub(crate) struct Flight<N: Names> {
    cancel: Cancel,
    next: u32,
    ready: Vec<SliceMsg<N>>,
}

impl<N: Names> Flight<N> {
    /// The messages of the first slices of a plan, at most `window`, on a new cancel word. They go home to port `home`. The
    /// plan stays as it is.
    ///
    /// This is its only call that takes memory. Want of memory is the only error.
    pub(crate) fn begin(
        alloc: Global,
        book: &Book<N>,
        plan: &mut Plan<N>,
        window: u32,
        home: u8,
    ) -> Result<Flight<N>, NoMemory>
        requires { IsSound N.shape N.told plan.old }
        ensures { plan.new ≡ plan.old }
    {
        let first = window.min(plan.slices());
        let mut cancel = Cancel::new(alloc)?;
        let mut ready = Vec::with_capacity(alloc, first as usize)?;
        for place in 0..first {
            let slice = first - 1 - place;
            ready.push(SliceMsg::start(alloc, book, plan, slice, &mut cancel, home)?)?;
        }
        Ok(Flight {
            cancel,
            next: first,
            ready,
        })
    }

    /// Sends what is ready, until a link has no room.
    pub(crate) fn send(&mut self, port: &mut Port<N>) {
        while let Some(message) = self.ready.pop() {
            match port.send(message) {
                Pushed::Ok => {}
                Pushed::Full(message) => {
                    self.ready.push_reserved(message);
                    return;
                }
            }
        }
    }

    /// Begins the next of `slices` slices with a message that came home and was taken. Where each has had one, the message
    /// is dropped.
    pub(crate) fn restart(&mut self, slices: u32, mut message: SliceMsg<N>)
        requires { slices ≡ slice_count message.block message.size }
    {
        if self.next < slices && self.ready.len() < self.ready.capacity() {
            message.restart_for(self.next);
            self.next += 1;
            self.ready.push_reserved(message);
        }
    }

    /// Whether the attempt was given up.
    pub(crate) fn is_cancelled(&mut self) -> bool {
        self.cancel.read() != 0
    }
}
