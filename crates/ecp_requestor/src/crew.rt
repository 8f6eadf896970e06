ghost use Rattle.std.specs.Prelude.{◌<◌};
ghost use Rattle.ecp_coord.specs.Plans.{IsPlanned};
ghost use Rattle.ecp_requestor.specs.Crews.{Replans};

use ecp_book::{Book, Names};
use ecp_coord::{Pass, Replanned};
use ecp_plan::Plan;
use std::sync::Wait;

/// Who turns the helpers of a fetch, and makes its plan anew. Many threads may share one by reference.
pub trait Crew<N: Names> {
    /// Turns the helper of a node once. Nothing is promised of it: it may wait, and it may move no message.
    fn turn<R: Wait>(&self, rt: &R, node: u8)
        requires { node < N.shape.nodes };

    /// Asks whether the pass's plan still stands, and makes it the plan of the next attempt where it does not, or ends the
    /// pass's open call where there is none. It may wait. The front of the pass is then the history as the event left it.
    fn replan<R: Wait>(
        &self,
        rt: &R,
        book: &Book<N>,
        pass: &mut Pass<N>,
        plan: &mut Plan<N>,
    ) -> Replanned
        requires { IsPlanned N.shape N.told pass.old plan.old }
        ensures { Replans N.shape N.told pass.old plan.old plan.new pass.new result };
}
