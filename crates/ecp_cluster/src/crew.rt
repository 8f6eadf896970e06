//! A service turns the helpers of its callers' fetches, and makes their plans anew.
ghost use Rattle.std.specs.Prelude.{◌<◌};
ghost use Rattle.ecp_coord.specs.Plans.{IsPlanned};
ghost use Rattle.ecp_requestor.specs.Crews.{Replans};

use crate::Pass;
use crate::service::Service;
use ecp_book::{Book, Names};
use ecp_coord::Replanned;
use ecp_helper::Gate;
use ecp_plan::Plan;
use ecp_requestor::Crew;
use ecp_store::Store;
use std::sync::Wait;

impl<N: Names, S: Store + Drop, G: Gate> Crew<N> for Service<N, S, G> {
    fn turn<R: Wait>(&self, rt: &R, node: u8)
        requires { node < N.shape.nodes }
    {
        let _ = self.help_turn(rt, u32::from(node));
    }

    fn replan<R: Wait>(
        &self,
        rt: &R,
        book: &Book<N>,
        pass: &mut Pass<N>,
        plan: &mut Plan<N>,
    ) -> Replanned
        requires { IsPlanned N.shape N.told pass.old plan.old }
        ensures { Replans N.shape N.told pass.old plan.old plan.new pass.new result }
    {
        self.coord.lock(rt).replan(book, pass, plan)
    }
}
