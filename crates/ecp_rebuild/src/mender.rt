ghost use Rattle.std.specs.Prelude.{◌≡◌, [], ◌∷◌, ◌++◌};
ghost use Rattle.ecp_rebuild.specs.Tasks.{HasNoPart};

use crate::outcome::Outcome;
use ecp_history::Task;
use std::alloc::Global;
use std::sync::Wait;

/// Does the tasks of a rebuild, each by one hand. Many threads share one by reference.
pub trait Mender {
    ghost use Rattle.std.specs.Prelude.{List};
    ghost use Rattle.ecp_rebuild.specs.Tasks.{Did};
    ghost use Rattle.ecp_rebuild.specs.declared.outcome.Outcome.{Outcome};
    ghost use Rattle.ecp_history.specs.declared.task.Task.{Task};

    /// Whoever does tasks: one at a time, and in one thread at a time.
    type Hand: Drop;

    /// What tells one hand from another.
    ghost Identity: { Type 0 };

    /// Who a hand is.
    ghost who: { Self.Hand → Identity };

    /// What a hand has done, the oldest first.
    ghost did: { Self.Hand → List Did };

    /// Which hands are fit for this mender.
    ghost fit: { Self → Self.Hand → Type 0 };

    /// Which tasks this mender takes.
    ghost takes: { Self → Task → Type 0 };

    /// Which outcomes answer a task.
    ghost answers: { Self → Task → Outcome → Type 0 };

    /// Does a task by this hand, which has done none of that part.
    ///
    /// May wait. Where memory runs out, it says so as the outcome.
    fn mend<R: Wait>(&self, rt: &R, alloc: Global, hand: &mut Self::Hand, task: Task) -> Outcome
        requires fit { fit self.now hand.old }
        requires takes { takes self.now task }
        requires fresh { HasNoPart (did hand.old) task.part }
        ensures fit { fit self.now hand.new }
        ensures same { who hand.new ≡ who hand.old }
        ensures did { did hand.new ≡ did hand.old ++ (task, result) ∷ [] }
        ensures answers { answers self.now task result };
}
