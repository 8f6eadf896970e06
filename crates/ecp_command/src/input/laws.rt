ghost use Rattle.std.specs.Prelude.{◌≡◌, ◌≢◌, ℕ, List};
ghost use Rattle.ecp_command.specs.Input.Accepted.{Content, IsAccepted, MayRefuse};
ghost use Rattle.ecp_command.specs.declared.input.refusal.Refusal.{Refusal};
ghost use Rattle.ecp_command.specs.declared.input.refusal.Refusal.TheVariants.{NoMemory};

/// A law: an input that is accepted has one content and no refusal but want of memory, and an input has
/// one first refusal at most. So `read_input` answers Ok exactly for the accepted inputs, unless memory
/// runs out. It does nothing.
pub fn one_reading()
    ensures content { (input : List ℕ) (a b : Content) → IsAccepted input a → IsAccepted input b → a ≡ b }
    ensures accepted { (input : List ℕ) (a : Content) (refusal : Refusal) →
        refusal ≢ NoMemory → IsAccepted input a → MayRefuse input refusal → ⊥ }
    ensures refused { (input : List ℕ) (a b : Refusal) →
        a ≢ NoMemory → b ≢ NoMemory → MayRefuse input a → MayRefuse input b → a ≡ b }
{}
