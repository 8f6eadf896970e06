//! Laws of the definitions. Each is a function with an empty body, whose contract is the law.

ghost use Rattle.std.specs.Prelude.{◌≡◌, List};
ghost use Rattle.ecp_command.specs.Input.Accepted.{Content};
ghost use Rattle.ecp_entry.specs.declared.line.Line.{Line};
ghost use Rattle.ecp_shape.specs.declared.shape.Shape.{Shape};
ghost use Rattle.ecp_service.specs.Past.{past};
ghost use Rattle.ecp_service.specs.Printed.{ArePrintable};
ghost use Rattle.ecp_service.specs.RunText.{run_text};

/// The text of a run has one journal, whatever the input: no two print it.
pub fn one_journal_is_printed()
    ensures { (s t : Shape) (x y : Content) (a b : List Line) → ArePrintable a → ArePrintable b →
        run_text x (past s x a) ≡ run_text y (past t y b) → a ≡ b }
{}
