//! The law of full messages, proved as the contract of a call that does nothing.

ghost use Rattle.std.specs.Prelude.{◌≡◌, true};
ghost use Rattle.ecp_shape.specs.declared.shape.Shape.{Shape};
ghost use Rattle.ecp_history.specs.Fronts.{told_table};
ghost use Rattle.ecp_history.specs.table.Tables.{block};
ghost use Rattle.ecp_slice.specs.Messages.{Message, IsFull, slice_of};
ghost use Rattle.ecp_slice.specs.Sound.{IsSound};

/// Where payloads are told, a sound message that is full has its slice of the block that it is of: that of its stripe and
/// row in the table that its front tells.
pub fn full_messages_have_the_block()
    ensures { (shape : Shape) (m : Message) → IsSound shape true m → IsFull m → m.payload ≡ slice_of m (block (told_table shape m.front) m.stripe m.row) }
{}
