//! The work of a helper on a message.

ghost use Rattle.std.specs.Prelude.{◌≡◌, ◌≤◌, length, slice_index, Ok, Err, IfErr, OnOk, OnErr};
ghost use Rattle.ecp_slice.specs.Messages.{HasNext, next_hop};
ghost use Rattle.ecp_helper.specs.Steps.{Adds, Reads};

use ecp_book::{Book, Names};
use ecp_node::{Node, NodeRead};
use ecp_slice::SliceMsg;
use ecp_store::Store;

/// Reads the slice of the message that its next helper has, into the front of the buffer, and adds it to the message.
///
/// After an error the message is as it was.
pub(crate) fn add_next<N: Names, S: Store>(
    book: &Book<N>,
    node: &mut Node<N, S>,
    message: &mut SliceMsg<N>,
    buffer: &mut [u8],
) -> Result<(), NodeRead>
    requires more { HasNext message.old }
    requires node { node.old.number ≡ slice_index message.old.nodes (next_hop message.old) }
    requires len { message.old.len ≤ length buffer.old }
    ensures added { OnOk result (Adds N.told S.tells node.old node.new message.old message.new) }
    ensures refused { IfErr result (λ e. Reads (Err e) node.old node.new message.old) }
    ensures kept { OnErr result (message.new ≡ message.old) }
{
    let hop = message.next_hop();
    let bytes = &mut buffer[..message.len() as usize];
    message.read_from(book, node, bytes)?;
    message.add(hop, bytes);
    Ok(())
}
