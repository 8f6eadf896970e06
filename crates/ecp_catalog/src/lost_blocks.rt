//! The tasks of a rebuild, one for each block that is lost and stands on a node.

ghost use Rattle.std.specs.Prelude.{◌≡◌, ◌+◌, ◌*◌, ◌^◌, ◌<◌, ◌≤◌, length, map, OnOk};
ghost use Rattle.ecp_shape.specs.Range.{IsInRange};
ghost use Rattle.ecp_shape.specs.declared.limits.TheConstants.{MAX_ROWS};
ghost use Rattle.ecp_catalog.specs.Kept.{IsFile};
ghost use Rattle.ecp_catalog.specs.LostBlocks.{lost_between, lost_by, with_tasks};

use crate::node_list::stands;
use crate::node_row::NodeRow;
use crate::span::Span;
use crate::stored_file::StoredFile;
use ecp_book::Names;
use ecp_history::Task;
use ecp_node::Receipt;
use ecp_shape::Shape;
use ecp_store::NoMemory;

/// Puts the tasks of the stripes of a file whose numbers are in a span behind the others, in the order of the stripes.
pub(crate) fn put_stripes<N: Names>(
    tasks: &mut Vec<Task>,
    nodes: &[NodeRow],
    node: u32,
    file: &StoredFile<N>,
    shape: Shape,
    span: Span,
) -> Result<(), NoMemory>
    requires range { IsInRange shape }
    requires kept { IsFile shape file.now }
    requires first { file.now.file.first ≤ span.first }
    requires end { span.end ≤ file.now.file.first + file.now.file.stripes }
    requires few { length tasks.old.items ≤ span.first * shape.n }
    ensures { OnOk result (tasks.new.items ≡ with_tasks tasks.old.items (lost_between (map (λ x. x.node) nodes.now) node shape.n file.now span.first span.end)) }
{
    let n = shape.n as usize;
    for stripe in span.first..span.end {
        let at = (stripe - file.file().first) as usize * n;
        put_rows(tasks, nodes, node, stripe, file.rows(at, n))?;
    }
    Ok(())
}

/// Puts the tasks of the rows of a stripe behind the others, in the order of the rows.
fn put_rows<N: Names>(
    tasks: &mut Vec<Task>,
    nodes: &[NodeRow],
    node: u32,
    stripe: u32,
    rows: &[Receipt<N>],
) -> Result<(), NoMemory>
    requires few { length rows.now ≤ MAX_ROWS }
    requires room { length tasks.old.items + length rows.now < 2 ^ 32 }
    ensures { OnOk result (tasks.new.items ≡ with_tasks tasks.old.items (lost_by (map (λ x. x.node) nodes.now) node stripe rows.now)) }
{
    for (row, receipt) in rows.iter().enumerate() {
        if u32::from(receipt.node()) == node && !stands(nodes, receipt) {
            tasks.push(Task {
                part: tasks.len() as u32 + 1,
                stripe,
                row: row as u8,
            })?;
        }
    }
    Ok(())
}
