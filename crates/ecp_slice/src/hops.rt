//! What a message takes from the helpers of a plan.

ghost use Rattle.std.specs.Prelude.{◌≡◌, map, IfOk};

use ecp_book::{Book, Names};
use ecp_node::Receipt;
use ecp_plan::Hop;
use ecp_store::NoMemory;
use std::alloc::Global;

/// The row of each helper.
pub(crate) fn rows<N: Names>(alloc: Global, hops: &[Hop<N>]) -> Result<Vec<u8>, NoMemory>
    ensures { IfOk result (λ rows. rows.items ≡ map (λ hop. hop.row) hops.now) }
{
    Ok(hops.iter().map(|hop| hop.row).collect(alloc)?)
}

/// The node of each helper.
pub(crate) fn nodes<N: Names>(alloc: Global, hops: &[Hop<N>]) -> Result<Vec<u8>, NoMemory>
    ensures { IfOk result (λ nodes. nodes.items ≡ map (λ hop. hop.node) hops.now) }
{
    Ok(hops.iter().map(|hop| hop.node).collect(alloc)?)
}

/// The weight of each helper.
pub(crate) fn weights<N: Names>(alloc: Global, hops: &[Hop<N>]) -> Result<Vec<u8>, NoMemory>
    ensures { IfOk result (λ weights. weights.items ≡ map (λ hop. hop.weight) hops.now) }
{
    Ok(hops.iter().map(|hop| hop.weight).collect(alloc)?)
}

/// A copy of the receipt of each helper. The helpers stay as they are.
pub(crate) fn receipts<N: Names>(
    alloc: Global,
    book: &Book<N>,
    hops: &mut [Hop<N>],
) -> Result<Vec<Receipt<N>>, NoMemory>
    ensures receipts { IfOk result (λ receipts. receipts.items ≡ map (λ hop. hop.receipt) hops.old) }
    ensures kept { hops.new ≡ hops.old }
{
    let mut receipts = Vec::with_capacity(alloc, hops.len())?;
    for i in 0..hops.len() {
        let hop = &mut hops[i];
        receipts.push(hop.receipt.copy(book))?;
    }
    Ok(receipts)
}
