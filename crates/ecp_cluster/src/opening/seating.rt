//! The nodes of a service, each at its helper.
ghost use Rattle.std.specs.Prelude.{◌≡◌, ◌+◌, ◌≤◌, IfOk, IfErr, IsTrue, vec_len, vec_capacity};
ghost use Rattle.ecp_book.specs.Logs.{history_log};
ghost use Rattle.ecp_shape.specs.declared.limits.TheConstants.{MAX_NODES};
ghost use Rattle.ecp_coord.specs.Coords.{AreNodeLogs};
ghost use Rattle.ecp_cluster.specs.Opening.{AreStarts};

use super::wires::Wires;
use crate::NoMemory;
use ecp_book::{Book, Keeper, Names, Tag};
use ecp_helper::Helper;
use ecp_link::{Sender, Taker};
use ecp_node::Node;
use ecp_shape::Shape;
use ecp_slice::SliceMsg;
use ecp_store::Store;
use std::alloc::Global;
use std::sync::Mutex;

/// A helper over each store, which holds at most `holds` messages. Want of memory is the only error: it gives the stores back,
/// in their order.
pub(super) fn seat_all<N: Names, S: Store + Drop>(
    alloc: Global,
    book: &Book<N>,
    shape: Shape,
    holds: u32,
    mut stores: Vec<S>,
    mut keepers: Vec<Keeper<N>>,
    mut past: Tag<N>,
    mut wires: Wires<N>,
) -> Result<Vec<Mutex<Helper<N, S>>>, (NoMemory, Vec<S>)>
    requires named { shape ≡ N.shape }
    requires few { shape.nodes ≤ MAX_NODES }
    requires holds { 1 ≤ holds }
    requires told { IsTrue N.told → IsTrue S.tells }
    requires past { past.log ≡ history_log }
    requires keepers { AreNodeLogs shape.nodes keepers.items }
    requires stores { AreStarts S.faults S.faultless N.stores shape.nodes stores.items }
    requires wires { (vec_len wires.takers ≡ shape.nodes) × (vec_len wires.to_nodes ≡ shape.nodes) × (vec_len wires.to_homes ≡ shape.nodes) }
    ensures helpers { IfOk result (λ helpers. vec_len helpers ≡ shape.nodes) }
    ensures back { IfErr result (λ e. vec_len e.1 ≡ vec_len stores) }
{
    let Ok(mut helpers) = Vec::with_capacity(alloc, shape.nodes as usize) else {
        return Err((NoMemory, stores));
    };
    let nodes = shape.nodes as u8;
    for seated in 0..nodes {
        let number = nodes - 1 - seated;
        let node = last_node(alloc, book, &mut stores, &mut keepers, &mut past, number);
        match last_helper(alloc, node, &mut wires, shape.block, holds) {
            Ok(helper) => helpers.push_reserved(Mutex::new(helper)),
            Err((NoMemory, node)) => {
                stores.push_reserved(node.into_store());
                return Err((NoMemory, unseated(stores, helpers)));
            }
        }
    }
    helpers.reverse();
    Ok(helpers)
}

// The node over the last store, with the last keeper, whose number is `number`.
#[tactic(auto, using(crate::proofs::OpenLaws::keepers_before, crate::proofs::OpenLaws::stores_before))]
fn last_node<N: Names, S: Store + Drop>(
    alloc: Global,
    book: &Book<N>,
    stores: &mut Vec<S>,
    keepers: &mut Vec<Keeper<N>>,
    past: &mut Tag<N>,
    number: u8,
) -> Node<N, S>
    requires told { IsTrue N.told → IsTrue S.tells }
    requires past { past.old.log ≡ history_log }
    requires keepers { AreNodeLogs (number + 1) keepers.old.items }
    requires stores { AreStarts S.faults S.faultless N.stores (number + 1) stores.old.items }
    ensures past { past.new ≡ past.old }
    ensures keepers { AreNodeLogs number keepers.new.items }
    ensures stores { AreStarts S.faults S.faultless N.stores number stores.new.items }
    ensures room { vec_capacity stores.new ≡ vec_capacity stores.old }
{
    let (Some(store), Some(keeper)) = (stores.pop(), keepers.pop()) else {
        unreachable!()
    };
    Node::new(alloc, number, store, keeper, book.copy(past))
}

// The helper over the node, with the last ends of the links.
fn last_helper<N: Names, S: Store + Drop>(
    alloc: Global,
    node: Node<N, S>,
    wires: &mut Wires<N>,
    block: u32,
    holds: u32,
) -> Result<Helper<N, S>, (NoMemory, Node<N, S>)>
    requires block { block ≡ N.shape.block }
    requires holds { 1 ≤ holds }
    requires some { (1 ≤ vec_len wires.old.takers) × (1 ≤ vec_len wires.old.to_nodes) × (1 ≤ vec_len wires.old.to_homes) }
    ensures takers { vec_len wires.new.takers + 1 ≡ vec_len wires.old.takers }
    ensures to_nodes { vec_len wires.new.to_nodes + 1 ≡ vec_len wires.old.to_nodes }
    ensures to_homes { vec_len wires.new.to_homes + 1 ≡ vec_len wires.old.to_homes }
{
    let (Some(taker), Some(to_nodes), Some(to_homes)) = (
        wires.takers.pop(),
        wires.to_nodes.pop(),
        wires.to_homes.pop(),
    ) else {
        unreachable!()
    };
    Helper::new(alloc, node, taker, to_nodes, to_homes, block, holds)
}

// The stores, with those of the helpers' nodes behind them: the last helper's first.
fn unseated<N: Names, S: Store + Drop>(
    mut stores: Vec<S>,
    mut helpers: Vec<Mutex<Helper<N, S>>>,
) -> Vec<S>
    requires { vec_len stores + vec_len helpers ≤ vec_capacity stores }
    ensures { vec_len result ≡ vec_len stores + vec_len helpers }
{
    for _ in 0..helpers.len() {
        let Some(helper) = helpers.pop() else {
            unreachable!()
        };
        stores.push_reserved(helper.into_inner().into_node().into_store());
    }
    stores
}
