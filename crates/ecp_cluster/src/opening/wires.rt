//! The links of a service: one to each node, and one to each port.
ghost use Rattle.std.specs.Prelude.{◌≡◌, ◌≤◌, All, IfOk, vec_len};
ghost use Rattle.ecp_shape.specs.declared.limits.TheConstants.{MAX_NODES, MAX_SESSIONS, MAX_WINDOW};

use super::links::links;
use crate::NoMemory;
use ecp_book::Names;
use ecp_link::{Sender, Taker};
use ecp_requestor::Port;
use ecp_slice::SliceMsg;
use std::alloc::Global;
use std::sync::Mutex;

/// The helpers' ends of the links, by the numbers of their nodes: the taker of its own, and the senders to all nodes and to
/// all ports.
#[derive(Drop)]
pub(super) struct Wires<N: Names> {
    pub(super) takers: Vec<Taker<SliceMsg<N>>>,
    pub(super) to_nodes: Vec<Vec<Sender<SliceMsg<N>>>>,
    pub(super) to_homes: Vec<Vec<Sender<SliceMsg<N>>>>,
}

/// A link to each node, from each node and each port, and one to each port, from each node, which each hold at most `window`
/// messages of each. Want of memory is the only error.
pub(super) fn lay<N: Names>(
    alloc: Global,
    nodes: u32,
    ports: u32,
    window: u32,
) -> Result<(Wires<N>, Vec<Mutex<Port<N>>>), NoMemory>
    requires named { nodes ≡ N.shape.nodes }
    requires nodes { (1 ≤ nodes) × (nodes ≤ MAX_NODES) }
    requires ports { (1 ≤ ports) × (ports ≤ MAX_SESSIONS) }
    requires window { (1 ≤ window) × (window ≤ MAX_WINDOW) }
    ensures takers { IfOk result (λ r. vec_len r.0.takers ≡ nodes) }
    ensures to_nodes { IfOk result (λ r. vec_len r.0.to_nodes ≡ nodes) }
    ensures to_homes { IfOk result (λ r. vec_len r.0.to_homes ≡ nodes) }
    ensures ports { IfOk result (λ r. vec_len r.1 ≡ ports) }
{
    let (mut to_nodes, takers) = links(alloc, nodes + ports, nodes, window)?;
    let (to_homes, homes) = links(alloc, nodes, ports, window)?;
    let from_ports = to_nodes.split_off(nodes as usize)?;
    let ports = ports_over(alloc, from_ports, homes)?;
    let wires = Wires {
        takers,
        to_nodes,
        to_homes,
    };
    Ok((wires, ports))
}

// The ports over these senders and takers, by their numbers.
fn ports_over<N: Names>(
    alloc: Global,
    mut senders: Vec<Vec<Sender<SliceMsg<N>>>>,
    mut takers: Vec<Taker<SliceMsg<N>>>,
) -> Result<Vec<Mutex<Port<N>>>, NoMemory>
    requires few { vec_len senders ≤ MAX_SESSIONS }
    requires takers { vec_len takers ≡ vec_len senders }
    requires senders { All (λ v. vec_len v ≡ N.shape.nodes) senders.items }
    ensures { IfOk result (λ ports. vec_len ports ≡ vec_len senders) }
{
    let mut ports = Vec::with_capacity(alloc, senders.len())?;
    for _ in 0..takers.len() {
        let (Some(to_nodes), Some(taker)) = (senders.pop(), takers.pop()) else {
            unreachable!()
        };
        let slot = takers.len() as u8;
        ports.push(Mutex::new(Port::new(to_nodes, taker, slot)))?;
    }
    ports.reverse();
    Ok(ports)
}
