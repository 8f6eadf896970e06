ghost use Rattle.std.specs.Prelude.{◌≡◌, ℕ, ◌+◌, ◌-◌, ◌^◌, ◌<◌, ◌≤◌, ◌↔◌, [], ◌∷◌, ◌++◌, length, IsTrue};
ghost use mathlib.Core.List.{IsPrefix};
ghost use Rattle.ecp_book.specs.Logs.{empty_log, node_log};
ghost use Rattle.ecp_node.specs.Items.{kept_item, removed_item, wiped_item, faulted_item, spent_item};
ghost use Rattle.ecp_node.specs.Held.{wipes, faults, spends, places, IsAtEnd};
ghost use Rattle.ecp_node.specs.Counted.{NodeItems};
ghost use Rattle.ecp_node.specs.Receipts.{next_kept};

use crate::NodeItem;
use crate::limits::{LOG_END, MAX_LOSSES};
use ecp_book::{Book, Keeper, Names, Tag};
use std::marker::Model;

/// The log of a node, with its counts. Contracts see the node's number and the items.
#[derive(Drop)]
pub(crate) struct NodeLog<N: Names> {
    keeper: Keeper<N>,
    node: u8,
    wiped: u32,
    faulted: u64,
    spent: u64,
}

impl<N: Names> Model for NodeLog<N> {
    ghost use Rattle.ecp_node.specs.Counted.{NodeItems, IsCounted};

    ghost Value = { NodeItems };

    ghost view = { λ log. record { node = log.node; items = log.keeper.items } };

    ghost invariant = { λ log. IsCounted log.keeper.log log.node log.keeper.items log.wiped log.faulted log.spent };
}

impl<N: Names> NodeLog<N> {
    /// The log of a node, which is empty.
    pub(crate) fn new(keeper: Keeper<N>, node: u8) -> Self
        requires { keeper ≡ empty_log (node_log node) }
        ensures { result ≡ record { node = node; items = [] } }
    {
        NodeLog {
            keeper,
            node,
            wiped: 0,
            faulted: 0,
            spent: 0,
        }
    }

    /// The node's number.
    pub(crate) fn node(&self) -> u8
        ensures { result ≡ self.now.node }
    {
        self.node
    }

    /// How many items the log has.
    pub(crate) fn len(&self) -> u64
        ensures { result ≡ length self.now.items }
    {
        u64::from(self.keeper.len())
    }

    /// How often the node was wiped.
    pub(crate) fn wiped(&self) -> u32
        ensures { result ≡ wipes self.now.items }
    {
        self.wiped
    }

    /// How many failures of the store the log has.
    pub(crate) fn faulted(&self) -> u64
        ensures { result ≡ faults self.now.items }
    {
        self.faulted
    }

    /// How many of them were spent.
    pub(crate) fn spent(&self) -> u64
        ensures count { result ≡ spends self.now.items }
        ensures paid { spends self.now.items ≤ faults self.now.items }
    {
        self.spent
    }

    /// Whether the log is at its end.
    pub(crate) fn is_at_end(&self) -> bool
        ensures { IsTrue result ↔ IsAtEnd self.now.items }
    {
        u64::from(self.keeper.len()) + (self.faulted - self.spent) >= LOG_END
    }

    /// Enters that a block is kept, and answers its serial.
    #[tactic(auto, using(crate::proofs::Laws::count_more))]
    pub(crate) fn keep(&mut self, book: &Book<N>, stripe: u32, row: u8, bytes: &[u8]) -> u64
        requires { places self.old.items < LOG_END }
        ensures serial { result ≡ length self.old.items }
        ensures added { self.new ≡ record self.old { items = self.old.items ++ kept_item (next_kept self.old.items stripe row bytes.now) ∷ [] } }
    {
        let serial = u64::from(self.keeper.len());
        book.append(
            &mut self.keeper,
            &NodeItem::Kept {
                stripe,
                row,
                serial,
                bytes,
            },
        );
        serial
    }

    /// Enters that the block with this serial is given up.
    #[tactic(auto, using(crate::proofs::Laws::count_more))]
    pub(crate) fn remove(&mut self, book: &Book<N>, serial: u64)
        requires { places self.old.items < LOG_END }
        ensures { self.new ≡ record self.old { items = self.old.items ++ removed_item serial ∷ [] } }
    {
        book.append(&mut self.keeper, &NodeItem::Removed { serial });
    }

    /// Enters that all blocks are given up, and answers the incarnation that begins.
    #[tactic(auto, using(crate::proofs::Laws::count_more))]
    pub(crate) fn wipe(&mut self, book: &Book<N>)
        requires { wipes self.old.items < MAX_LOSSES }
        ensures { self.new ≡ record self.old { items = self.old.items ++ wiped_item (wipes self.old.items + 1) ∷ [] } }
    {
        self.wiped += 1;
        book.append(&mut self.keeper, &NodeItem::Wiped { inc: self.wiped });
    }

    /// Enters a failure of the store.
    #[tactic(auto, using(crate::proofs::Laws::count_more))]
    pub(crate) fn fault(&mut self, book: &Book<N>)
        requires { places self.old.items < LOG_END }
        ensures { self.new ≡ record self.old { items = self.old.items ++ faulted_item ∷ [] } }
    {
        book.append(&mut self.keeper, &NodeItem::Faulted);
        self.faulted += 1;
    }

    /// Enters that a failure is spent.
    #[tactic(auto, using(crate::proofs::Laws::count_more))]
    pub(crate) fn spend(&mut self, book: &Book<N>)
        requires { spends self.old.items < faults self.old.items }
        ensures { self.new ≡ record self.old { items = self.old.items ++ spent_item ∷ [] } }
    {
        book.append(&mut self.keeper, &NodeItem::Spent);
        self.spent += 1;
    }

    /// A tag with the whole log.
    pub(crate) fn tag(&mut self, book: &Book<N>) -> Tag<N>
        ensures tag { result ≡ record { log = node_log self.old.node; items = self.old.items } }
        ensures kept { self.new ≡ self.old }
    {
        book.tag(&mut self.keeper)
    }

    /// Shows that the tag's list is a prefix of the log.
    pub(crate) fn meet(&mut self, book: &Book<N>, seen: &mut Tag<N>)
        requires { seen.old.log ≡ node_log self.old.node }
        ensures prefix { IsPrefix seen.old.items self.old.items }
        ensures seen { seen.new ≡ seen.old }
        ensures kept { self.new ≡ self.old }
    {
        book.meet(&mut self.keeper, seen);
    }
}
