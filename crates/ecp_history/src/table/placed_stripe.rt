ghost use Rattle.std.specs.Prelude.{◌≡◌, false, map, true};
ghost use Rattle.ecp_history.specs.table.Steps.{change_row, given_up, live_onto, without_node};

use super::standing::Standing;
use ecp_code::Stripe;
use std::marker::Model;

/// A stripe of the table: its number, its data, and where its rows stand.
#[derive(Debug, Drop)]
pub(super) struct PlacedStripe {
    number: u32,
    blocks: Stripe,
    rows: Vec<Standing>,
}

impl Model for PlacedStripe {
    ghost use Rattle.ecp_history.specs.table.Tables as tables;

    ghost Value = { tables.Stripe };

    ghost view = { λ s. record { number = s.number; blocks = s.blocks; rows = s.rows.items } };
}

impl PlacedStripe {
    pub(super) fn new(number: u32, blocks: Stripe, rows: Vec<Standing>) -> Self
        ensures number { result.number ≡ number }
        ensures blocks { result.blocks ≡ blocks }
        ensures rows { result.rows ≡ rows.items }
    {
        PlacedStripe {
            number,
            blocks,
            rows,
        }
    }

    pub(super) fn number(&self) -> u32
        ensures { result ≡ self.now.number }
    {
        self.number
    }

    pub(super) fn blocks(&self) -> &Stripe
        ensures { result.now ≡ self.now.blocks }
    {
        &self.blocks
    }

    pub(super) fn rows(&self) -> &[Standing]
        ensures { result.now ≡ self.now.rows }
    {
        &self.rows
    }

    /// No row is live on the node.
    pub(super) fn lose(&mut self, node: u8)
        ensures { self.new ≡ record self.old { rows = map (without_node node) self.old.rows } }
    {
        lose_rows(&mut self.rows, node);
    }

    /// The row is live on the node.
    pub(super) fn restore(&mut self, row: u8, node: u8)
        ensures { self.new ≡ record self.old { rows = change_row (live_onto node) row self.old.rows } }
    {
        restore_row(&mut self.rows, row, node);
    }

    /// The row is lost where it stands.
    pub(super) fn give_up(&mut self, row: u8)
        ensures { self.new ≡ record self.old { rows = change_row given_up row self.old.rows } }
    {
        give_up_row(&mut self.rows, row);
    }
}

fn lose_rows(rows: &mut [Standing], node: u8)
    ensures { rows.new ≡ map (without_node node) rows.old }
{
    for row in rows.iter_mut() {
        *row = lost_from(*row, node);
    }
}

fn lost_from(row: Standing, node: u8) -> Standing
    ensures { result ≡ without_node node row }
{
    Standing {
        node: row.node,
        live: row.live && row.node != node,
    }
}

fn restore_row(rows: &mut [Standing], row: u8, node: u8)
    ensures { rows.new ≡ change_row (live_onto node) row rows.old }
{
    if usize::from(row) < rows.len() {
        rows[usize::from(row)] = Standing { node, live: true };
    }
}

fn give_up_row(rows: &mut [Standing], row: u8)
    ensures { rows.new ≡ change_row given_up row rows.old }
{
    if usize::from(row) < rows.len() {
        rows[usize::from(row)].live = false;
    }
}
