ghost use Rattle.std.specs.Prelude.{◌≡◌, ◌≤◌, ◌<◌, ◌+◌, ◌-◌, ◌*◌, ◌↔◌, nat_eq, length, take, drop, replicate, All, slice_get, IfOk, IfErr, IsOk};
ghost use Rattle.std.specs.List.{IsDistinct};
ghost use Rattle.ecp_code.specs.Code.{IsShape};
ghost use Rattle.ecp_code.specs.Rows.{row as row_at};
ghost use Rattle.ecp_code.specs.Stripes.{blocks, stripe_count, stripe_len, stripes};
ghost use Rattle.ecp_code.specs.Weights.{weights};

use crate::bad_shape::BadShape;
use crate::chosen::{inverse_of, times_column};
use crate::data_weights::data_weights;
use crate::rows::{copy_of_row, sum_of_blocks};
use crate::stripe::{Stripe, filled_bytes};
use crate::weights::Weights;
use ecp_shape::limits::MAX_ROWS;
use ecp_store::{Block, NoMemory};
use std::alloc::Global;
use std::marker::Model;

/// An (n, k) Reed-Solomon code: a stripe has n rows, of which rows 0 to k - 1 are data. 1 <= k < n <= 16.
#[derive(Clone, Copy, Debug, PartialEq, Eq)]
pub struct Code {
    n: u8,
    k: u8,
}

impl Model for Code {
    ghost use Rattle.ecp_code.specs.Code.{Shape, IsShape};

    ghost Value = { Shape };

    ghost view = { λ c. record { n = c.n; k = c.k } };

    ghost invariant = { λ c. IsShape c.n c.k };

    ghost inverse = { λ s. record { n = s.n; k = s.k } };
}

impl Code {
    /// The code with n rows, k of them data. Numbers that no code has come back as they are.
    pub fn new(n: u32, k: u32) -> Result<Code, BadShape>
        ensures shape { IsOk result ↔ IsShape n k }
        ensures ok { IfOk result (λ code. (code.n ≡ n) × (code.k ≡ k)) }
        ensures err { IfErr result (λ bad. (bad.n ≡ n) × (bad.k ≡ k)) }
    {
        if 1 <= k && k < n && n <= MAX_ROWS {
            Ok(Code {
                n: n as u8,
                k: k as u8,
            })
        } else {
            Err(BadShape { n, k })
        }
    }

    /// How many rows a stripe has.
    pub fn n(&self) -> u8
        ensures n { result ≡ self.now.n }
        ensures shape { IsShape self.now.n self.now.k }
    {
        self.n
    }

    /// How many rows of a stripe are data.
    pub fn k(&self) -> u8
        ensures k { result ≡ self.now.k }
        ensures shape { IsShape self.now.n self.now.k }
    {
        self.k
    }

    /// The weights of `rows` for row `target`, in the order of `rows`: any k distinct rows give every row, as the sum
    /// of these rows, each times its weight.
    ///
    /// The weight of row j is the product over each other row m of (target + m) / (j + m), which is Lagrange
    /// interpolation through the points that the rows stand at. It comes from the data weights of the target, times the
    /// inverse of the matrix of the rows' own data weights. Takes no memory.
    pub fn weights(&self, rows: &[u8], target: u8) -> Weights
        requires count { length rows.now ≡ self.now.k }
        requires distinct { IsDistinct nat_eq rows.now }
        requires rows { All (λ row. row < self.now.n) rows.now }
        requires target { target < self.now.n }
        ensures len { result.len ≡ self.now.k }
        ensures weights { take self.now.k result.w ≡ weights rows.now target }
        ensures rest { drop self.now.k result.w ≡ replicate (MAX_ROWS - self.now.k) 0 }
    {
        let k = self.k;
        let inverse = inverse_of(rows);
        let data = data_weights(k, target);
        let mut w = [0; MAX_ROWS as usize];
        for i in 0..k {
            w[i as usize] = times_column(&data[..k as usize], &inverse, i);
        }
        Weights { len: k, w }
    }

    /// Row `row` of a stripe. A data row is a copy of its block, and no sum is made.
    ///
    /// Takes memory once, for the block.
    pub fn encode(&self, alloc: Global, from: &Stripe, row: u8) -> Result<Block, NoMemory>
        requires data { length from.now ≡ self.now.k }
        requires row { row < self.now.n }
        ensures { IfOk result (λ block. block ≡ row_at from.now row) }
    {
        self.row_of_blocks(alloc, from.bytes(), from.block_len() as usize, row)
    }

    /// Row `row` of the one stripe that these bytes are: k blocks of ceil(len / k) bytes, filled with zeros where the
    /// bytes end.
    ///
    /// Reads the bytes in place, and takes memory once, for the block.
    pub fn row_of(&self, alloc: Global, bytes: &[u8], row: u8) -> Result<Block, NoMemory>
        requires { row < self.now.n }
        ensures { IfOk result (λ block. block ≡
            row_at (blocks self.now.k (stripe_len self.now.k (length bytes.now)) bytes.now) row) }
    {
        self.row_of_blocks(alloc, bytes, bytes.len().div_ceil(self.k as usize), row)
    }

    /// Row `row` of the data that `bytes` are, as k blocks of `len` bytes. A data row is a copy of its block.
    fn row_of_blocks(
        &self,
        alloc: Global,
        bytes: &[u8],
        len: usize,
        row: u8,
    ) -> Result<Block, NoMemory>
        requires { row < self.now.n }
        ensures { IfOk result (λ block. block ≡ row_at (blocks self.now.k len bytes.now) row) }
    {
        if row < self.k {
            return copy_of_row(alloc, bytes, self.k, len, row);
        }
        let weights = data_weights(self.k, row);
        sum_of_blocks(alloc, &weights[..self.k as usize], bytes, len)
    }

    /// Stripe `i` of a file with these bytes: k blocks of `block` bytes, filled with zeros where the bytes end.
    ///
    /// Takes memory once, for all blocks.
    pub fn stripe_at(
        &self,
        alloc: Global,
        bytes: &[u8],
        block: u32,
        i: u32,
    ) -> Result<Stripe, NoMemory>
        requires block { 0 < block }
        requires stripe { i < stripe_count self.now.k block (length bytes.now) }
        ensures blocks { IfOk result (λ stripe.
            stripe ≡ blocks self.now.k block (drop (i * (self.now.k * block)) bytes.now)) }
        ensures listed { IfOk result (λ stripe. slice_get (stripes self.now.k block bytes.now) i ≡ Some stripe) }
    {
        let size = usize::from(self.k) * block as usize;
        let data = filled_bytes(alloc, &bytes[i as usize * size..], size)?;
        Ok(Stripe::new(data, self.k, block))
    }

    /// How many stripes a file of `len` bytes has, with blocks of `block` bytes.
    pub fn stripe_count(&self, len: u32, block: u32) -> u32
        requires { 0 < block }
        ensures { result ≡ stripe_count self.now.k block len }
    {
        let size = u64::from(self.k) * u64::from(block);
        u64::from(len).div_ceil(size) as u32
    }
}
