ghost use Rattle.std.specs.Prelude.{◌≡◌, ◌<◌, ◌*◌, length, vec_len, slice_get, All, IfOk};
ghost use Rattle.ecp_code.specs.Rows.{block_len};
ghost use Rattle.ecp_code.specs.Stripes.{filled, blocks};

use ecp_store::NoMemory;
use std::alloc::Global;
use std::marker::Model;

/// The data of one stripe: the blocks of rows 0, 1 and so on, all of one length, in one buffer.
#[derive(Debug, Drop)]
pub struct Stripe {
    bytes: Vec<u8>,
    rows: u8,
    block_len: u32,
}

impl Model for Stripe {
    ghost use Rattle.std.specs.Prelude.{◌≡◌, ◌<◌, ◌*◌, ℕ, List, vec_len};
    ghost use Rattle.ecp_code.specs.Stripes.{blocks};

    ghost Value = { List (List ℕ) };

    ghost view = { λ s. blocks s.rows s.block_len s.bytes.items };

    ghost invariant = { λ s. (0 < s.rows) × (vec_len s.bytes ≡ s.rows * s.block_len) };
}

impl Stripe {
    /// The stripe with these bytes, row after row.
    pub(crate) fn new(bytes: Vec<u8>, rows: u8, block_len: u32) -> Stripe
        requires rows { 0 < rows }
        requires bytes { vec_len bytes ≡ rows * block_len }
        ensures { result ≡ blocks rows block_len bytes.items }
    {
        Stripe {
            bytes,
            rows,
            block_len,
        }
    }

    /// How many data rows there are.
    pub fn rows(&self) -> u8
        ensures rows { result ≡ length self.now }
        ensures some { 0 < length self.now }
    {
        self.rows
    }

    /// How many bytes each block has.
    pub fn block_len(&self) -> u32
        ensures len { result ≡ block_len self.now }
        ensures equal { All (λ block. length block ≡ block_len self.now) self.now }
    {
        self.block_len
    }

    /// The block of a data row.
    pub fn block(&self, row: u8) -> &[u8]
        requires { row < length self.now }
        ensures { slice_get self.now row ≡ Some result.now }
    {
        let start = usize::from(row) * self.block_len as usize;
        &self.bytes[start..start + self.block_len as usize]
    }

    /// The blocks of all data rows, one after another.
    pub(crate) fn bytes(&self) -> &[u8]
        ensures { self.now ≡ blocks (length self.now) (block_len self.now) result.now }
    {
        &self.bytes
    }
}

/// The first `len` of these bytes, with zeros where they end before it.
pub(crate) fn filled_bytes(alloc: Global, bytes: &[u8], len: usize) -> Result<Vec<u8>, NoMemory>
    ensures { IfOk result (λ v. v.items ≡ filled len bytes.now) }
{
    let mut data = Vec::with_capacity(alloc, len)?;
    data.extend_from_slice(&bytes[..len.min(bytes.len())])?;
    data.resize(len, 0)?;
    Ok(data)
}
