ghost use Rattle.std.specs.Prelude.{◌≡◌, IfOk};
ghost use Rattle.ecp_command.specs.Generated.{next, generated};

use ecp_store::{Block, NoMemory};
use std::alloc::Global;

// By what a number is multiplied for the next one.
const MULTIPLIER: u64 = 6_364_136_223_846_793_005;

// What is added to the product.
const INCREMENT: u64 = 1_442_695_040_888_963_407;

/// The first `len` bytes that the generator makes of a seed.
///
/// Its numbers begin behind the seed: each is the one before it times 6364136223846793005 and plus
/// 1442695040888963407, modulo 2^64. A byte is the highest of its number. Memory is taken for the
/// bytes alone, before the first one is made.
pub fn generate(alloc: Global, seed: u64, len: u32) -> Result<Block, NoMemory>
    ensures { IfOk result (λ block. block ≡ generated seed len) }
{
    let mut bytes = Vec::with_capacity(alloc, len as usize)?;
    let mut number = seed;
    for _place in 0..len {
        number = next(number);
        bytes.push((number >> 56) as u8)?;
    }
    Ok(Block::new(bytes))
}

// The number after this one.
fn next(number: u64) -> u64
    ensures { result ≡ next number }
{
    number.wrapping_mul(MULTIPLIER).wrapping_add(INCREMENT)
}
