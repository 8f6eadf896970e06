//! The laws of a code, each proved as the contract of a call that does nothing.
ghost use Rattle.std.specs.Prelude.{◌≡◌, ℕ, ◌<◌, ◌≤◌, ◌^◌, List, length, map, nat_eq, slice_get};
ghost use Rattle.std.specs.List.{IsDistinct};
ghost use Rattle.ecp_field.specs.Lists.{AreBytes};
ghost use Rattle.ecp_code.specs.Rows.{weighted_sum, block_len, row, IsData};
ghost use Rattle.ecp_code.specs.Stripes.{blocks};
ghost use Rattle.ecp_code.specs.Weights.{weights};

/// A data row is its block, of any data: blocks that bytes fill are data.
pub fn data_row_law()
    ensures row { (d : List (List ℕ)) → (t : ℕ) → IsData d → t < length d → slice_get d t ≡ Some (row d t) }
    ensures filled { (k len : ℕ) → (bytes : List ℕ) → k ≤ 256 → AreBytes bytes → IsData (blocks k len bytes) }
{}

/// Decoding: as many distinct rows as a stripe has blocks of data give every row, as the sum of these rows, each times
/// its weight among them.
pub fn decoding_law()
    ensures { (d : List (List ℕ)) (rows : List ℕ) (t : ℕ) →
        IsData d → length rows ≡ length d → IsDistinct nat_eq rows → AreBytes rows → t < 2 ^ 8
        → row d t ≡ weighted_sum (block_len d) (weights rows t) (map (row d) rows) }
{}
