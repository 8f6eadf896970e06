//! The laws of the field, each proved as the contract of a call that does nothing.
ghost use Rattle.std.specs.Prelude.{◌≡◌, ◌≢◌, ◌⊎◌, ◌<◌, ◌^◌, ℕ, List, length, slice_index};
ghost use Rattle.ecp_field.specs.Field.{byte_sum, byte_product, byte_quotient, byte_power};
ghost use Rattle.ecp_field.specs.Lists.{sums, scaled, AreBytes};

use crate::tables::{EXP, LOG};

/// The bytes with their sums are a commutative group, in which each is its own inverse.
pub fn addition_laws()
    ensures byte { (a b : ℕ) → a < 2 ^ 8 → b < 2 ^ 8 → byte_sum a b < 2 ^ 8 }
    ensures associative { (a b c : ℕ) → byte_sum (byte_sum a b) c ≡ byte_sum a (byte_sum b c) }
    ensures commutative { (a b : ℕ) → byte_sum a b ≡ byte_sum b a }
    ensures zero { (a : ℕ) → byte_sum 0 a ≡ a }
    ensures own_inverse { (a : ℕ) → byte_sum a a ≡ 0 }
{}

/// The products of bytes are associative, commutative and distributive, with 1 as their unit, and
/// a product is 0 only where one of its bytes is.
pub fn multiplication_laws()
    ensures byte { (a b : ℕ) → a < 2 ^ 8 → b < 2 ^ 8 → byte_product a b < 2 ^ 8 }
    ensures associative { (a b c : ℕ) → a < 2 ^ 8 → b < 2 ^ 8 → c < 2 ^ 8
        → byte_product (byte_product a b) c ≡ byte_product a (byte_product b c) }
    ensures commutative { (a b : ℕ) → a < 2 ^ 8 → b < 2 ^ 8 → byte_product a b ≡ byte_product b a }
    ensures one { (a : ℕ) → a < 2 ^ 8 → byte_product 1 a ≡ a }
    ensures distributive { (a b c : ℕ)
        → byte_product a (byte_sum b c) ≡ byte_sum (byte_product a b) (byte_product a c) }
    ensures no_zero_divisors { (a b : ℕ) → a < 2 ^ 8 → b < 2 ^ 8 → byte_product a b ≡ 0
        → (a ≡ 0) ⊎ (b ≡ 0) }
{}

/// For a divisor other than 0 there is one byte whose product with it is the dividend: the quotient.
pub fn quotient_laws()
    ensures byte { (a b : ℕ) → a < 2 ^ 8 → b < 2 ^ 8 → b ≢ 0 → byte_quotient a b < 2 ^ 8 }
    ensures product { (a b : ℕ) → a < 2 ^ 8 → b < 2 ^ 8 → b ≢ 0
        → byte_product (byte_quotient a b) b ≡ a }
    ensures unique { (a b q : ℕ) → b < 2 ^ 8 → q < 2 ^ 8 → b ≢ 0
        → byte_product q b ≡ a → byte_quotient a b ≡ q }
{}

/// What the two tables hold.
pub fn table_laws()
    ensures powers { (i : ℕ) → i < 255 → slice_index EXP i ≡ byte_power 2 i }
    ensures logarithms { (a : ℕ) → a < 2 ^ 8 → a ≢ 0 → slice_index EXP (slice_index LOG a) ≡ a }
    ensures in_range { (a : ℕ) → a < 2 ^ 8 → slice_index LOG a < 255 }
    ensures zero { slice_index LOG 0 ≡ 0 }
{}

/// Sums and products with a constant along lists of bytes.
pub fn list_laws()
    ensures associative { (xs ys zs : List ℕ) → sums (sums xs ys) zs ≡ sums xs (sums ys zs) }
    ensures commutative { (xs ys : List ℕ) → sums xs ys ≡ sums ys xs }
    ensures distributive { (c : ℕ) → (xs ys : List ℕ)
        → scaled c (sums xs ys) ≡ sums (scaled c xs) (scaled c ys) }
    ensures product { (c d : ℕ) → (xs : List ℕ) → c < 2 ^ 8 → d < 2 ^ 8 → AreBytes xs
        → scaled c (scaled d xs) ≡ scaled (byte_product c d) xs }
{}
