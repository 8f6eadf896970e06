//! A law of the definitions, proved as the contract of a call that does nothing.
ghost use Rattle.std.specs.Prelude.{◌≡◌, ℕ, ◌+◌, ◌≤◌, List, slice_get, Some};
ghost use Rattle.ecp_link.specs.Links.{Count, held_in, pushed_in};

/// What is so of one sender is so of the whole link: where the link holds so many items of one sender, it holds at least
/// so many, and where one sender has pushed so many, all together have.
pub fn one_sender_counts_for_the_link()
    ensures held { (link : List Count) → (p n : ℕ) → (c : Count) → slice_get link p ≡ Some c → c.taken + n ≤ c.pushed → n ≤ held_in link }
    ensures pushed { (link : List Count) → (p n : ℕ) → (c : Count) → slice_get link p ≡ Some c → n ≤ c.pushed → n ≤ pushed_in link }
{}
