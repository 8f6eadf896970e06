//! The law of the order of helpers, proved as the contract of a call that does nothing.

ghost use Rattle.std.specs.Prelude.{◌≡◌, ℕ, ◌⊎◌, ◌<◌};
ghost use Rattle.ecp_plan.specs.Order.{helper_after};

/// A slice visits each of the h helpers once, in one lane or in as many as there are helpers.
pub fn each_helper_is_visited_once()
    ensures never_twice { (lanes h j s t : ℕ) → (lanes ≡ 1) ⊎ (lanes ≡ h) → s < h → t < h →
        helper_after lanes h j s ≡ helper_after lanes h j t → s ≡ t }
    ensures each { (lanes h j hop : ℕ) → (lanes ≡ 1) ⊎ (lanes ≡ h) → hop < h →
        (t : ℕ) × (t < h) × (helper_after lanes h j t ≡ hop) }
{}
