use std::marker::Brand;

/// What all parts of one service state to contracts: which book it has, and its bounds. Code sees nothing of it.
///
/// Make a `Blank` first, and then call a function over `N: Names`, in which `N` stands for that blank's book. A function
/// that starts threads says `N: Names + Send + Sync` itself.
pub trait Names {
    ghost use Rattle.std.specs.Prelude.{ℕ, List, Bool};
    ghost use Rattle.atomic_table.specs.Seated.{TableId};
    ghost use Rattle.ecp_book.specs.Names.{StoreStart, PutBound};
    ghost use Rattle.ecp_shape.specs.declared.shape.Shape.{Shape};

    /// Which book.
    ghost book: { TableId };

    /// The sizes that the service is opened with.
    ghost shape: { Shape };

    /// How many callers there are.
    ghost callers: { ℕ };

    /// How many spare hands each caller has.
    ghost spare_hands: { ℕ };

    /// Whether every store tells what it holds.
    ghost told: { Bool };

    /// For each node, its store at the making of the node.
    ghost stores: { List StoreStart };

    /// The names that may be put, each with the most file blocks of a put of it.
    ghost puts: { List PutBound };

    /// For each caller the most stripes that its puts have together.
    ghost stripes: { List ℕ };
}

impl Names for Brand {
    ghost use Rattle.std.specs.Prelude.{[], false};
    ghost use Rattle.ecp_book.specs.Names.{no_book, no_shape};

    ghost book = { no_book };

    ghost shape = { no_shape };

    ghost callers = { 0 };

    ghost spare_hands = { 0 };

    ghost told = { false };

    ghost stores = { [] };

    ghost puts = { [] };

    ghost stripes = { [] };
}
