ghost use Rattle.std.specs.Prelude.{◌≡◌, ◌≤◌, [], vec_capacity};

use ecp_book::Names;
use ecp_store::Store;
use std::marker::PhantomData;

/// Room for the stores of all nodes, which has none.
#[derive(Drop)]
pub(crate) struct Room<N: Names, S: Store> {
    pub(crate) stores: Vec<S>,
    of: PhantomData<N>,
    ghost empty: { stores.items ≡ [] },
    ghost enough: { N.shape.nodes ≤ vec_capacity stores },
}

impl<N: Names, S: Store> Room<N, S> {
    pub(crate) fn new(stores: Vec<S>) -> Room<N, S>
        requires empty { stores.items ≡ [] }
        requires enough { N.shape.nodes ≤ vec_capacity stores }
    {
        Room {
            stores,
            of: PhantomData,
        }
    }
}
