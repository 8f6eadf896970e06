//! The stores of a service are parted from those that it does not use, and joined with them again.
ghost use Rattle.std.specs.Prelude.{◌≡◌, ◌+◌, ◌≤◌, ◌++◌, IfOk, IfErr, drop, length, take, vec_capacity, vec_len};

use ecp_store::Store;

/// The first `nodes` of the stores, and the others. Where memory runs out, all come back.
pub(super) fn part<S: Store + Drop>(
    mut stores: Vec<S>,
    nodes: usize,
) -> Result<(Vec<S>, Vec<S>), Vec<S>>
    requires { nodes ≤ vec_len stores }
    ensures ok { IfOk result (λ r. (r.0.items ≡ take nodes stores.items) × (r.1.items ≡ drop nodes stores.items)) }
    ensures err { IfErr result (λ same. same.items ≡ stores.items) }
{
    match stores.split_off(nodes) {
        Ok(rest) => Ok((stores, rest)),
        Err(_) => Err(stores),
    }
}

/// Those stores, and behind them the others, in a list that has room for them.
pub(super) fn join<S: Store + Drop>(all: Vec<S>, used: Vec<S>, rest: Vec<S>) -> Vec<S>
    requires { vec_len all + (vec_len used + vec_len rest) ≤ vec_capacity all }
    ensures { result.items ≡ all.items ++ (used.items ++ rest.items) }
{
    add(add(all, used), rest)
}

// These stores, and behind them the others.
fn add<S: Store + Drop>(mut all: Vec<S>, stores: Vec<S>) -> Vec<S>
    requires { vec_len all + vec_len stores ≤ vec_capacity all }
    ensures items { result.items ≡ all.items ++ stores.items }
    ensures room { vec_capacity result ≡ vec_capacity all }
{
    for store in stores {
        all.push_reserved(store);
    }
    all
}
