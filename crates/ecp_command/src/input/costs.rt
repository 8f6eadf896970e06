ghost use Rattle.std.specs.Prelude.{◌≡◌, ℕ, ◌+◌, ◌^◌, ◌<◌, ◌≤◌, List, IfOk, IfSome, IfNone, unwrap_or, bytes_eq};
ghost use Rattle.std.specs.HashMap.{get_by};
ghost use Rattle.std.specs.List.{AllByRecursion};
ghost use Rattle.ecp_shape.specs.declared.limits.TheConstants.{MAX_PUT_BYTES};
ghost use Rattle.ecp_command.specs.declared.input.call.Call.TheVariants.{Put};
ghost use Rattle.ecp_command.specs.declared.input.form.Form.{Form};
ghost use Rattle.ecp_command.specs.declared.input.form.Form.TheVariants as line;
ghost use Rattle.ecp_command.specs.declared.input.head.Head.{Head};
ghost use Rattle.ecp_command.specs.Input.Costs.{AreMost, IsOver};
ghost use Rattle.ecp_command.specs.Input.Limits.{blocks_put, cost, costs, put_len};
ghost use Rattle.ecp_command.specs.Input.Script.{forms_of};
ghost use Rattle.ecp_command.specs.Input.Settings.{IsInRange};

use crate::input::call::Call;
use crate::input::form::Form;
use crate::input::head::Head;
use crate::input::numbered::Numbered;
use ecp_shape::limits::MAX_ENTRIES;
use ecp_store::NoMemory;
use std::alloc::Global;
use std::collections::HashMap;

/// Of each name how many blocks the largest file has that is put under it.
type Sizes<'a> = HashMap<&'a [u8], u32>;

/// The number of the first line at which the costs pass their limit, if they do. This is the second pass.
pub(crate) fn line_over(
    alloc: Global,
    head: &Head,
    forms: &[Numbered],
) -> Result<Option<u32>, NoMemory>
    requires in_range { IsInRange head.now }
    requires short { AllByRecursion (λ f. put_len f ≤ MAX_PUT_BYTES) (forms_of forms.now) }
    ensures over { IfOk result (λ line. IfSome line (IsOver head.now forms.now)) }
    ensures within { IfOk result (λ line. IfNone line (costs head.now (forms_of forms.now) (forms_of forms.now) ≤ MAX_ENTRIES)) }
{
    let sizes = sizes_of(alloc, head, forms)?;
    let mut spent = 0;
    for numbered in forms {
        spent += cost(&sizes, &numbered.form);
        if spent > MAX_ENTRIES {
            return Ok(Some(numbered.line));
        }
    }
    Ok(None)
}

// The largest files that the lines put.
fn sizes_of<'a>(alloc: Global, head: &Head, forms: &'a [Numbered]) -> Result<Sizes<'a>, NoMemory>
    requires in_range { IsInRange head.now }
    requires short { AllByRecursion (λ f. put_len f ≤ MAX_PUT_BYTES) (forms_of forms.now) }
    ensures { IfOk result (AreMost head.now (forms_of forms.now)) }
{
    let mut sizes = HashMap::new(alloc);
    for numbered in forms {
        if let Some((name, bytes)) = put_of(&numbered.form) {
            let blocks = bytes.len().div_ceil(head.block as usize) as u32;
            let most = size(&sizes, name).max(blocks);
            sizes.insert(name, most)?;
        }
    }
    Ok(sizes)
}

// The name and the bytes of the file that a line puts, where it puts one.
fn put_of(form: &Form) -> Option<(&[u8], &[u8])>
    ensures some { IfSome result (λ p. form.now ≡ line.Call (Put p.0.now p.1.now)) }
    ensures none { IfNone result ((head : Head) (name : List ℕ) → blocks_put head name form.now ≡ 0) }
{
    match form {
        Form::Call(Call::Put { name, bytes }) => Some((name.bytes(), bytes.bytes())),
        _ => None,
    }
}

// How many blocks the largest file of a name has, or 0 where none is put.
fn size(sizes: &Sizes<'_>, name: &[u8]) -> u32
    ensures { result ≡ unwrap_or (get_by (λ k. bytes_eq name.now k.now) sizes.now) 0 }
{
    sizes.get(name).copied().unwrap_or(0)
}

// What a line costs.
fn cost(sizes: &Sizes<'_>, form: &Form) -> u64
    ensures value { (head : Head) (forms : List Form) → AreMost head forms sizes.now → result ≡ cost head forms form.now }
    ensures small { result < 2 ^ 33 }
{
    match form {
        Form::Session(_) | Form::Barrier => 0,
        Form::Call(call) => call_cost(sizes, call),
    }
}

// What a call costs.
fn call_cost(sizes: &Sizes<'_>, call: &Call) -> u64
    ensures value { (head : Head) (forms : List Form) → AreMost head forms sizes.now → result ≡ cost head forms (line.Call call.now) }
    ensures small { result < 2 ^ 33 }
{
    match call {
        Call::Cat { name } => 2 + u64::from(size(sizes, name.bytes())),
        Call::Put { .. }
        | Call::Read { .. }
        | Call::Sum { .. }
        | Call::Lose { .. }
        | Call::Join { .. }
        | Call::Rebuild { .. }
        | Call::Stat { .. } => 1,
    }
}
