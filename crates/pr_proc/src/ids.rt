//! Ids that programs name by whole words.
ghost use Rattle.std.specs.Prelude.{◌≡◌, ◌≤◌, ◌^◌, is_some, IfSome, None};
ghost use Rattle.pr_num.specs.ById.{under};

use pr_num::ById;

/// No thing stands under a number of more than 32 bits.
#[tactic(auto, using(crate::proofs::IdLemmas::id_laws))]
fn has_none_beyond<T>(things: &ById<T>, number: u64)
    requires { 2 ^ 32 ≤ number }
    ensures { under number things.now ≡ None }
{
    things.ids_rise();
    if things.is_empty() {
        return;
    }
    let (last, _) = things.at(things.len() - 1);
    prove!((last as u64) < number);
}

/// The id that is this number, if a thing stands under it.
pub fn id_of<T>(things: &ById<T>, number: u64) -> Option<u32>
    ensures id { IfSome result (λ id. id ≡ number) }
    ensures some { is_some result ≡ is_some (under number things.now) }
{
    if number > u32::MAX as u64 {
        has_none_beyond(things, number);
        return None;
    }
    let id = number as u32;
    if things.contains(id) {
        return Some(id);
    }
    None
}
