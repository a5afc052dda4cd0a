ghost use Rattle.std.specs.Prelude.{◌≡◌, ◌++◌, [], ◌∷◌, OnOk};
ghost use Rattle.pr_plain.specs.Buffers.{StartsWith};
ghost use Rattle.pr_text.specs.SpacedWords.{spaced};
ghost use Rattle.pr_plain.specs.HistoryText.{actor_text};

use crate::words::{append, write_digits, write_lwp};
use pr_model::Actor;
use std::alloc::AllocError;

/// Writes who acted as a word: `c3`, `1/2` or `clock`.
#[tactic(auto, using(crate::proofs::BufferLemmas::kept), unfolding(pr_text::specs::SpacedWords::behind_blank, crate::specs::HistoryText::actor_text))]
pub fn write_actor(out: &mut Vec<u8>, actor: Actor) -> Result<(), AllocError>
    ensures all { OnOk result (out.new.items ≡ out.old.items ++ spaced (actor_text actor ∷ [])) }
    ensures kept { StartsWith out.new.items out.old.items }
{
    append(out, b" ")?;
    match actor {
        Actor::Controller(k) => {
            append(out, b"c")?;
            write_digits(out, k as u64)
        }
        Actor::Lwp(pid, lwp) => write_lwp(out, pid, lwp),
        Actor::Clock => append(out, b"clock"),
    }
}
