//! Which controllers hide what they do.
ghost use Rattle.std.specs.Prelude.{◌≡◌, true};
ghost use Rattle.std.specs.List.{list_all};
ghost use Rattle.std.specs.Option.{option_copied};
ghost use Rattle.pr_hidden.specs.Hiders.{are_some, hides, nobody};
ghost use Rattle.pr_hide.specs.Hidings.{functions_in, hiders_of, is_nothing, is_probe};

use crate::patches::Patch;
use pr_num::Table;

/// What a controller hides of what it does.
#[derive(Drop)]
pub enum Hider {
    /// It hides nothing.
    Nothing,
    /// It sets breakpoints where these functions begin, each with the code that stands there.
    Functions(Table<Patch>),
    /// An agent of its own makes system calls in a process for it.
    Probe,
}

fn is_nothing(hider: &Hider) -> bool
    ensures { result ≡ is_nothing hider.now }
{
    match hider {
        Hider::Nothing => true,
        Hider::Functions(functions) => functions.is_empty(),
        Hider::Probe => false,
    }
}

fn are_nothing(who: &[Hider]) -> bool
    ensures { result ≡ list_all is_nothing who.now }
{
    who.iter().all(|hider| is_nothing(hider))
}

/// Whether no controller hides anything.
#[tactic(auto, using(crate::proofs::HidingLemmas::nothing))]
pub fn hide_nothing(who: &[Hider]) -> bool
    ensures value { result ≡ list_all is_nothing who.now }
    ensures nobody { result ≡ true → hiders_of who.now ≡ nobody }
{
    are_nothing(who)
}

/// Whether a controller sets breakpoints.
fn sets_breakpoints(hider: Option<&Hider>) -> bool
    ensures { result ≡ are_some (functions_in (option_copied hider.entry)) }
{
    match hider {
        Some(Hider::Functions(functions)) => !functions.is_empty(),
        Some(Hider::Nothing) | Some(Hider::Probe) | None => false,
    }
}

/// Whether a controller makes agents.
fn makes_agents(hider: Option<&Hider>) -> bool
    ensures { result ≡ is_probe (option_copied hider.entry) }
{
    match hider {
        Some(Hider::Probe) => true,
        Some(Hider::Nothing) | Some(Hider::Functions(_)) | None => false,
    }
}

/// Whether the controller of a number sets breakpoints.
#[tactic(auto, unfolding(crate::specs::Hidings::hiders_of))]
pub(crate) fn has_functions(who: &[Hider], by: u32) -> bool
    ensures { result ≡ are_some ((hiders_of who.now).functions by) }
{
    sets_breakpoints(who.get(by as usize))
}

/// Whether the controller of a number makes agents.
#[tactic(auto, unfolding(crate::specs::Hidings::hiders_of))]
pub(crate) fn is_probe(who: &[Hider], by: u32) -> bool
    ensures { result ≡ (hiders_of who.now).probes by }
{
    makes_agents(who.get(by as usize))
}

/// Whether the controller of a number hides anything.
pub(crate) fn hides(who: &[Hider], by: u32) -> bool
    ensures { result ≡ hides (hiders_of who.now) by }
{
    has_functions(who, by) || is_probe(who, by)
}
