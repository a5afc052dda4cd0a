//! Turns of lwps.
ghost use Rattle.std.specs.Prelude.{◌≡◌, ◌++◌, OnOk};
ghost use Rattle.pr_hist.specs.Turns.{acting, doing, object, outcome_text, reason, result_text, stop_text, turn_text};

use crate::phrases::{Phrase, write_phrase};
use crate::texts::write_number;
use pr_model::{Did, How, Res, Turned};
use pr_num::NoMemory;
use pr_text::Text;

/// How an lwp acts on a signal.
#[tactic(auto, unfolding(crate::specs::Turns::acting))]
fn acting(how: How) -> &'static [u8]
    ensures { result.now ≡ acting how }
{
    match how {
        How::Caught => b"runs its handler of ",
        How::Ignored => b"ignores ",
        How::JobStop => b"is stopped by ",
        How::Died => b"is killed by ",
    }
}

/// What an lwp does in a turn.
#[tactic(auto, unfolding(crate::specs::Turns::doing))]
pub fn doing(did: Did) -> &'static [u8]
    ensures { result.now ≡ doing did }
{
    match did {
        Did::Stopped => b"stops: PR_REQUESTED",
        Did::Ran => b"runs an instruction",
        Did::Entered(_) => b"enters ",
        Did::Made(_, _) => b"makes ",
        Did::Slept(_) => b"falls asleep in ",
        Did::Woke(_, _) => b"wakes in ",
        Did::Returned(_) => b"returns from ",
        Did::Faulted(_) => b"incurs ",
        Did::Posted(_) => b"is sent the signal of ",
        Did::Took(_) => b"takes ",
        Did::Acted(_, how) => acting(how),
    }
}

/// To what: a system call, a fault or a signal by name.
#[tactic(auto, unfolding(crate::specs::Turns::object))]
pub fn object(did: Did) -> &'static [u8]
    ensures { result.now ≡ object did }
{
    match did {
        Did::Stopped => b"",
        Did::Ran => b"",
        Did::Entered(call) => call.name().as_bytes(),
        Did::Made(call, _) => call.name().as_bytes(),
        Did::Slept(call) => call.name().as_bytes(),
        Did::Woke(call, _) => call.name().as_bytes(),
        Did::Returned(call) => call.name().as_bytes(),
        Did::Faulted(fault) => fault.name().as_bytes(),
        Did::Posted(fault) => fault.name().as_bytes(),
        Did::Took(signal) => signal.name().as_bytes(),
        Did::Acted(signal, _) => signal.name().as_bytes(),
    }
}

/// What a system call gave.
#[tactic(auto, unfolding(crate::specs::Turns::result_text))]
fn write_result(text: &mut Text, res: Res) -> Result<(), NoMemory>
    ensures { OnOk result (text.new ≡ text.old ++ result_text res) }
{
    match res {
        Res::Value(n) => {
            text.text(b" = ")?;
            write_number(text, n)
        }
        Res::Error(e) => {
            text.text(b": ")?;
            text.text(e.name().as_bytes())
        }
        Res::Ended => text.text(b", and ends"),
    }
}

/// What came of a turn.
#[tactic(auto, unfolding(crate::specs::Turns::outcome_text))]
pub fn write_outcome(text: &mut Text, did: Did) -> Result<(), NoMemory>
    ensures { OnOk result (text.new ≡ text.old ++ outcome_text did) }
{
    match did {
        Did::Made(_, res) => write_result(text, res),
        Did::Woke(_, res) => write_result(text, res),
        _ => Ok(()),
    }
}

/// Why an lwp stops that met something traced in such a turn, and which set of its process had it.
#[tactic(auto, unfolding(crate::specs::Turns::reason))]
fn reason(did: Did) -> &'static [u8]
    ensures { result.now ≡ reason did }
{
    match did {
        Did::Entered(_) => b"PR_SYSENTRY, by its entry set",
        Did::Made(_, _) => b"PR_SYSEXIT, by its exit set",
        Did::Woke(_, _) => b"PR_SYSEXIT, by its exit set",
        Did::Faulted(_) => b"PR_FAULTED, by its fault set",
        Did::Took(_) => b"PR_SIGNALLED, by its signal set",
        _ => b"an event",
    }
}

#[tactic(auto, unfolding(crate::specs::Turns::stop_text))]
fn write_stop(text: &mut Text, did: Did, stop: bool) -> Result<(), NoMemory>
    ensures { OnOk result (text.new ≡ text.old ++ stop_text did stop) }
{
    if stop {
        write_phrase(text, Phrase::AndStops)?;
        text.text(reason(did))
    } else {
        Ok(())
    }
}

/// A turn.
#[tactic(auto, unfolding(crate::specs::Turns::turn_text))]
pub fn write_turn(text: &mut Text, turned: Turned) -> Result<(), NoMemory>
    ensures { OnOk result (text.new ≡ text.old ++ turn_text turned) }
{
    text.text(doing(turned.did))?;
    text.text(object(turned.did))?;
    write_outcome(text, turned.did)?;
    write_stop(text, turned.did, turned.stop)
}
