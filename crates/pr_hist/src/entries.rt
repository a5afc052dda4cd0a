//! Entries of a history.
ghost use Rattle.std.specs.Prelude.{◌≡◌, ◌++◌, OnOk};
ghost use Rattle.pr_plain.specs.HistoryText.{actor_text};
ghost use Rattle.pr_hist.specs.Entries.{act_text, tick_text, words_of};

use crate::names::Names;
use crate::replies::write_call;
use crate::texts::{write_lwp, write_time};
use crate::turns::write_turn;
use pr_model::{Act, Actor, Entry};
use pr_num::NoMemory;
use pr_text::Text;

/// Who acted.
#[tactic(auto, unfolding(pr_plain::specs::HistoryText::actor_text))]
pub fn write_actor(text: &mut Text, actor: Actor) -> Result<(), NoMemory>
    ensures { OnOk result (text.new ≡ text.old ++ actor_text actor) }
{
    match actor {
        Actor::Controller(k) => {
            text.text(b"c")?;
            text.decimal(u64::from(k))
        }
        Actor::Lwp(pid, lwp) => write_lwp(text, pid, lwp),
        Actor::Clock => text.text(b"clock"),
    }
}

/// A tick of the clock: `comes to` the time, in milliseconds, that it shows from then on.
#[tactic(auto, unfolding(crate::specs::Entries::tick_text))]
pub fn write_tick(text: &mut Text, n: u64) -> Result<(), NoMemory>
    ensures { OnOk result (text.new ≡ text.old ++ tick_text n) }
{
    text.text(b"comes to ")?;
    write_time(text, n)
}

/// What was done.
#[tactic(auto, unfolding(crate::specs::Entries::act_text))]
fn write_act(text: &mut Text, full: bool, names: &Names, act: &Act) -> Result<(), NoMemory>
    ensures { OnOk result (text.new ≡ text.old ++ act_text full names.now act.now) }
{
    match act {
        Act::Call(call, reply) => write_call(text, full, names, call, reply),
        Act::Turn(turned) => write_turn(text, *turned),
        Act::Tick(n) => write_tick(text, *n),
    }
}

/// Appends the block of the entry of a number, which counts from 0. `names` has the handles that are open before the
/// entry, each with what it stands for. `full`: all fields of a record are told, also those that say nothing.
///
/// Any entry is told, also one that no machine makes.
#[tactic(auto, unfolding(crate::specs::Entries::words_of))]
pub fn words_of(
    text: &mut Text,
    full: bool,
    names: &Names,
    number: usize,
    entry: &Entry,
) -> Result<(), NoMemory>
    ensures { OnOk result (text.new ≡ text.old ++ words_of full number names.now entry.now) }
{
    text.decimal(number as u64)?;
    text.text(b" ")?;
    write_actor(text, entry.actor)?;
    text.text(b" ")?;
    write_act(text, full, names, &entry.act)?;
    text.text(b"\n")
}
