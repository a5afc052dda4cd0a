//! When processes last moved.
ghost use Rattle.std.specs.Prelude.{◌≡◌, ◌++◌, OnOk};
ghost use Rattle.std.specs.Option.{option_copied};
ghost use Rattle.pr_hist.specs.Names.{moved_or_none, moved_text};
ghost use Rattle.pr_hist.specs.News.{moved_after, moved_now};

use crate::names::Names;
use crate::phrases::{Phrase, write_phrase};
use pr_model::Actor;
use pr_num::{ById, NoMemory};
use pr_text::Text;

/// Notes when a process moved.
#[tactic(auto, unfolding(crate::specs::News::moved_now))]
fn note_moved(moved: &mut ById<usize>, pid: u32, number: usize) -> Result<(), NoMemory>
    ensures { OnOk result (moved.new ≡ moved_now pid number moved.old) }
{
    match moved.find_mut(pid) {
        Some(last) => {
            *last = number;
            Ok(())
        }
        None => moved.insert(pid, number),
    }
}

/// Notes a turn.
#[tactic(auto, unfolding(crate::specs::News::moved_after))]
pub fn note_turn(moved: &mut ById<usize>, number: usize, actor: Actor) -> Result<(), NoMemory>
    ensures { OnOk result (moved.new ≡ moved_after number actor moved.old) }
{
    match actor {
        Actor::Lwp(pid, _) => note_moved(moved, pid, number),
        Actor::Controller(_) => Ok(()),
        Actor::Clock => Ok(()),
    }
}

/// The entry in which a process last moved.
fn write_moved_in(text: &mut Text, pid: u32, number: Option<&usize>) -> Result<(), NoMemory>
    ensures { OnOk result (text.new ≡ text.old ++ moved_or_none pid (option_copied number.entry)) }
{
    match number {
        None => Ok(()),
        Some(number) => {
            text.text(b"; process ")?;
            text.decimal(u64::from(pid))?;
            write_phrase(text, Phrase::LastMoved)?;
            text.decimal(*number as u64)
        }
    }
}

/// The entry in which the process last moved whose file is open by a handle.
#[tactic(auto, unfolding(crate::specs::Names::moved_text))]
pub fn write_moved(text: &mut Text, names: &Names, handle: u32) -> Result<(), NoMemory>
    ensures { OnOk result (text.new ≡ text.old ++ moved_text names.now handle) }
{
    match names.get(handle) {
        None => Ok(()),
        Some(known) => write_moved_in(text, known.pid, names.moved().get(known.pid)),
    }
}
