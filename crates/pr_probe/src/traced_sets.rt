//! The four sets that a process is traced by: they are noted, set for the agent, and set back.
ghost use Rattle.std.specs.Prelude.{◌≡◌};
ghost use Rattle.pr_num.specs.Messages.{tail_length};
ghost use Rattle.pr_num.specs.Records.{status_ranges};
ghost use Rattle.pr_rec.specs.Reading.{record_read};
ghost use Rattle.pr_probe.specs.TracedSets.{kind_after, no_sets, agent_sets, set_word, trace_message, sets_in, is_watched_in};

use pr_msg::Message;
use pr_num::{FltSet, SigSet, SysSet, Sysno};
use pr_rec::Status;

/// One of the sets that a process is traced by, in the order in which they are set.
#[derive(Clone, Copy, Debug, PartialEq, Eq)]
pub enum SetKind {
    /// The signals that stop an lwp that receives one.
    Signals,
    /// The faults that stop an lwp that incurs one.
    Faults,
    /// The system calls that stop an lwp at their entry.
    Entries,
    /// The system calls that stop an lwp at their exit.
    Exits,
}

/// The sets that a process is traced by.
#[derive(Clone, Copy)]
pub struct TracedSets {
    pub signals: SigSet,
    pub faults: FltSet,
    pub entries: SysSet,
    pub exits: SysSet,
}

/// The set after a set.
#[tactic(auto, unfolding(crate::specs::TracedSets::kind_after))]
pub(crate) fn kind_after(kind: SetKind) -> Option<SetKind>
    ensures { result ≡ kind_after kind }
{
    match kind {
        SetKind::Signals => Some(SetKind::Faults),
        SetKind::Faults => Some(SetKind::Entries),
        SetKind::Entries => Some(SetKind::Exits),
        SetKind::Exits => None,
    }
}

/// The message that sets one of the sets.
#[tactic(auto, unfolding(crate::specs::TracedSets::trace_message, pr_num::specs::Messages::tail_length))]
pub(crate) fn trace_message(kind: SetKind, word: u64) -> Message
    ensures value { result ≡ trace_message kind word }
    ensures alone { tail_length result ≡ 0 }
{
    match kind {
        SetKind::Signals => Message::Strace { signals: word },
        SetKind::Faults => Message::Sfault { faults: word },
        SetKind::Entries => Message::Sentry { calls: word },
        SetKind::Exits => Message::Sexit { calls: word },
    }
}

impl TracedSets {
    /// Nothing is traced.
    #[tactic(auto, unfolding(crate::specs::TracedSets::no_sets))]
    pub(crate) fn nothing() -> TracedSets
        ensures { result ≡ no_sets }
    {
        TracedSets {
            signals: SigSet::empty(),
            faults: FltSet::empty(),
            entries: SysSet::empty(),
            exits: SysSet::empty(),
        }
    }

    /// What is traced while the agent stands: the exit of fstat(2) alone.
    #[tactic(auto, unfolding(crate::specs::TracedSets::agent_sets, crate::specs::TracedSets::no_sets))]
    pub(crate) fn of_agent() -> TracedSets
        ensures { result ≡ agent_sets }
    {
        TracedSets {
            exits: SysSet::empty().with(Sysno::Fstat),
            ..TracedSets::nothing()
        }
    }

    /// The sets of a status; none of bytes that are no status.
    #[tactic(auto, unfolding(crate::specs::TracedSets::sets_in))]
    pub(crate) fn of_status(bytes: &[u8]) -> TracedSets
        ensures { result ≡ sets_in (record_read status_ranges bytes.now) }
    {
        match Status::decode(bytes) {
            Ok(status) => TracedSets {
                signals: status.traced_signals,
                faults: status.traced_faults,
                entries: status.traced_entries,
                exits: status.traced_exits,
            },
            Err(_) => TracedSets::nothing(),
        }
    }

    /// The word of one of the sets.
    #[tactic(auto, unfolding(crate::specs::TracedSets::set_word))]
    pub(crate) fn word(&self, kind: SetKind) -> u64
        ensures { result ≡ set_word self.now kind }
    {
        match kind {
            SetKind::Signals => self.signals.word(),
            SetKind::Faults => self.faults.word(),
            SetKind::Entries => self.entries.word(),
            SetKind::Exits => self.exits.word(),
        }
    }
}

/// Whether a process has a watched area, by its status.
#[tactic(auto, unfolding(crate::specs::TracedSets::is_watched_in))]
pub(crate) fn is_watched(bytes: &[u8]) -> bool
    ensures { result ≡ is_watched_in (record_read status_ranges bytes.now) }
{
    match Status::decode(bytes) {
        Ok(status) => status.areas > 0,
        Err(_) => false,
    }
}
