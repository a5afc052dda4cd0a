ghost use Rattle.std.specs.Prelude.{◌≡◌, ◌≤◌};
ghost use Rattle.pr_rec.specs.Fields.{flag_if, lwp_flags_of};

use pr_num::LwpFlags;

/// What the flags of an lwp tell of it.
#[derive(Clone, Copy, Debug, PartialEq, Eq)]
pub struct LwpMarks {
    /// It is stopped, for whatever reason.
    pub stopped: bool,
    /// It is stopped on an event of interest.
    pub on_event: bool,
    /// It is directed to stop.
    pub directed: bool,
    /// It is to incur FLTTRACE after the next instruction.
    pub step: bool,
    /// It is asleep in a system call.
    pub asleep: bool,
    /// It is the agent.
    pub agent: bool,
}

impl LwpMarks {
    /// The flags of an lwp with these marks.
    pub fn flags(self) -> LwpFlags
        ensures { result ≡ lwp_flags_of self }
    {
        LwpFlags::of_word(
            bit_if(self.stopped, LwpFlags::STOPPED)
                + bit_if(self.on_event, LwpFlags::ISTOP)
                + bit_if(self.directed, LwpFlags::DSTOP)
                + bit_if(self.step, LwpFlags::STEP)
                + bit_if(self.asleep, LwpFlags::ASLEEP)
                + bit_if(self.agent, LwpFlags::AGENT),
        )
    }
}

/// The word of a flag that is set, else 0.
fn bit_if(set: bool, flag: LwpFlags) -> u64
    ensures value { result ≡ flag_if set flag }
    ensures bound { result ≤ flag }
{
    if set { flag.word() } else { 0 }
}
