ghost use Rattle.std.specs.Prelude.{◌≡◌};
ghost use Rattle.pr_rec.specs.Fields.{process_flags_of};

use pr_num::{Modes, ProcessFlags};

/// The flags of a process with these modes, which may be the system process, and may have lent its address space.
pub fn flags_of_process(modes: Modes, system: bool, lent: bool) -> ProcessFlags
    ensures { result ≡ process_flags_of modes system lent }
{
    let issys = if system {
        ProcessFlags::ISSYS.word()
    } else {
        0
    };
    let vforkp = if lent { ProcessFlags::VFORKP.word() } else { 0 };
    ProcessFlags::of_word(modes.word() + issys + vforkp)
}
