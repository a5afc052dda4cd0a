//! What ps(1) shows of a process and what it has used, filled from the state (proc(4), "psinfo" and "usage").
ghost use Rattle.std.specs.Prelude.{◌≡◌};
ghost use Rattle.pr_model.specs.Records.{psinfo_of, usage_of};
ghost use Rattle.pr_num.specs.Records.{psinfo_ranges, usage_ranges};
ghost use Rattle.pr_rec.specs.Reading.{BeginsWith};
ghost use Rattle.pr_rec.specs.RecordBytes.{psinfo_bytes, usage_bytes};
ghost use Rattle.pr_rec.specs.RecordWords.{psinfo_words_of, usage_words_of};

use pr_proc::{Proc, Sys, seen};
use pr_rec::{Psinfo, Usage, name_field};

/// What ps(1) shows of a process of a system, with its id, also of a zombie.
#[tactic(auto, unfolding(pr_model::specs::Records::psinfo_of, pr_model::specs::Readers::size_seen))]
pub fn psinfo_of(sys: &Sys, pid: u32, process: &Proc) -> Psinfo
    ensures { result ≡ psinfo_of sys.now pid process.now }
{
    Psinfo {
        id: pid,
        parent: process.parent,
        lwps: process.lwps.len() as u64,
        zombie: process.ended.is_some(),
        wait_status: process.ended.unwrap_or(0),
        mapped: seen(sys, process).mapped(),
        made_at: process.made_at,
        job_stop: process.job_stop,
        program: name_field(&process.program),
    }
}

/// The bytes of what ps(1) shows of a process of a system, with its id. They decode to it.
pub fn psinfo_bytes(sys: &Sys, pid: u32, process: &Proc) -> [u8; 96]
    ensures bytes { result ≡ psinfo_bytes (psinfo_of sys.now pid process.now) }
    ensures decodes { BeginsWith psinfo_ranges result (psinfo_words_of (psinfo_of sys.now pid process.now)) }
{
    psinfo_of(sys, pid, process).encode()
}

/// What the process of an id has used, also a zombie.
#[tactic(auto, unfolding(pr_model::specs::Records::usage_of))]
pub fn usage_of(pid: u32, process: &Proc) -> Usage
    ensures { result ≡ usage_of pid process.now }
{
    let used = process.control.usage;
    Usage {
        id: pid,
        calls: used.calls,
        signals: used.signals,
        faults: used.faults,
        instructions: used.instructions,
    }
}

/// The bytes of what the process of an id has used. They decode to it.
pub fn usage_bytes(pid: u32, process: &Proc) -> [u8; 40]
    ensures bytes { result ≡ usage_bytes (usage_of pid process.now) }
    ensures decodes { BeginsWith usage_ranges result (usage_words_of (usage_of pid process.now)) }
{
    usage_of(pid, process).encode()
}
