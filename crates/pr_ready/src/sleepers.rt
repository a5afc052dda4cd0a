//! Whether the clock has an lwp to wake.
ghost use Rattle.std.specs.Prelude.{◌≡◌};
ghost use Rattle.std.specs.List.{list_any};
ghost use Rattle.std.specs.Option.{option_copied};
ghost use Rattle.pr_api.specs.Sleepers.{is_sleeper, sleeps_on, some_sleeper};
ghost use Rattle.pr_model.specs.Lawful.{IsLawfulSystem};
ghost use Rattle.pr_ready.specs.Ready.{CoversDozing};
ghost use Rattle.pr_ready.specs.Walks.{has_sleeper_of};

use pr_model::Phase;
use pr_num::Sysno;
use pr_pids::ProcessSet;
use pr_proc::{Lwp, Proc, Sys, live};

/// Whether a phase is asleep in the call sleep until a moment that is later than this clock.
fn sleeps_on(clock: u64, phase: Phase) -> bool
    ensures { result ≡ sleeps_on clock phase }
{
    match phase {
        Phase::Asleep {
            call: Sysno::Sleep,
            args,
            since,
        } => u128::from(clock) < u128::from(since) + u128::from(args[0]),
        _ => false,
    }
}

fn has_sleeper(clock: u64, lwps: &[(u32, Lwp)]) -> bool
    ensures { result ≡ list_any (is_sleeper clock) lwps.now }
{
    lwps.iter().any(|entry| sleeps_on(clock, entry.1.phase))
}

fn has_sleeper_of(clock: u64, process: Option<&Proc>) -> bool
    ensures { result ≡ has_sleeper_of clock (option_copied process.entry) }
{
    match process {
        None => false,
        Some(process) => has_sleeper(clock, process.lwps.as_slice()),
    }
}

/// Whether some lwp, stopped or not, sleeps in the call sleep with a later moment. Looks at no process but those of a
/// set, which has every process with an lwp that sleeps in that call.
pub fn some_sleeper(sys: &Sys, dozing: &ProcessSet) -> bool
    requires lawful { IsLawfulSystem sys.now }
    requires covers { CoversDozing sys.now dozing.now }
    ensures { result ≡ some_sleeper sys.now }
{
    let mut from = 0;
    while let Some(pid) = dozing.next_from(from) {
        if has_sleeper_of(sys.clock, live(sys, pid)) {
            return true;
        }
        from = pid + 1;
    }
    false
}
