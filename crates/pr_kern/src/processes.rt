//! Processes that controllers make, and the list of those that there are.
ghost use Rattle.std.specs.Prelude.{◌≡◌, ◌<◌, true, IfOk, OnErr, length, slice_get};
ghost use Rattle.pr_kern.specs.Memory.{may_lack_for_process};
ghost use Rattle.pr_model.specs.Calls.{Answer, spawn_answer, spawn_found};
ghost use Rattle.pr_model.specs.Lawful.{IsLawfulSystem};
ghost use Rattle.pr_model.specs.Records.{list_of};
ghost use Rattle.pr_model.specs.declared.calls.Reply.TheVariants.{Bytes};
ghost use Rattle.pr_rec.specs.RecordBytes.{list_bytes};

use crate::Machine;
use pr_model::Reply;
use pr_num::{Errno, Name, NoMemory};
use pr_proc::{errno_of, program_named, spawn as make_process};
use pr_view::list_bytes;
use std::alloc::Global;

/// Makes a process of the program at a place, under the next id, which is the reply; `held`: it is directed to stop
/// before it runs. EAGAIN: as many processes were made as can be; ENOMEM: too much would be mapped.
#[tactic(auto, using(crate::proofs::SpawnLemmas::spawning))]
fn spawn_at(state: &mut Machine, alloc: Global, place: u32, held: bool) -> Result<Reply, NoMemory>
    requires lawful { IsLawfulSystem state.old.system }
    requires program { place < length state.old.system.programs }
    ensures ok { IfOk result
        (λ reply. (record { state = state.new; reply = reply })
        ≡ spawn_found state.old held (slice_get state.old.system.programs place)) }
    ensures memory { OnErr result
        (may_lack_for_process (spawn_found state.old held (slice_get state.old.system.programs place)).reply ≡ true) }
    ensures err { OnErr result (state.new ≡ state.old) }
{
    match make_process(alloc, &mut state.system, place, held) {
        Ok(child) => Ok(Reply::Pid(child)),
        Err(reason) => {
            let error = errno_of(reason)?;
            Ok(Reply::Fail(error))
        }
    }
}

/// Makes a process of the program of a name, under the next id, which is the reply; `held`: it is directed to stop
/// before it runs (ENOENT for no such program, EAGAIN, ENOMEM, in this order). Memory runs out only where neither
/// ENOENT nor EAGAIN comes; then, and where it is refused, the state is as it was.
#[tactic(auto, unfolding(pr_model::specs::Calls::spawn_answer))]
pub fn spawn(
    state: &mut Machine,
    alloc: Global,
    program: &Name,
    held: bool,
) -> Result<Reply, NoMemory>
    requires lawful { IsLawfulSystem state.old.system }
    ensures ok { IfOk result
        (λ reply. (record { state = state.new; reply = reply }) ≡ spawn_answer state.old program.now held) }
    ensures memory { OnErr result (may_lack_for_process (spawn_answer state.old program.now held).reply ≡ true) }
    ensures err { OnErr result (state.new ≡ state.old) }
{
    match program_named(&state.system, program.as_slice()) {
        None => Ok(Reply::Fail(Errno::Noent)),
        Some(place) => spawn_at(state, alloc, place, held),
    }
}

/// Lists the processes that were not reaped, process 0 aside.
pub fn list(state: &Machine, alloc: Global) -> Result<Reply, NoMemory>
    ensures { IfOk result (λ reply. reply ≡ Bytes (list_bytes (list_of state.now.system))) }
{
    let bytes = list_bytes(alloc, &state.system)?;
    Ok(Reply::Bytes(bytes))
}
