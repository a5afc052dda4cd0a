//! Messages that read and write memory, whatever its protection (proc(4), "PCREAD", "PCWRITE").
ghost use Rattle.std.specs.Prelude.{◌≡◌, ◌≤◌, ℕ, List, Option, None, IsSome, IfOk, OnErr, is_ok, length, true, false};
ghost use Rattle.std.specs.Option.{ForSome};
ghost use Rattle.pr_num.specs.Limits.{message_bytes_limit};
ghost use Rattle.pr_num.specs.Messages.{bad_operand};
ghost use Rattle.pr_num.specs.Spaces.{bytes_for};
ghost use Rattle.pr_num.specs.declared.messages.Message.TheVariants as message;
ghost use Rattle.pr_parts.specs.AddressSpaces.{with_bytes};
ghost use Rattle.pr_model.specs.Changes.{with_space};
ghost use Rattle.pr_model.specs.Messages.{write_answer};
ghost use Rattle.pr_model.specs.State.{live_process};
ghost use Rattle.pr_ctl.specs.Answers.{Answers};
ghost use Rattle.pr_ctl.specs.Memory.{memory_reply};

use crate::lending::has_lent;
use pr_mem::{MemFault, Space};
use pr_model::Reply;
use pr_num::{Bytes, Errno, NoMemory};
use pr_proc::{Proc, Sys, live, seen};
use std::alloc::Global;

/// The bytes from an address on, whatever their protection (EIO where not all of them are mapped).
fn read_space(alloc: Global, space: &Space, at: u64, size: u64) -> Result<Reply, NoMemory>
    requires { size ≤ message_bytes_limit }
    ensures { IfOk result (λ reply. reply ≡ memory_reply (bytes_for 0 space.now at size)) }
{
    let mut bytes = vec![in alloc; 0; size as usize]?;
    match space.read(at, &mut bytes, 0) {
        Ok(()) => Ok(Reply::Bytes(Bytes::from_vec(bytes))),
        Err(_) => Ok(Reply::Fail(Errno::Io)),
    }
}

/// PCREAD: the bytes from an address on, whatever their protection (EIO where not all of them are mapped).
#[tactic(auto, using(crate::proofs::MemoryLemmas::memory_laws), unfolding(pr_model::specs::Messages::message_answer, pr_model::specs::Messages::read_answer, pr_num::specs::Messages::bad_operand))]
pub fn read(alloc: Global, sys: &Sys, pid: u32, at: u64, size: u64) -> Result<Reply, NoMemory>
    requires live { IsSome (live_process sys.now pid) }
    requires columns { bad_operand (message.Read at size) ≡ None }
    ensures { (lwp : Option ℕ) (tail : List ℕ) (used : ℕ)
        → IfOk result (λ reply. Answers sys.now pid lwp (message.Read at size) tail used sys.now reply) }
{
    let process = live(sys, pid).unwrap();
    read_space(alloc, seen(sys, process), at, size)
}

/// Writes bytes to a process's memory from an address on, whatever its protection; false: not all of it is mapped, and
/// nothing is written. Nor is it where memory runs out.
#[tactic(auto, unfolding(pr_model::specs::Changes::with_space))]
fn write_in(process: &mut Proc, at: u64, bytes: &[u8]) -> Result<bool, NoMemory>
    ensures value { IfOk result (λ done. done ≡ is_ok (bytes_for 0 process.old.space at (length bytes.now))) }
    ensures written { IfOk result
        (λ done. done ≡ true → process.new ≡ with_space (with_bytes at bytes.now process.old.space) process.old) }
    ensures refused { IfOk result (λ done. done ≡ false → process.new ≡ process.old) }
    ensures err { OnErr result (process.new ≡ process.old) }
{
    match process.space.write(at, bytes, 0) {
        Ok(()) => Ok(true),
        Err(MemFault::NoMemory) => Err(NoMemory),
        Err(_) => Ok(false),
    }
}

/// Writes bytes to the memory of a process, which it has not lent (EIO where not all of the range is mapped). Where
/// memory runs out the system stays as it is.
#[tactic(auto, using(pr_num::proofs::ByIdLaws::by_id_laws, pr_proc::proofs::LifeLemmas::life_laws), unfolding(pr_model::specs::Messages::write_answer, pr_model::specs::State::with_process))]
fn write_own(sys: &mut Sys, pid: u32, at: u64, bytes: &[u8], used: u64) -> Result<Reply, NoMemory>
    requires { IsSome (live_process sys.old pid) }
    ensures ok { IfOk result
        (λ reply.
        ForSome (live_process sys.old pid)
        (λ p. (record { system = sys.new; reply = reply }) ≡ write_answer sys.old pid p at bytes.now used)) }
    ensures err { OnErr result (sys.new ≡ sys.old) }
{
    let done = write_in(sys.processes.get_mut(pid), at, bytes)?;
    if done {
        Ok(Reply::Used(used))
    } else {
        Ok(Reply::Fail(Errno::Io))
    }
}

/// PCWRITE: writes bytes from an address on, whatever the protection (EBUSY where the process has lent its memory, EIO
/// where not all of the range is mapped). Where memory runs out the system stays as it is.
#[tactic(auto, unfolding(pr_model::specs::Messages::message_answer))]
pub fn write(sys: &mut Sys, pid: u32, at: u64, bytes: &[u8], used: u64) -> Result<Reply, NoMemory>
    requires { IsSome (live_process sys.old pid) }
    ensures ok { (lwp : Option ℕ) (size : ℕ)
        → IfOk result (λ reply. Answers sys.old pid lwp (message.Write at size) bytes.now used sys.new reply) }
    ensures err { OnErr result (sys.new ≡ sys.old) }
{
    if has_lent(sys, pid) {
        return Ok(Reply::Fail(Errno::Busy));
    }
    write_own(sys, pid, at, bytes, used)
}
