//! What calls on files answer, and what comes of that.
ghost use Rattle.std.specs.Prelude.{◌≡◌, [], IsSome, IfOk, Err, is_err};
ghost use Rattle.pr_call.specs.Effects.{outcome_of};
ghost use Rattle.pr_call.specs.FileAnswers.{answer_meant, lacks_memory, settled};
ghost use Rattle.pr_model.specs.FileCallRows.{file_errno};
ghost use Rattle.pr_model.specs.State.{TracedLwp, TracedProcess, live_process};

use crate::requests::Performed;
use pr_file::FileNo;
use pr_model::Res;
use pr_num::{Errno, Info, NoMemory, Sig};
use pr_proc::{Sys, generate};

/// Why a call on files is refused.
#[derive(Clone, Copy, Debug, PartialEq, Eq)]
pub enum Refusal {
    /// By its arguments or by the memory of its process.
    Fails(Errno),
    /// By the files. Also that it has to wait, and that memory ran out.
    Files(FileNo),
}

impl From<NoMemory> for Refusal {
    ghost use Rattle.std.specs.Prelude.{◌≡◌};
    ghost use Rattle.pr_call.specs.declared.answers.Refusal.TheVariants as variants;
    ghost use Rattle.pr_parts.specs.declared.files.FileNo.TheVariants as reasons;

    ghost from_gives = { λ _ e. e ≡ variants.Files reasons.NoMemory };

    fn from(error: NoMemory) -> Refusal {
        Refusal::Files(FileNo::from(error))
    }
}

/// Whether memory ran out.
pub fn lacks_memory(answer: Result<u64, Refusal>) -> bool
    ensures { result ≡ lacks_memory answer }
{
    match answer {
        Err(Refusal::Files(FileNo::NoMemory)) => true,
        _ => false,
    }
}

/// An answer of a call that may take memory, unless that ran out.
pub fn unless_no_memory(answer: Result<u64, Refusal>) -> Result<Result<u64, Refusal>, NoMemory>
    ensures ok { IfOk result (λ same. same ≡ answer) }
    ensures lacks { is_err result ≡ lacks_memory answer }
{
    if lacks_memory(answer) {
        return Err(NoMemory);
    }
    Ok(answer)
}

/// The errno of a refusal of files.
fn errno_of(why: FileNo) -> Errno
    ensures { result ≡ file_errno why }
{
    match why {
        FileNo::BadFd => Errno::Badf,
        FileNo::NoFile => Errno::Noent,
        FileNo::NoPlace => Errno::Mfile,
        FileNo::TableFull => Errno::Nfile,
        FileNo::NoSpace => Errno::Nospc,
        FileNo::NotSeekable => Errno::Spipe,
        FileNo::BadOffset => Errno::Inval,
        FileNo::NoReader => Errno::Pipe,
        FileNo::Sleep => Errno::Intr,
        FileNo::NoMemory => Errno::Nomem,
    }
}

/// A call that the files refused: a writer to a pipe that nothing reads is sent SIGPIPE (write(2)).
#[tactic(auto, using(crate::proofs::FileAnswerLemmas::refusing))]
fn refuse(sys: &mut Sys, pid: u32, id: u32, why: FileNo) -> Performed
    requires { IsSome (live_process sys.old pid) }
    ensures system { (p : TracedProcess) (l : TracedLwp) → sys.new ≡ settled pid p id l (Err (Refusal.Files why)) sys.old }
    ensures outcome { result ≡ outcome_of (answer_meant (Err (Refusal.Files why)) []) }
{
    match why {
        FileNo::Sleep => Performed::Sleep,
        FileNo::NoReader => {
            generate(sys, pid, Some(id), Sig::Pipe, Info::of_broken_pipe());
            Performed::Done(Res::Error(Errno::Pipe))
        }
        _ => Performed::Done(Res::Error(errno_of(why))),
    }
}

/// What comes of a call on files that answered so, once its changes are made. Takes no memory.
#[tactic(auto, using(crate::proofs::FileAnswerLemmas::settling))]
pub fn settle(sys: &mut Sys, pid: u32, id: u32, answer: Result<u64, Refusal>) -> Performed
    requires { IsSome (live_process sys.old pid) }
    ensures system { (p : TracedProcess) (l : TracedLwp) → sys.new ≡ settled pid p id l answer sys.old }
    ensures outcome { result ≡ outcome_of (answer_meant answer []) }
{
    match answer {
        Ok(value) => Performed::Done(Res::Value(value)),
        Err(Refusal::Fails(error)) => Performed::Done(Res::Error(error)),
        Err(Refusal::Files(why)) => refuse(sys, pid, id, why),
    }
}
