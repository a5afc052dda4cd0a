//! How those that may have waited for files are looked at again.
ghost use Rattle.std.specs.Prelude.{◌≡◌};
ghost use Rattle.pr_ready.specs.Ready.{HasAll, IsWoken};

use crate::looks::some_answer_of;
use crate::ready::put_if;
use pr_pids::ProcessSet;
use pr_proc::{Question, Sys, live};

/// Looks at each process of a set: it comes into another one where the answer about some lwp of it is yes.
pub fn wake<Q: Question>(movable: &mut ProcessSet, sleepers: &ProcessSet, sys: &Sys, question: &Q)
    ensures woken { IsWoken (Q.answer question.now) sys.now sleepers.now movable.new }
    ensures grows { HasAll movable.old movable.new }
{
    let mut from = 0;
    while let Some(pid) = sleepers.next_from(from) {
        put_if(movable, pid, some_answer_of(question, pid, live(sys, pid)));
        from = pid + 1;
    }
}
