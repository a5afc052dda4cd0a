//! How those that sleep in sleep are looked at when the clock comes to a moment.
ghost use Rattle.std.specs.Prelude.{◌≡◌, ◌≢◌, ◌<◌, ◌≤◌, ◌/◌, ℕ, true, slice_index};
ghost use Rattle.pr_num.specs.Limits.{process_limit};
ghost use Rattle.pr_model.specs.State.{live_process};
ghost use Rattle.pr_pids.specs.Members.{has_pid};
ghost use Rattle.pr_ready.specs.Ready.{HasAll, IsDue, some_answer_of, some_woken_of};

use crate::looks::some_answer_of;
use crate::moments::{Moments, least_of, next_moment_of};
use crate::ready::put_if;
use pr_pids::ProcessSet;
use pr_proc::{Question, Sys, live};

/// Looks at each process of a block: it comes into a set where the answer about some lwp of it is yes. Answers the next
/// moment at which the clock wakes one of them.
fn look_at_block<Q: Question>(movable: &mut ProcessSet, sys: &Sys, block: u32, question: &Q) -> u64
    requires { block < 64 }
    ensures looked { (pid : ℕ) → pid / 64 ≡ block → some_answer_of (Q.answer question.now) pid (live_process sys.now pid) ≡ true
        → has_pid movable.new pid ≡ true }
    ensures next { (pid moment : ℕ) → pid / 64 ≡ block → some_woken_of sys.now.clock moment (live_process sys.now pid) ≡ true
        → result ≤ moment }
    ensures grows { HasAll movable.old movable.new }
{
    let mut next = u64::MAX;
    for pid in block * 64..block * 64 + 64 {
        let process = live(sys, pid);
        put_if(movable, pid, some_answer_of(question, pid, process));
        next = next.min(next_moment_of(sys.clock, process));
    }
    next
}

/// Looks at a block whose moment has come, and notes its next one.
fn renew_block<Q: Question>(
    movable: &mut ProcessSet,
    blocks: &mut [u64; 64],
    sys: &Sys,
    block: u32,
    question: &Q,
)
    requires { block < 64 }
    ensures looked { (pid : ℕ) → pid / 64 ≡ block → slice_index blocks.old block ≤ sys.now.clock
        → some_answer_of (Q.answer question.now) pid (live_process sys.now pid) ≡ true
        → has_pid movable.new pid ≡ true }
    ensures next { (pid moment : ℕ) → pid / 64 ≡ block → slice_index blocks.old block ≤ moment
        → some_woken_of sys.now.clock moment (live_process sys.now pid) ≡ true → slice_index blocks.new block ≤ moment }
    ensures others { (other : ℕ) → other ≢ block → slice_index blocks.new other ≡ slice_index blocks.old other }
    ensures grows { HasAll movable.old movable.new }
{
    if blocks[block as usize] <= sys.clock {
        blocks[block as usize] = look_at_block(movable, sys, block, question);
    }
}

/// The same of each block.
fn renew_blocks<Q: Question>(
    movable: &mut ProcessSet,
    blocks: &mut [u64; 64],
    sys: &Sys,
    question: &Q,
)
    ensures looked { (pid : ℕ) → pid < process_limit → slice_index blocks.old (pid / 64) ≤ sys.now.clock
        → some_answer_of (Q.answer question.now) pid (live_process sys.now pid) ≡ true
        → has_pid movable.new pid ≡ true }
    ensures next { (pid moment : ℕ) → pid < process_limit → slice_index blocks.old (pid / 64) ≤ moment
        → some_woken_of sys.now.clock moment (live_process sys.now pid) ≡ true
        → slice_index blocks.new (pid / 64) ≤ moment }
    ensures grows { HasAll movable.old movable.new }
{
    for block in 0..64 {
        renew_block(movable, blocks, sys, block, question);
    }
}

/// Looks at those that may wake at the moment to which the clock has come: one comes into a set where the answer about
/// some lwp of it is yes. Where nobody's moment has come, nobody is looked at.
pub fn wake_due<Q: Question>(
    movable: &mut ProcessSet,
    moments: &mut Moments,
    sys: &Sys,
    question: &Q,
)
    ensures looked { (pid : ℕ) → pid < process_limit → IsDue moments.old pid sys.now.clock
        → some_answer_of (Q.answer question.now) pid (live_process sys.now pid) ≡ true
        → has_pid movable.new pid ≡ true }
    ensures next { (pid moment : ℕ) → pid < process_limit → IsDue moments.old pid moment
        → some_woken_of sys.now.clock moment (live_process sys.now pid) ≡ true → IsDue moments.new pid moment }
    ensures grows { HasAll movable.old movable.new }
{
    if moments.all <= sys.clock {
        renew_blocks(movable, &mut moments.blocks, sys, question);
        moments.all = least_of(&moments.blocks);
    }
}
