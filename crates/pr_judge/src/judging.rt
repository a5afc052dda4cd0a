//! Whether a history is legal.
ghost use Rattle.std.specs.Prelude.{◌≤◌, ◌<◌, ◌+◌, length, IfOk, IfSome};
ghost use Rattle.pr_num.specs.Limits.{controller_limit};
ghost use Rattle.pr_judge.specs.Judgements.{Judges};

use crate::plays::play;
use pr_api::Kernel;
use pr_model::History;
use pr_num::NoMemory;
use std::alloc::Global;

/// The first entry of a history, by its place from 0 on, that a kernel does not make where this many controllers call
/// it; none where it makes them all. The kernel is at its start: it is made to play the history. An entry is not made
/// where its actor does not fit what it did, its controller is none of them, its call is not ready, its lwp cannot have
/// a turn, or the clock is at its last moment; nor where the kernel replies, does or comes to something else.
///
/// Of a kernel that tells its machine, the answer is exact: the history is legal from the machine's state, or the entry
/// is the first that is not. Goes over the history once.
pub fn legal<Q: Kernel>(
    alloc: Global,
    mut kernel: Q,
    controllers: u32,
    history: &History,
) -> Result<Option<usize>, NoMemory>
    requires controllers { controllers ≤ controller_limit }
    requires places { length (Q.view kernel).history + length history.now.entries ≤ (Q.view kernel).places }
    ensures judged { IfOk result (λ first. IfSome (Q.view kernel).machine (λ s. Judges controllers s history.now.entries first)) }
    ensures within { IfOk result (λ first. IfSome first (λ place. place < length history.now.entries)) }
{
    for place in 0..history.len() {
        let entry = history.get(place).unwrap();
        if !play(alloc, &mut kernel, controllers, entry)? {
            return Ok(Some(place));
        }
    }
    Ok(None)
}
