ghost use Rattle.std.specs.Prelude.{◌≡◌, ℕ, ◌+◌, ◌<◌, ◌≤◌, List, [], length, take, Option, IsOk, OnOk, IfOk, OnErr};
ghost use Rattle.pr_io.specs.Known.{with_end};
ghost use Rattle.pr_io.specs.Faults.{Rose, raised};
ghost use Rattle.pr_io.specs.Writing.{AppendsFront};

use crate::Failed;

/// Where bytes go to.
pub trait Sink {
    /// The bytes that were written, where the sink tells them.
    ghost written: { Self → Option (List ℕ) };

    /// The faults so far. The count never falls, and stays at 2^64 - 1.
    ghost faults: { Self → ℕ };

    /// Appends the first bytes of `part`, at least one, and answers how many.
    /// A write that fails appends nothing, and it alone raises the count, by one.
    fn write(&mut self, part: &[u8]) -> Result<usize, Failed>
        requires { 0 < length part.now }
        ensures some { IfOk result (λ n. (1 ≤ n) × (n ≤ length part.now)) }
        ensures appended { IfOk result
            (λ n. written self.new ≡ with_end (written self.old) (take n part.now)) }
        ensures kept { OnErr result (written self.new ≡ written self.old) }
        ensures failed { OnErr result (Rose (faults self.old) (faults self.new)) }
        ensures by_one { OnErr result (faults self.new ≡ raised (faults self.old)) }
        ensures no_fault { OnOk result (faults self.new ≡ faults self.old) }
        ensures never_falls { faults self.old ≤ faults self.new };
}

/// Appends all of `part`, in as many writes as it takes, or fails and has appended a prefix of it
/// that lacks some bytes. It takes no memory.
#[tactic(auto, using(crate::proofs::Counts::counts, crate::proofs::Known::known, crate::proofs::Known::parts))]
pub fn write_all<K: Sink>(sink: &mut K, part: &[u8]) -> Result<(), Failed>
    ensures all { OnOk result (K.written sink.new ≡ with_end (K.written sink.old) part.now) }
    ensures front { OnErr result (AppendsFront (K.written sink.old) (K.written sink.new) part.now) }
    ensures failed { OnErr result (Rose (K.faults sink.old) (K.faults sink.new)) }
    ensures by_one { OnErr result (K.faults sink.new ≡ raised (K.faults sink.old)) }
    ensures no_fault { OnOk result (K.faults sink.new ≡ K.faults sink.old) }
    ensures never_falls { K.faults sink.old ≤ K.faults sink.new }

    // Of nothing no write is made.
    ensures nothing { part.now ≡ [] → IsOk result × (sink.new ≡ sink.old) }
{
    let mut at = 0;
    while at < part.len() {
        at += sink.write(&part[at..])?;
    }
    Ok(())
}
