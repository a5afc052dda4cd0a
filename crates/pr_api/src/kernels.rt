ghost use Rattle.std.specs.Prelude.{◌≡◌, ◌≤◌, ◌<◌, true, length, OnOk, IfOk, OnErr};
ghost use Rattle.std.specs.Option.{option_copied};
ghost use Rattle.pr_num.specs.Limits.{clock_limit, controller_limit};
ghost use Rattle.pr_api.specs.Entries.{last_reply_of};
ghost use Rattle.pr_api.specs.Steps.{IsCalled, IsTicked, IsTurned};
ghost use Rattle.pr_api.specs.Views.{IsLawful, KernelView, next_of};

use pr_model::{Call, Reply, Turned};
use pr_num::NoMemory;

/// A kernel: the calls that controllers make of it, the turns of its lwps, and its clock, each of which is one entry of
/// its history. A kernel may tell the state of its machine; then all that it does is what that machine does. Of any
/// other kernel it is known that each step adds its one entry, that a reply has the shape of its call, and that nothing
/// changes where memory runs out.
pub trait Kernel: Drop {
    /// What contracts see of a kernel.
    ghost view: { Self → KernelView };

    /// Whether a call of a controller is ready. Takes no memory.
    fn ready(&self, by: u32, call: &Call) -> bool
        ensures { result ≡ (view self.now).is_ready by call.now };

    /// Makes a call of a controller and adds its entry; where memory runs out, the kernel is as it was.
    fn call(&mut self, by: u32, call: Call) -> Result<(), NoMemory>
        requires by { by < controller_limit }
        requires ready { (view self.old).is_ready by call ≡ true }
        requires place { length (view self.old).history < (view self.old).places }
        ensures ok { OnOk result (IsCalled by call (view self.old) (view self.new)) }
        ensures err { OnErr result (self.new ≡ self.old) };

    /// The reply of the last entry: `None` exactly where there is no entry or the last one is no call. Takes no memory.
    fn last_reply(&self) -> Option<&Reply>
        ensures { option_copied result ≡ last_reply_of (view self.now).history };

    /// Whether an lwp can have a turn: false for an lwp that is not live. Takes no memory.
    fn lwp_movable(&self, pid: u32, lwp: u32) -> bool
        ensures { result ≡ (view self.now).can_turn pid lwp };

    /// The least live lwp above another one, or of all, by process and then by lwp; only one that can have a turn,
    /// where that is asked. Takes no memory.
    fn next_lwp(&self, after: Option<(u32, u32)>, movable: bool) -> Option<(u32, u32)>
        ensures { result ≡ next_of (view self.now) movable after };

    /// Gives an lwp a turn and adds its entry; where memory runs out, the kernel is as it was.
    fn lwp_turn(&mut self, pid: u32, lwp: u32) -> Result<Turned, NoMemory>
        requires movable { (view self.old).can_turn pid lwp ≡ true }
        requires place { length (view self.old).history < (view self.old).places }
        ensures ok { IfOk result (λ turned. IsTurned pid lwp turned (view self.old) (view self.new)) }
        ensures err { OnErr result (self.new ≡ self.old) };

    /// Moves the clock on by a millisecond, and adds the entry. Takes no memory.
    fn tick(&mut self)
        requires clock { (view self.old).clock < clock_limit }
        requires place { length (view self.old).history < (view self.old).places }
        ensures { IsTicked (view self.old) (view self.new) };

    /// The clock, in milliseconds. It is never above the number of entries.
    fn clock(&self) -> u64
        ensures value { result ≡ (view self.now).clock }
        ensures entries { result ≤ length (view self.now).history };

    /// Whether some lwp sleeps in the call sleep with a later moment. Takes no memory.
    fn sleeper(&self) -> bool
        ensures { result ≡ (view self.now).has_sleeper };

    /// How many entries the history has.
    fn entries(&self) -> u32
        ensures value { result ≡ length (view self.now).history }
        ensures places { result ≤ (view self.now).places };

    /// How many entries there are places for in all.
    fn places(&self) -> u32
        ensures { result ≡ (view self.now).places };

    ghost lawful: { (k : Self) → IsLawful (view k) };
}
