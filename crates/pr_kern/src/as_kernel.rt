//! The kernel as every kernel is seen: it tells its machine.
ghost use Rattle.std.specs.Prelude.{◌≡◌};
ghost use Rattle.pr_api.specs.MachineLaws.{machine-lawful};
ghost use Rattle.pr_api.specs.Views.{kernel_of};

use crate::Kern;
use pr_api::Kernel;
use pr_model::{Call, Reply, Turned};
use pr_num::NoMemory;

impl Kernel for Kern {
    ghost view = { λ k. kernel_of k.state k.history k.places };

    #[tactic(auto, unfolding(pr_api::specs::Views::kernel_of))]
    fn ready(&self, by: u32, call: &Call) -> bool {
        Kern::ready(self, by, call)
    }

    #[tactic(auto, unfolding(pr_api::specs::Views::kernel_of))]
    fn call(&mut self, by: u32, call: Call) -> Result<(), NoMemory> {
        Kern::call(self, by, call)
    }

    #[tactic(auto, unfolding(pr_api::specs::Views::kernel_of))]
    fn last_reply(&self) -> Option<&Reply> {
        Kern::last_reply(self)
    }

    #[tactic(auto, unfolding(pr_api::specs::Views::kernel_of))]
    fn lwp_movable(&self, pid: u32, lwp: u32) -> bool {
        Kern::lwp_movable(self, pid, lwp)
    }

    #[tactic(auto, unfolding(pr_api::specs::Views::kernel_of, pr_api::specs::Views::next_of, pr_api::specs::Views::turns_after))]
    fn next_lwp(&self, after: Option<(u32, u32)>, movable: bool) -> Option<(u32, u32)> {
        Kern::next_lwp(self, after, movable)
    }

    #[tactic(auto, unfolding(pr_api::specs::Views::kernel_of))]
    fn lwp_turn(&mut self, pid: u32, lwp: u32) -> Result<Turned, NoMemory> {
        Kern::lwp_turn(self, pid, lwp)
    }

    #[tactic(auto, unfolding(pr_api::specs::Views::kernel_of))]
    fn tick(&mut self) {
        Kern::tick(self);
    }

    #[tactic(auto, unfolding(pr_api::specs::Views::kernel_of))]
    fn clock(&self) -> u64 {
        Kern::clock(self)
    }

    #[tactic(auto, unfolding(pr_api::specs::Views::kernel_of))]
    fn sleeper(&self) -> bool {
        Kern::sleeper(self)
    }

    #[tactic(auto, unfolding(pr_api::specs::Views::kernel_of))]
    fn entries(&self) -> u32 {
        Kern::entries(self)
    }

    #[tactic(auto, unfolding(pr_api::specs::Views::kernel_of))]
    fn places(&self) -> u32 {
        Kern::places(self)
    }

    ghost lawful = { λ k. machine-lawful k.state k.history k.places };
}
