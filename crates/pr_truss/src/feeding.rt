//! What the reply to its call makes of truss.
ghost use Rattle.std.specs.Prelude.{◌≡◌};
ghost use Rattle.pr_truss.specs.Feeding.{with_reply, fed};
ghost use Rattle.pr_truss.specs.Trusses.{IsReady};

use crate::Truss;
use crate::replies::answer_of;
use crate::stages::Stage;
use pr_model::Reply;

impl Truss {
    /// The reply to the call of a step.
    #[tactic(auto, unfolding(crate::specs::Feeding::with_reply))]
    pub(crate) fn feed_stage(&mut self, reply: &Reply, stage: Stage)
        requires { IsReady self.old }
        ensures { self.new.state ≡ with_reply self.old.state reply.now stage }
    {
        let answer = answer_of(reply);
        match stage {
            Stage::Spawning { program } => self.feed_start(program, reply, answer),
            Stage::OpeningControl { pid } => self.feed_control(pid, reply, answer),
            Stage::Opening { place, step } => self.feed_step(place, step, reply, answer),
            Stage::Polling => self.feed_poll(reply, answer),
            Stage::ReadingStatus { place } => self.feed_status(place, reply, answer),
            Stage::ReadingText {
                place,
                lwp,
                len,
                ..
            } => self.feed_text(place, &lwp, len, reply),
            Stage::OpeningChildControl { parent, child } => {
                self.feed_child_control(parent, child, reply, answer);
            }
            Stage::OpeningChild {
                parent,
                place,
                step,
            } => self.feed_child(parent, place, step, reply, answer),
            Stage::Running { place } => self.feed_run(place, answer),
            Stage::Closing { place, next } => self.feed_closed(place, next),
            Stage::Unfollowing => self.feed_unfollowed(answer),
            Stage::ReadingLwps => self.feed_lwps(reply, answer),
            Stage::FreeingChild { child, step } => self.feed_freeing(child, step, reply),
            Stage::Finished => {}
        }
    }

    /// Takes the reply to the call that `next_call` gave, any reply at all. Takes no memory.
    #[tactic(auto, unfolding(crate::specs::Feeding::fed))]
    pub fn feed(&mut self, reply: &Reply)
        requires { IsReady self.old }
        ensures { self.new.state ≡ fed self.old.state reply.now }
    {
        self.feed_stage(reply, self.stage);
    }
}
