//! How truss follows the children of forks, and how it sets them free.
ghost use Rattle.std.specs.Prelude.{◌≡◌, ◌<◌};
ghost use Rattle.pr_truss.specs.Children.{child_step_after, child_learnt, with_child_step_done, with_refused_child_step, with_child_step_answered, with_child_started, with_child_answered, with_child_control, with_refused_child, with_child_control_answered, with_refused_freeing, with_freeing_begun, with_freeing_answered};
ghost use Rattle.pr_truss.specs.Replies.{answer_of};
ghost use Rattle.pr_truss.specs.Trusses.{IsReady, with_stage};

use crate::Truss;
use crate::processes::Traced;
use crate::replies::{Answer, answer_of};
use crate::reports::Report;
use crate::stages::{AfterClosing, ChildStep, FreeingStep, Stage};
use pr_model::{Reply, handle_in};
use pr_num::Errno;

/// What comes after a step that was done; `None` after the last.
#[tactic(auto, unfolding(crate::specs::Children::child_step_after))]
fn child_step_after(step: ChildStep) -> Option<ChildStep>
    ensures { result ≡ child_step_after step }
{
    match step {
        ChildStep::SetRelease => Some(ChildStep::OpenStatus),
        ChildStep::OpenStatus => Some(ChildStep::OpenLstatus),
        ChildStep::OpenLstatus => Some(ChildStep::OpenMemory),
        ChildStep::OpenMemory => Some(ChildStep::Start),
        ChildStep::Start => None,
    }
}

/// What truss learns of a child from the reply to a step.
#[tactic(auto, unfolding(crate::specs::Children::child_learnt))]
fn child_learnt(mut traced: Traced, reply: &Reply, step: ChildStep) -> Traced
    ensures { result ≡ child_learnt traced reply.now step }
{
    match step {
        ChildStep::SetRelease | ChildStep::Start => {}
        ChildStep::OpenStatus => traced.status = Some(handle_in(reply)),
        ChildStep::OpenLstatus => traced.lstatus = Some(handle_in(reply)),
        ChildStep::OpenMemory => {
            traced.memory = Some(handle_in(reply));
            traced.attached = true;
        }
    }
    traced
}

impl Truss {
    #[tactic(auto, unfolding(crate::specs::Children::with_child_step_done))]
    fn child_step_done(&mut self, parent: usize, place: usize, reply: &Reply, step: ChildStep)
        ensures { self.new.state ≡ with_child_step_done self.old.state parent place reply.now step }
    {
        let traced = child_learnt(self.traced_at(place), reply, step);
        self.set_traced(place, traced);
        match child_step_after(step) {
            None => self.go_to(Stage::Running { place: parent }),
            Some(step) => self.go_to(Stage::OpeningChild {
                parent,
                place,
                step,
            }),
        }
    }

    /// Closes what was opened of a child, and then runs its parent.
    fn close_child(&mut self, parent: usize, place: usize)
        ensures { self.new
            ≡ record self.old
            { state = with_stage self.old.state (Stage.Closing place (AfterClosing.RunParent parent)) } }
    {
        self.go_to(Stage::Closing {
            place,
            next: AfterClosing::RunParent { parent },
        });
    }

    /// Reports a refusal, closes what was opened of the child, and then runs its parent.
    #[tactic(auto, unfolding(crate::specs::Children::with_refused_child_step))]
    fn refuse_child_step(&mut self, parent: usize, place: usize, errno: Errno)
        requires { 0 < self.old.report_room }
        ensures { self.new.state ≡ with_refused_child_step self.old.state parent place errno }
    {
        let pid = self.traced_at(place).pid;
        self.report(&Report::CannotTrace { pid, errno });
        self.close_child(parent, place);
    }

    /// The reply to a step up to the opens.
    #[tactic(auto, unfolding(crate::specs::Children::with_child_step_answered))]
    fn feed_child_step(
        &mut self,
        parent: usize,
        place: usize,
        step: ChildStep,
        reply: &Reply,
        answer: Answer,
    )
        requires { 0 < self.old.report_room }
        ensures { self.new.state ≡ with_child_step_answered self.old.state parent place step reply.now answer }
    {
        match answer {
            Answer::Accepted => self.child_step_done(parent, place, reply, step),
            Answer::Interrupted => {
                self.mark_seen(parent);
                self.interrupt();
            }
            Answer::Gone => self.refuse_child_step(parent, place, Errno::Noent),
            Answer::Refused(errno) => self.refuse_child_step(parent, place, errno),
        }
    }

    /// The reply to the child's PCRUN.
    #[tactic(auto, unfolding(crate::specs::Children::with_child_started))]
    fn feed_child_start(&mut self, parent: usize, place: usize, answer: Answer)
        ensures { self.new.state ≡ with_child_started self.old.state parent place answer }
    {
        match answer {
            Answer::Gone => self.close_child(parent, place),
            _ => self.go_to(Stage::Running { place: parent }),
        }
    }

    /// The reply to a step of the opening of a child.
    #[tactic(auto, unfolding(crate::specs::Children::with_child_answered))]
    pub(crate) fn feed_child(
        &mut self,
        parent: usize,
        place: usize,
        step: ChildStep,
        reply: &Reply,
        answer: Answer,
    )
        requires { 0 < self.old.report_room }
        ensures { self.new.state ≡ with_child_answered self.old.state parent place step reply.now answer }
    {
        match step {
            ChildStep::Start => self.feed_child_start(parent, place, answer),
            _ => self.feed_child_step(parent, place, step, reply, answer),
        }
    }

    /// A child is traced from now on, and its opening goes on.
    #[tactic(auto, unfolding(crate::specs::Children::with_child_control))]
    fn begin_child(&mut self, parent: usize, child: u32, control: u32)
        requires { 0 < self.old.traced_room }
        ensures { self.new.state ≡ with_child_control self.old.state parent child control }
    {
        let place = self.traced.len();
        self.add_traced(Traced::new(child, control));
        self.go_to(Stage::OpeningChild {
            parent,
            place,
            step: ChildStep::SetRelease,
        });
    }

    #[tactic(auto, unfolding(crate::specs::Children::with_refused_child))]
    fn refuse_child(&mut self, parent: usize, child: u32, errno: Errno)
        requires { 0 < self.old.report_room }
        ensures { self.new.state ≡ with_refused_child self.old.state parent child errno }
    {
        self.report(&Report::CannotTrace { pid: child, errno });
        self.go_to(Stage::Running { place: parent });
    }

    /// The reply to the opening of a child's control file.
    #[tactic(auto, unfolding(crate::specs::Children::with_child_control_answered))]
    pub(crate) fn feed_child_control(
        &mut self,
        parent: usize,
        child: u32,
        reply: &Reply,
        answer: Answer,
    )
        requires { IsReady self.old }
        ensures { self.new.state ≡ with_child_control_answered self.old.state parent child reply.now answer }
    {
        match answer {
            Answer::Accepted => self.begin_child(parent, child, handle_in(reply)),
            Answer::Interrupted => {
                self.mark_seen(parent);
                self.interrupt();
            }
            Answer::Gone => self.refuse_child(parent, child, Errno::Noent),
            Answer::Refused(errno) => self.refuse_child(parent, child, errno),
        }
    }

    /// Reports a refusal, and goes on with the process that is left.
    #[tactic(auto, unfolding(crate::specs::Children::with_refused_freeing))]
    fn refuse_freeing(&mut self, child: u32, errno: Errno)
        requires { 0 < self.old.report_room }
        ensures { self.new.state ≡ with_refused_freeing self.old.state child errno }
    {
        self.report(&Report::CannotTrace { pid: child, errno });
        self.close(0);
    }

    /// The reply to the opening of the control file of a child that is set free.
    #[tactic(auto, unfolding(crate::specs::Children::with_freeing_begun))]
    fn feed_freeing_begun(&mut self, child: u32, reply: &Reply)
        requires { 0 < self.old.report_room }
        ensures { self.new.state ≡ with_freeing_begun self.old.state child reply.now (answer_of reply.now) }
    {
        match answer_of(reply) {
            Answer::Accepted => self.go_to(Stage::FreeingChild {
                child,
                step: FreeingStep::SetRelease {
                    control: handle_in(reply),
                },
            }),
            Answer::Interrupted => self.close(0),
            Answer::Gone => self.refuse_freeing(child, Errno::Noent),
            Answer::Refused(errno) => self.refuse_freeing(child, errno),
        }
    }

    /// The reply to a step that sets a child free.
    #[tactic(auto, unfolding(crate::specs::Children::with_freeing_answered))]
    pub(crate) fn feed_freeing(&mut self, child: u32, step: FreeingStep, reply: &Reply)
        requires { 0 < self.old.report_room }
        ensures { self.new.state ≡ with_freeing_answered self.old.state child step reply.now }
    {
        match step {
            FreeingStep::OpenControl => self.feed_freeing_begun(child, reply),
            FreeingStep::SetRelease { control } => self.go_to(Stage::FreeingChild {
                child,
                step: FreeingStep::Close { control },
            }),
            FreeingStep::Close { .. } => self.close(0),
        }
    }
}
