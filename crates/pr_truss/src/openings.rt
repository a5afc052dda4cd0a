//! How truss opens the processes that it was given, or made.
ghost use Rattle.std.specs.Prelude.{◌≡◌, ◌<◌};
ghost use Rattle.pr_truss.specs.Openings.{step_after, learnt, with_step_done, with_refused_step, with_stop_seen, with_step_answered, with_control, with_refused_control, with_control_answered, pid_in, with_refused_start, with_start_answered};
ghost use Rattle.pr_truss.specs.Trusses.{IsReady};

use crate::Truss;
use crate::processes::Traced;
use crate::records::event_stops;
use crate::replies::Answer;
use crate::reports::Report;
use crate::stages::{AfterClosing, OpeningStep, Stage};
use pr_line::Options;
use pr_model::{Reply, bytes_in, handle_in, until_in};
use pr_num::{Errno, Name};

/// What comes after a step that was done; `None` after the last.
#[tactic(auto, unfolding(crate::specs::Openings::step_after))]
fn step_after(options: &Options, reply: &Reply, step: OpeningStep) -> Option<OpeningStep>
    ensures { result ≡ step_after options.now reply.now step }
{
    Some(match step {
        OpeningStep::OpenStatus => OpeningStep::OpenLstatus,
        OpeningStep::OpenLstatus => OpeningStep::OpenMemory,
        OpeningStep::OpenMemory => OpeningStep::ClearModes,
        OpeningStep::ClearModes => OpeningStep::SetRelease,
        OpeningStep::SetRelease => OpeningStep::Stop,
        OpeningStep::Stop => OpeningStep::AwaitStop {
            until: until_in(reply),
        },
        OpeningStep::AwaitStop { .. } => OpeningStep::ReadLwps,
        OpeningStep::ReadLwps => OpeningStep::TraceSignals,
        OpeningStep::TraceSignals => OpeningStep::TraceFaults,
        OpeningStep::TraceFaults => OpeningStep::TraceEntries,
        OpeningStep::TraceEntries => OpeningStep::TraceExits,
        OpeningStep::TraceExits if options.follow => OpeningStep::Follow,
        OpeningStep::TraceExits => OpeningStep::Start,
        OpeningStep::Follow => OpeningStep::Start,
        OpeningStep::Start => return None,
    })
}

/// What truss learns of a process from the reply to a step.
#[tactic(auto, unfolding(crate::specs::Openings::learnt))]
fn learnt(mut traced: Traced, reply: &Reply, step: OpeningStep) -> Traced
    ensures { result ≡ learnt traced reply.now step }
{
    match step {
        OpeningStep::OpenStatus => traced.status = Some(handle_in(reply)),
        OpeningStep::OpenLstatus => traced.lstatus = Some(handle_in(reply)),
        OpeningStep::OpenMemory => traced.memory = Some(handle_in(reply)),
        OpeningStep::AwaitStop { .. } => traced.attached = true,
        OpeningStep::ReadLwps => {
            traced.old = event_stops(bytes_in(reply)).count.saturating_sub(1);
        }
        _ => {}
    }
    traced
}

/// The process that was made.
fn pid_in(reply: &Reply) -> u32
    ensures { result ≡ pid_in reply.now }
{
    match reply {
        Reply::Pid(pid) => *pid,
        _ => 0,
    }
}

impl Truss {
    #[tactic(auto, unfolding(crate::specs::Openings::with_step_done))]
    pub(crate) fn step_done(&mut self, place: usize, reply: &Reply, step: OpeningStep)
        ensures { self.new.state ≡ with_step_done self.old.state place reply.now step }
    {
        let traced = learnt(self.traced_at(place), reply, step);
        self.set_traced(place, traced);
        match step_after(&self.options, reply, step) {
            None => self.open_next(),
            Some(step) => self.go_to(Stage::Opening { place, step }),
        }
    }

    /// Reports a refusal, and closes what was opened of the process.
    #[tactic(auto, unfolding(crate::specs::Openings::with_refused_step))]
    pub(crate) fn refuse_step(&mut self, place: usize, errno: Errno)
        requires { 0 < self.old.report_room }
        ensures { self.new.state ≡ with_refused_step self.old.state place errno }
    {
        let pid = self.traced_at(place).pid;
        self.report(&Report::CannotTrace { pid, errno });
        self.go_to(Stage::Closing {
            place,
            next: AfterClosing::OpenNext,
        });
    }

    /// The stop on which a process stands is not reported any more.
    #[tactic(auto, unfolding(crate::specs::Openings::with_stop_seen))]
    pub(crate) fn mark_seen(&mut self, place: usize)
        ensures { self.new ≡ record self.old { state = with_stop_seen self.old.state place } }
    {
        let mut traced = self.traced_at(place);
        traced.seen = true;
        self.set_traced(place, traced);
    }

    /// The reply to a step of an opening.
    #[tactic(auto, unfolding(crate::specs::Openings::with_step_answered))]
    pub(crate) fn feed_step(
        &mut self,
        place: usize,
        step: OpeningStep,
        reply: &Reply,
        answer: Answer,
    )
        requires { 0 < self.old.report_room }
        ensures { self.new.state ≡ with_step_answered self.old.state place step reply.now answer }
    {
        match answer {
            Answer::Accepted => self.step_done(place, reply, step),
            Answer::Interrupted => {
                self.mark_seen(place);
                self.interrupt();
            }
            Answer::Gone => self.refuse_step(place, Errno::Noent),
            Answer::Refused(errno) => self.refuse_step(place, errno),
        }
    }

    /// A process is traced from now on, and its opening goes on.
    #[tactic(auto, unfolding(crate::specs::Openings::with_control))]
    fn begin(&mut self, pid: u32, control: u32)
        requires { 0 < self.old.traced_room }
        ensures { self.new.state ≡ with_control self.old.state pid control }
    {
        let place = self.traced.len();
        self.add_traced(Traced::new(pid, control));
        self.go_to(Stage::Opening {
            place,
            step: OpeningStep::OpenStatus,
        });
    }

    #[tactic(auto, unfolding(crate::specs::Openings::with_refused_control))]
    fn refuse_control(&mut self, pid: u32, errno: Errno)
        requires { 0 < self.old.report_room }
        ensures { self.new.state ≡ with_refused_control self.old.state pid errno }
    {
        self.report(&Report::CannotTrace { pid, errno });
        self.open_next();
    }

    /// The reply to the opening of a control file.
    #[tactic(auto, unfolding(crate::specs::Openings::with_control_answered))]
    pub(crate) fn feed_control(&mut self, pid: u32, reply: &Reply, answer: Answer)
        requires { IsReady self.old }
        ensures { self.new.state ≡ with_control_answered self.old.state pid reply.now answer }
    {
        match answer {
            Answer::Accepted => self.begin(pid, handle_in(reply)),
            Answer::Interrupted => self.interrupt(),
            Answer::Gone => self.refuse_control(pid, Errno::Noent),
            Answer::Refused(errno) => self.refuse_control(pid, errno),
        }
    }

    #[tactic(auto, unfolding(crate::specs::Openings::with_refused_start))]
    fn refuse_start(&mut self, program: Name, errno: Errno)
        requires { 0 < self.old.report_room }
        ensures { self.new.state ≡ with_refused_start self.old.state program errno }
    {
        self.report(&Report::CannotStart { program, errno });
        self.go_on();
    }

    /// The reply to the making of a process.
    #[tactic(auto, unfolding(crate::specs::Openings::with_start_answered))]
    pub(crate) fn feed_start(&mut self, program: Name, reply: &Reply, answer: Answer)
        requires { 0 < self.old.report_room }
        ensures { self.new.state ≡ with_start_answered self.old.state program reply.now answer }
    {
        match answer {
            Answer::Accepted => self.go_to(Stage::OpeningControl { pid: pid_in(reply) }),
            Answer::Interrupted => self.interrupt(),
            Answer::Gone => self.refuse_start(program, Errno::Noent),
            Answer::Refused(errno) => self.refuse_start(program, errno),
        }
    }
}
