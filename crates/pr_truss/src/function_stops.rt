//! What truss does at a stop of a process in which it has breakpoints (`-u`).
ghost use Rattle.std.specs.Prelude.{◌≡◌, ◌<◌};
ghost use Rattle.pr_truss.specs.Asides.{marks_at, with_aside, with_marks, with_patches, with_lifts, with_lifts_before_closing};
ghost use Rattle.pr_truss.specs.FunctionStops.{with_call_shown, with_step_begun, with_step_completed, with_trap_over, with_copy_begun, with_copy_ended, with_other_event, with_memory_replaced, with_function_event, with_last_event, with_last_stop, with_function_stop, with_function_stop_read, with_function_status_answered, with_function_text_answered, with_function_run_answered, with_function_lwps_answered};

use crate::Truss;
use crate::asides::Aside;
use crate::function_events::{FunctionEvent, fresh_event, function_event, step_of};
use crate::marks::{FunctionSet, Marks, Stepped, no_functions, with_function};
use crate::records::{event_stops, is_on_event, status_lwp};
use crate::replies::{Answer, answer_of};
use crate::reports::Report;
use crate::stages::Stage;
use pr_model::{Reply, bytes_in};
use pr_num::RunFlags;
use pr_rec::LwpStatus;

impl Truss {
    /// What comes before the call of the stage.
    pub(crate) fn set_aside(&mut self, aside: Aside)
        ensures { self.new ≡ record self.old { state = with_aside self.old.state aside } }
    {
        self.aside = aside;
    }

    /// The marks of a process.
    pub(crate) fn marks_at(&self, place: usize) -> Marks
        ensures { result ≡ marks_at self.now.state place }
    {
        self.traced_at(place).marks
    }

    /// The marks of a process become these.
    pub(crate) fn set_marks(&mut self, place: usize, marks: Marks)
        ensures { self.new ≡ record self.old { state = with_marks self.old.state place marks } }
    {
        let mut traced = self.traced_at(place);
        traced.marks = marks;
        self.set_traced(place, traced);
    }

    /// Plants breakpoints, and then lifts others.
    #[tactic(auto, unfolding(crate::specs::Asides::with_patches))]
    fn patch(&mut self, place: usize, plants: FunctionSet, lifts: FunctionSet)
        ensures { self.new.state ≡ with_patches self.old.state place plants lifts }
    {
        self.set_aside(Aside::patching(place, plants, lifts, false));
    }

    /// Lifts all breakpoints of a process, and then clears its fault, if it is to.
    #[tactic(auto, unfolding(crate::specs::Asides::with_lifts))]
    pub(crate) fn lift_all(&mut self, place: usize, clear: bool)
        ensures { self.new.state ≡ with_lifts self.old.state place clear }
    {
        let lifts = self.marks_at(place).planted;
        self.set_aside(Aside::patching(place, no_functions(), lifts, clear));
    }

    /// The same where the files of the process are closed next.
    #[tactic(auto, unfolding(crate::specs::Asides::with_lifts_before_closing))]
    fn lift_before_closing(&mut self, place: usize)
        ensures { self.new.state ≡ with_lifts_before_closing self.old.state place }
    {
        if let Stage::Closing { .. } = self.stage {
            self.lift_all(place, false);
        }
    }

    /// Reports the call of a function.
    #[tactic(auto, unfolding(crate::specs::FunctionStops::with_call_shown))]
    fn show_call(&mut self, place: usize, step: &Stepped)
        requires { 0 < self.old.report_room }
        ensures { self.new.state ≡ with_call_shown self.old.state place step.now }
    {
        let pid = self.traced_at(place).pid;
        self.report(&Report::Called {
            pid,
            lwp: step.lwp,
            function: step.function,
            arguments: step.arguments,
        });
    }

    /// An lwp stands at a breakpoint.
    #[tactic(auto, unfolding(crate::specs::FunctionStops::with_step_begun))]
    fn begin_step(&mut self, place: usize, lwp: &LwpStatus, function: usize)
        ensures { self.new.state ≡ with_step_begun self.old.state place lwp.now function }
    {
        let marks = self.marks_at(place);
        self.set_marks(
            place,
            Marks {
                stepped: Some(step_of(lwp, function)),
                flags: RunFlags::CFAULT.union(RunFlags::STEP),
                ..marks
            },
        );
        self.end_stop(place);
        self.patch(
            place,
            marks.put_back(),
            with_function(no_functions(), function),
        );
    }

    /// An lwp has run the first instruction of a function.
    #[tactic(auto, unfolding(crate::specs::FunctionStops::with_step_completed))]
    fn complete_step(&mut self, place: usize, step: &Stepped)
        requires { 0 < self.old.report_room }
        ensures { self.new.state ≡ with_step_completed self.old.state place step.now }
    {
        let marks = self.marks_at(place);
        self.set_marks(
            place,
            Marks {
                stepped: None,
                flags: RunFlags::CFAULT,
                ..marks
            },
        );
        self.show_call(place, step);
        self.end_stop(place);
        self.patch(place, marks.put_back(), no_functions());
    }

    /// Any other trace trap.
    #[tactic(auto, unfolding(crate::specs::FunctionStops::with_trap_over))]
    fn end_trap(&mut self, place: usize)
        ensures { self.new.state ≡ with_trap_over self.old.state place }
    {
        let marks = self.marks_at(place);
        self.set_marks(
            place,
            Marks {
                flags: RunFlags::CFAULT,
                ..marks
            },
        );
        self.end_stop(place);
    }

    /// The entry of a call that copies or replaces the memory.
    #[tactic(auto, unfolding(crate::specs::FunctionStops::with_copy_begun))]
    fn begin_copy(&mut self, place: usize, lwp: &LwpStatus)
        requires { 0 < self.old.report_room }
        ensures { self.new.state ≡ with_copy_begun self.old.state place lwp.now }
    {
        let marks = self.marks_at(place);
        self.set_marks(
            place,
            Marks {
                lifted: marks.standing(),
                stepped: None,
                flags: RunFlags::STEP,
                ..marks
            },
        );
        self.stop(place, lwp);
        self.patch(place, no_functions(), marks.planted);
    }

    /// Its exit, where the process goes on in its memory.
    #[tactic(auto, unfolding(crate::specs::FunctionStops::with_copy_ended))]
    fn end_copy(&mut self, place: usize, lwp: &LwpStatus)
        requires { 0 < self.old.report_room }
        ensures { self.new.state ≡ with_copy_ended self.old.state place lwp.now }
    {
        let marks = self.marks_at(place);
        self.set_marks(
            place,
            Marks {
                lifted: no_functions(),
                stepped: None,
                ..marks
            },
        );
        self.stop(place, lwp);
        self.patch(place, marks.all_back(), no_functions());
    }

    /// Any other event.
    #[tactic(auto, unfolding(crate::specs::FunctionStops::with_other_event))]
    fn look_at_other(&mut self, place: usize, lwp: &LwpStatus)
        requires { 0 < self.old.report_room }
        ensures { self.new.state ≡ with_other_event self.old.state place lwp.now }
    {
        let marks = self.marks_at(place);
        self.set_marks(
            place,
            Marks {
                stepped: None,
                ..marks
            },
        );
        self.stop(place, lwp);
        self.patch(place, marks.put_back(), no_functions());
    }

    /// No breakpoint stands in the process any more.
    #[tactic(auto, unfolding(crate::specs::FunctionStops::with_memory_replaced))]
    fn forget_breakpoints(&mut self, place: usize, lwp: &LwpStatus)
        requires { 0 < self.old.report_room }
        ensures { self.new.state ≡ with_memory_replaced self.old.state place lwp.now }
    {
        self.set_marks(place, Marks::none());
        self.stop(place, lwp);
    }

    /// An event that is to be looked at.
    #[tactic(auto, unfolding(crate::specs::FunctionStops::with_function_event))]
    fn meet(&mut self, place: usize, lwp: &LwpStatus, event: FunctionEvent)
        requires { 0 < self.old.report_room }
        ensures { self.new.state ≡ with_function_event self.old.state place lwp.now event }
    {
        match event {
            FunctionEvent::AtBreakpoint { function } => self.begin_step(place, lwp, function),
            FunctionEvent::Completed { step } => self.complete_step(place, &step),
            FunctionEvent::TraceTrap => self.end_trap(place),
            FunctionEvent::BeforeCopy => self.begin_copy(place, lwp),
            FunctionEvent::AfterCopy => self.end_copy(place, lwp),
            FunctionEvent::Replaced => self.forget_breakpoints(place, lwp),
            FunctionEvent::Other => self.look_at_other(place, lwp),
        }
    }

    /// An event that is to be looked at where truss leaves.
    #[tactic(auto, unfolding(crate::specs::FunctionStops::with_last_event))]
    fn meet_last(&mut self, place: usize, lwp: &LwpStatus, event: FunctionEvent)
        requires { 0 < self.old.report_room }
        ensures { self.new.state ≡ with_last_event self.old.state place lwp.now event }
    {
        match event {
            FunctionEvent::AtBreakpoint { .. } | FunctionEvent::TraceTrap => {
                self.end_stop(place);
                self.lift_all(place, true);
            }
            FunctionEvent::Completed { step } => {
                self.show_call(place, &step);
                self.end_stop(place);
                self.lift_all(place, true);
            }
            FunctionEvent::Replaced => {
                self.forget_breakpoints(place, lwp);
                self.lift_before_closing(place);
            }
            _ => {
                self.stop(place, lwp);
                self.lift_before_closing(place);
            }
        }
    }

    /// Another stop where truss leaves.
    #[tactic(auto, unfolding(crate::specs::FunctionStops::with_last_stop))]
    fn last_stop(&mut self, place: usize, lwp: &LwpStatus)
        requires { 0 < self.old.report_room }
        ensures { self.new.state ≡ with_last_stop self.old.state place lwp.now }
    {
        let clear = is_on_event(lwp) && self.marks_at(place).flags.has(RunFlags::CFAULT);
        self.stop(place, lwp);
        self.lift_all(place, clear);
    }

    /// An lwp of a process is stopped.
    #[tactic(auto, unfolding(crate::specs::FunctionStops::with_function_stop))]
    fn function_stop(&mut self, place: usize, lwp: &LwpStatus)
        requires { 0 < self.old.report_room }
        ensures { self.new.state ≡ with_function_stop self.old.state place lwp.now }
    {
        match fresh_event(&self.traced_at(place), lwp) {
            None if self.leaving => self.last_stop(place, lwp),
            None => self.stop(place, lwp),
            Some(event) => {
                let marks = self.marks_at(place);
                let event = function_event(&self.options, &marks, lwp.id, &event);
                if self.leaving {
                    self.meet_last(place, lwp, event);
                } else {
                    self.meet(place, lwp, event);
                }
            }
        }
    }

    /// The lwp that was read, where one was.
    fn function_stop_read(&mut self, place: usize, lwp: Option<LwpStatus>)
        requires { 0 < self.old.report_room }
        ensures { self.new.state ≡ with_function_stop_read self.old.state place lwp }
    {
        match lwp {
            None => {
                let leaving = self.leaving;
                self.end_stop(place);
                if leaving {
                    self.lift_all(place, false);
                }
            }
            Some(lwp) => self.function_stop(place, &lwp),
        }
    }

    /// The reply to the read of a status.
    #[tactic(auto, unfolding(crate::specs::FunctionStops::with_function_status_answered))]
    pub(crate) fn feed_function_status(&mut self, place: usize, reply: &Reply, answer: Answer)
        requires { 0 < self.old.report_room }
        ensures { self.new.state ≡ with_function_status_answered self.old.state place reply.now answer }
    {
        match answer {
            Answer::Accepted => match bytes_in(reply) {
                Some(bytes) => self.function_stop_read(place, status_lwp(bytes)),
                None => self.function_stop_read(place, None),
            },
            _ => self.feed_status(place, reply, answer),
        }
    }

    /// The reply to the read of memory for an event.
    #[tactic(auto, unfolding(crate::specs::FunctionStops::with_function_text_answered))]
    pub(crate) fn feed_function_text(
        &mut self,
        place: usize,
        lwp: &LwpStatus,
        len: u64,
        reply: &Reply,
    )
        requires { 0 < self.old.report_room }
        ensures { self.new.state ≡ with_function_text_answered self.old.state place lwp.now len reply.now }
    {
        let leaving = self.leaving;
        self.feed_text(place, lwp, len, reply);
        match answer_of(reply) {
            Answer::Gone => {}
            _ if leaving => self.lift_all(place, false),
            _ => {}
        }
    }

    /// The reply to PCRUN.
    #[tactic(auto, unfolding(crate::specs::FunctionStops::with_function_run_answered))]
    pub(crate) fn feed_function_run(&mut self, place: usize, answer: Answer)
        ensures { self.new.state ≡ with_function_run_answered self.old.state place answer }
    {
        if !matches!(answer, Answer::Interrupted) {
            let marks = self.marks_at(place);
            self.set_marks(
                place,
                Marks {
                    flags: RunFlags::of_word(0),
                    ..marks
                },
            );
        }
        self.feed_run(place, answer);
    }

    /// The reply to the look at the lwps of a process that truss leaves.
    #[tactic(auto, unfolding(crate::specs::FunctionStops::with_function_lwps_answered))]
    pub(crate) fn feed_function_lwps(&mut self, reply: &Reply, answer: Answer)
        requires { 0 < self.old.report_room }
        ensures { self.new.state ≡ with_function_lwps_answered self.old.state reply.now answer }
    {
        match answer {
            Answer::Accepted => self.function_stop_read(0, event_stops(bytes_in(reply)).first),
            Answer::Gone => self.close(0),
            _ => {
                self.close(0);
                self.lift_all(0, false);
            }
        }
    }
}
