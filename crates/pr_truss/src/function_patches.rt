//! How truss plants breakpoints again, lifts them, and clears its own fault (`-u`).
ghost use Rattle.std.specs.Prelude.{◌≡◌, ◌<◌};
ghost use Rattle.pr_truss.specs.FunctionFeeding.{with_pending_told, after_patch, planted_if, with_planted, without_planted, with_patch_answered};

use crate::Truss;
use crate::asides::Aside;
use crate::marks::{FunctionSet, Marks, first_function, with_function, without_function};
use crate::replies::Answer;
use crate::stages::{AfterClosing, Stage};

impl Truss {
    /// A breakpoint is planted.
    pub(crate) fn note_planted(&mut self, place: usize, function: usize)
        ensures { self.new ≡ record self.old { state = with_planted self.old.state place function } }
    {
        let marks = self.marks_at(place);
        self.set_marks(
            place,
            Marks {
                planted: with_function(marks.planted, function),
                ..marks
            },
        );
    }

    /// A breakpoint is lifted.
    fn note_lifted(&mut self, place: usize, function: usize)
        ensures { self.new ≡ record self.old { state = without_planted self.old.state place function } }
    {
        let marks = self.marks_at(place);
        self.set_marks(
            place,
            Marks {
                planted: without_function(marks.planted, function),
                ..marks
            },
        );
    }

    /// Reports an event whose memory was not read.
    #[tactic(auto, unfolding(crate::specs::FunctionFeeding::with_pending_told, crate::specs::Reports::all_reports))]
    fn tell_pending(&mut self)
        requires { 0 < self.old.report_room }
        ensures { self.new.state ≡ with_pending_told self.old.state }
    {
        if let Some(report) = self.pending() {
            self.report(&report);
        }
    }

    /// Goes on after a patch.
    #[tactic(auto, unfolding(crate::specs::FunctionFeeding::after_patch))]
    fn after_patch(&mut self, rest: Aside, place: usize, stage: Stage, answer: Answer)
        requires { 0 < self.old.report_room }
        ensures { self.new.state ≡ after_patch self.old.state rest place stage answer }
    {
        match (stage, answer) {
            (
                Stage::Closing {
                    next: AfterClosing::OpenNext,
                    ..
                },
                _,
            ) => self.set_aside(rest),
            (Stage::Closing { .. }, Answer::Gone) => self.close(place),
            (Stage::Closing { .. }, _) | (_, Answer::Accepted | Answer::Refused(_)) => {
                self.set_aside(rest);
            }
            (_, Answer::Gone) => {
                self.tell_pending();
                self.close(place);
            }
            (_, Answer::Interrupted) => {
                self.tell_pending();
                self.mark_seen(place);
                self.interrupt();
            }
        }
    }

    /// The reply to the planting or the lifting of a breakpoint, or to the clearing of a fault.
    #[tactic(auto, unfolding(crate::specs::FunctionFeeding::with_patch_answered))]
    pub(crate) fn feed_patch(
        &mut self,
        place: usize,
        plants: FunctionSet,
        lifts: FunctionSet,
        clear: bool,
        answer: Answer,
    )
        requires { 0 < self.old.report_room }
        ensures { self.new.state ≡ with_patch_answered self.old.state place plants lifts clear answer }
    {
        let rest = match (first_function(&plants), first_function(&lifts)) {
            (Some(function), _) => {
                if let Answer::Accepted = answer {
                    self.note_planted(place, function);
                }
                Aside::patching(place, without_function(plants, function), lifts, clear)
            }
            (None, Some(function)) => {
                self.note_lifted(place, function);
                Aside::patching(place, plants, without_function(lifts, function), clear)
            }
            (None, None) => Aside::Nothing,
        };
        self.after_patch(rest, place, self.stage, answer);
    }
}
