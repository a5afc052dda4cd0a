//! What truss does at a stop of a process that it traces.
ghost use Rattle.std.specs.Prelude.{◌≡◌, ◌<◌, option_map, option_and_then, position};
ghost use Rattle.pr_truss.specs.Replies.{ready_in};
ghost use Rattle.pr_truss.specs.Stops.{with_stop_over, with_child_or, followed_child, with_event_over, with_event_shown, with_text_or_shown, asked_range, with_event, with_old_stop_over, with_stop, with_stop_read, text_of, after_text, with_text_answered, with_status_answered, has_control, with_poll_answered, with_run_answered, with_unfollowed, with_lwps_answered};

use crate::Truss;
use crate::processes::Traced;
use crate::records::{child_of, event_stops, is_on_event, status_lwp};
use crate::replies::{Answer, answer_of, ready_in};
use crate::reports::Report;
use crate::stages::{FreeingStep, Stage};
use crate::texts::MemoryRead;
use pr_line::{Event, Options, event_of, is_selected, text_range};
use pr_model::{Reply, bytes_in};
use pr_rec::LwpStatus;

/// The child to follow of a fork at whose exit an lwp stands.
#[tactic(auto, unfolding(crate::specs::Stops::followed_child))]
fn followed_child(options: &Options, lwp: &LwpStatus) -> Option<u32>
    ensures { result ≡ followed_child options.now lwp.now }
{
    if options.follow { child_of(lwp) } else { None }
}

/// The memory that the line of an event asks for; with `-c` there are no lines.
#[tactic(auto, unfolding(crate::specs::Stops::asked_range))]
fn asked_range(options: &Options, event: &Event) -> Option<(u64, u64)>
    ensures { result ≡ asked_range options.now event.now }
{
    if options.count {
        None
    } else {
        text_range(event)
    }
}

/// The bytes that a read of memory gave, and whether they are fewer than were asked for.
fn text_of(len: u64, read: Option<&[u8]>) -> Option<MemoryRead>
    ensures { result ≡ text_of len (option_map (λ bytes. bytes.now) read.entry) }
{
    match read {
        Some(bytes) => Some(MemoryRead::new(bytes, len)),
        None => None,
    }
}

/// The place of the process with this control file.
fn place_of(traced: &[Traced], control: u32) -> Option<usize>
    ensures { result ≡ position (has_control control) traced.now }
{
    traced.iter().position(|process| process.control == control)
}

impl Truss {
    /// Runs a process, or closes its files where truss leaves.
    #[tactic(auto, unfolding(crate::specs::Stops::with_stop_over))]
    pub(crate) fn end_stop(&mut self, place: usize)
        ensures { self.new.state ≡ with_stop_over self.old.state place }
    {
        if self.leaving {
            self.close(place);
        } else {
            self.go_to(Stage::Running { place });
        }
    }

    /// Opens the child of a fork, or sets it free.
    fn follow(&mut self, place: usize, child: u32)
        ensures { self.new.state ≡ with_child_or self.old.state place (Some child) }
    {
        if self.leaving {
            self.go_to(Stage::FreeingChild {
                child,
                step: FreeingStep::OpenControl,
            });
        } else {
            self.go_to(Stage::OpeningChildControl {
                parent: place,
                child,
            });
        }
    }

    /// An event was looked at.
    #[tactic(auto, unfolding(crate::specs::Stops::with_event_over))]
    fn end_event(&mut self, place: usize, lwp: &LwpStatus)
        ensures { self.new.state ≡ with_event_over self.old.state place lwp.now }
    {
        match followed_child(&self.options, lwp) {
            None => self.end_stop(place),
            Some(child) => self.follow(place, child),
        }
    }

    /// Reports an event.
    #[tactic(auto, unfolding(crate::specs::Stops::with_event_shown))]
    fn show(&mut self, place: usize, lwp: &LwpStatus, text: Option<MemoryRead>)
        requires { 0 < self.old.report_room }
        ensures { self.new.state ≡ with_event_shown self.old.state place lwp.now text }
    {
        let pid = self.traced_at(place).pid;
        self.report(&Report::Event {
            pid,
            lwp: *lwp,
            text,
        });
    }

    /// Reports an event, or reads the memory that its line asks for.
    fn read_or_show(&mut self, place: usize, lwp: &LwpStatus, range: Option<(u64, u64)>)
        requires { 0 < self.old.report_room }
        ensures { self.new.state ≡ with_text_or_shown self.old.state place lwp.now range }
    {
        match range {
            None => {
                self.show(place, lwp, None);
                self.end_event(place, lwp);
            }
            Some((at, len)) => self.go_to(Stage::ReadingText {
                place,
                lwp: *lwp,
                at,
                len,
            }),
        }
    }

    /// Looks at an event.
    fn look_at(&mut self, place: usize, lwp: &LwpStatus, event: Option<Event>)
        requires { 0 < self.old.report_room }
        ensures { self.new.state ≡ with_event self.old.state place lwp.now event }
    {
        let Some(event) = event else {
            self.end_stop(place);
            return;
        };
        if is_selected(&self.options, &event) {
            let range = asked_range(&self.options, &event);
            self.read_or_show(place, lwp, range);
        } else {
            self.end_event(place, lwp);
        }
    }

    /// One old stop less.
    #[tactic(auto, unfolding(crate::specs::Stops::with_old_stop_over))]
    fn end_old_stop(&mut self, place: usize)
        ensures { self.new.state ≡ with_old_stop_over self.old.state place }
    {
        let mut traced = self.traced_at(place);
        traced.old = traced.old.saturating_sub(1);
        self.set_traced(place, traced);
        self.end_stop(place);
    }

    /// An lwp of a process is stopped.
    #[tactic(auto, unfolding(crate::specs::Stops::with_stop))]
    pub(crate) fn stop(&mut self, place: usize, lwp: &LwpStatus)
        requires { 0 < self.old.report_room }
        ensures { self.new.state ≡ with_stop self.old.state place lwp.now }
    {
        if !is_on_event(lwp) {
            self.end_stop(place);
        } else if self.traced_at(place).old > 0 {
            self.end_old_stop(place);
        } else if self.traced_at(place).seen {
            self.end_stop(place);
        } else {
            self.look_at(place, lwp, event_of(lwp));
        }
    }

    /// The lwp that was read, where the record had one.
    fn stop_read(&mut self, place: usize, lwp: Option<LwpStatus>)
        requires { 0 < self.old.report_room }
        ensures { self.new.state ≡ with_stop_read self.old.state place lwp }
    {
        match lwp {
            None => self.end_stop(place),
            Some(lwp) => self.stop(place, &lwp),
        }
    }

    /// Goes on after an event was reported for which memory was read.
    #[tactic(auto, unfolding(crate::specs::Stops::after_text))]
    fn after_text(&mut self, place: usize, lwp: &LwpStatus, answer: Answer)
        ensures { self.new.state ≡ after_text self.old.state place lwp.now answer }
    {
        match answer {
            Answer::Accepted | Answer::Refused(_) => self.end_event(place, lwp),
            Answer::Gone => self.close(place),
            Answer::Interrupted if self.leaving => self.end_event(place, lwp),
            Answer::Interrupted => {
                self.mark_seen(place);
                self.interrupt();
            }
        }
    }

    /// The reply to the read of memory for an event.
    #[tactic(auto, unfolding(crate::specs::Stops::with_text_answered))]
    pub(crate) fn feed_text(&mut self, place: usize, lwp: &LwpStatus, len: u64, reply: &Reply)
        requires { 0 < self.old.report_room }
        ensures { self.new.state ≡ with_text_answered self.old.state place lwp.now len reply.now }
    {
        self.show(place, lwp, text_of(len, bytes_in(reply)));
        self.after_text(place, lwp, answer_of(reply));
    }

    /// The reply to the read of a status.
    #[tactic(auto, unfolding(crate::specs::Stops::with_status_answered))]
    pub(crate) fn feed_status(&mut self, place: usize, reply: &Reply, answer: Answer)
        requires { 0 < self.old.report_room }
        ensures { self.new.state ≡ with_status_answered self.old.state place reply.now answer }
    {
        match answer {
            Answer::Accepted => match bytes_in(reply) {
                Some(bytes) => self.stop_read(place, status_lwp(bytes)),
                None => self.stop_read(place, None),
            },
            Answer::Refused(_) => self.end_stop(place),
            Answer::Gone => self.close(place),
            Answer::Interrupted => self.interrupt(),
        }
    }

    /// The process that a poll named.
    fn polled(&self, reply: &Reply) -> Option<usize>
        ensures { result
            ≡ option_and_then (λ handle. position (has_control handle) self.now.state.traced) (ready_in reply.now) }
    {
        match ready_in(reply) {
            Some(control) => place_of(&self.traced, control),
            None => None,
        }
    }

    /// The reply to a poll.
    #[tactic(auto, unfolding(crate::specs::Stops::with_poll_answered))]
    pub(crate) fn feed_poll(&mut self, reply: &Reply, answer: Answer)
        ensures { self.new.state ≡ with_poll_answered self.old.state reply.now answer }
    {
        match answer {
            Answer::Accepted => {
                if let Some(place) = self.polled(reply) {
                    self.go_to(Stage::ReadingStatus { place });
                }
            }
            Answer::Refused(_) | Answer::Gone => {}
            Answer::Interrupted => self.interrupt(),
        }
    }

    /// The reply to PCRUN.
    #[tactic(auto, unfolding(crate::specs::Stops::with_run_answered))]
    pub(crate) fn feed_run(&mut self, place: usize, answer: Answer)
        ensures { self.new.state ≡ with_run_answered self.old.state place answer }
    {
        match answer {
            Answer::Accepted | Answer::Refused(_) => self.go_on(),
            Answer::Gone => self.close(place),
            Answer::Interrupted => {
                self.mark_seen(place);
                self.interrupt();
            }
        }
    }

    /// The reply to PCUNSET, with which truss begins to leave a process.
    #[tactic(auto, unfolding(crate::specs::Stops::with_unfollowed))]
    pub(crate) fn feed_unfollowed(&mut self, answer: Answer)
        ensures { self.new.state ≡ with_unfollowed self.old.state answer }
    {
        match answer {
            Answer::Gone => self.close(0),
            _ => self.go_to(Stage::ReadingLwps),
        }
    }

    /// The reply to the look at the lwps of a process that truss leaves.
    #[tactic(auto, unfolding(crate::specs::Stops::with_lwps_answered))]
    pub(crate) fn feed_lwps(&mut self, reply: &Reply, answer: Answer)
        requires { 0 < self.old.report_room }
        ensures { self.new.state ≡ with_lwps_answered self.old.state reply.now answer }
    {
        match answer {
            Answer::Accepted => self.stop_read(0, event_stops(bytes_in(reply)).first),
            _ => self.close(0),
        }
    }
}
