//! What the reply to its call makes of truss where it shows calls of functions (`-u`).
ghost use Rattle.std.specs.Prelude.{◌≡◌, ◌<◌, ◌+◌, option_map};
ghost use Rattle.pr_truss.specs.FunctionFeeding.{with_next_function, with_refused_opening, with_functions_begun, with_function_step_answered, is_code, is_first_there, is_to_plant, with_code_read, with_code_answered, with_plant_answered, with_halt_answered, with_wait_answered, with_asking_answered, with_function_reply, with_aside_answered, fed_functions};
ghost use Rattle.pr_truss.specs.Trusses.{IsReady};

use crate::Truss;
use crate::asides::Aside;
use crate::function_calls::{address_of, code_of};
use crate::function_events::place_of;
use crate::replies::{Answer, answer_of};
use crate::stages::{OpeningStep, Stage};
use pr_line::Options;
use pr_model::{Reply, bytes_in, until_in};
use pr_num::Errno;

/// Whether the bytes that were read are the first instruction of a function.
fn is_code(code: &[u8], bytes: Option<&[u8]>) -> bool
    ensures { result ≡ is_code code.now (option_map (λ b. b.now) bytes.entry) }
{
    match bytes {
        None => false,
        Some(bytes) => bytes == code,
    }
}

/// Whether no function before this one has its address.
#[tactic(auto, unfolding(crate::specs::FunctionFeeding::is_first_there))]
fn is_first_there(options: &Options, function: usize) -> bool
    ensures { result ≡ is_first_there options.now function }
{
    match place_of(options.functions.as_slice(), address_of(options, function)) {
        Some(first) => first == function,
        None => false,
    }
}

/// Whether a function is planted, where these bytes were read at its address.
fn is_to_plant(options: &Options, function: usize, bytes: Option<&[u8]>) -> bool
    ensures { result ≡ is_to_plant options.now function (option_map (λ b. b.now) bytes.entry) }
{
    is_code(&code_of(options, function), bytes) && is_first_there(options, function)
}

impl Truss {
    /// Looks at the next function, or goes on with the opening.
    #[tactic(auto, unfolding(crate::specs::FunctionFeeding::with_next_function))]
    fn next_function(&mut self, place: usize, function: usize)
        ensures { self.new.state ≡ with_next_function self.old.state place function }
    {
        if function < self.options.functions.len() {
            self.set_aside(Aside::Reading { place, function });
        } else {
            self.set_aside(Aside::Nothing);
        }
    }

    /// Looks at the function after this one, or goes on with the opening.
    #[tactic(auto, unfolding(crate::specs::FunctionFeeding::with_next_function))]
    fn function_after(&mut self, place: usize, function: usize)
        ensures { self.new.state ≡ with_next_function self.old.state place (function + 1) }
    {
        let count = self.options.functions.len();
        if function < count && function + 1 < count {
            self.next_function(place, function + 1);
        } else {
            self.set_aside(Aside::Nothing);
        }
    }

    /// Reports a refusal that ends an opening, lifts what was planted, and closes what was opened.
    #[tactic(auto, unfolding(crate::specs::FunctionFeeding::with_refused_opening))]
    fn refuse_opening(&mut self, place: usize, errno: Errno)
        requires { 0 < self.old.report_room }
        ensures { self.new.state ≡ with_refused_opening self.old.state place errno }
    {
        self.refuse_step(place, errno);
        self.lift_all(place, false);
    }

    /// The reply to a step of the opening.
    #[tactic(auto, unfolding(crate::specs::FunctionFeeding::with_function_step_answered))]
    fn feed_function_step(&mut self, place: usize, step: OpeningStep, reply: &Reply, answer: Answer)
        requires { 0 < self.old.report_room }
        ensures { self.new.state ≡ with_function_step_answered self.old.state place step reply.now answer }
    {
        match answer {
            Answer::Accepted => {
                self.step_done(place, reply, step);
                if let OpeningStep::TraceExits = step {
                    self.next_function(place, 0);
                }
            }
            Answer::Interrupted => {
                self.mark_seen(place);
                self.interrupt();
            }
            Answer::Gone => self.refuse_step(place, Errno::Noent),
            Answer::Refused(errno) => self.refuse_opening(place, errno),
        }
    }

    /// Plants the breakpoint of a function where its first instruction was read and no function before it has its
    /// address.
    #[tactic(auto, unfolding(crate::specs::FunctionFeeding::with_code_read))]
    fn code_read(&mut self, place: usize, function: usize, bytes: Option<&[u8]>)
        ensures { self.new.state ≡ with_code_read self.old.state place function (option_map (λ b. b.now) bytes.entry) }
    {
        if is_to_plant(&self.options, function, bytes) {
            self.set_aside(Aside::Planting { place, function });
        } else {
            self.function_after(place, function);
        }
    }

    /// The reply to the read of a first instruction.
    #[tactic(auto, unfolding(crate::specs::FunctionFeeding::with_code_answered))]
    fn feed_code(&mut self, place: usize, function: usize, reply: &Reply, answer: Answer)
        requires { 0 < self.old.report_room }
        ensures { self.new.state ≡ with_code_answered self.old.state place function reply.now answer }
    {
        match answer {
            Answer::Accepted => self.code_read(place, function, bytes_in(reply)),
            Answer::Interrupted => {
                self.mark_seen(place);
                self.interrupt();
            }
            Answer::Gone => self.refuse_step(place, Errno::Noent),
            Answer::Refused(errno) => self.refuse_opening(place, errno),
        }
    }

    /// The reply to the planting of a breakpoint.
    #[tactic(auto, unfolding(crate::specs::FunctionFeeding::with_plant_answered))]
    fn feed_plant(&mut self, place: usize, function: usize, answer: Answer)
        requires { 0 < self.old.report_room }
        ensures { self.new.state ≡ with_plant_answered self.old.state place function answer }
    {
        match answer {
            Answer::Accepted => {
                self.note_planted(place, function);
                self.function_after(place, function);
            }
            Answer::Interrupted => {
                self.mark_seen(place);
                self.interrupt();
            }
            Answer::Gone => self.refuse_step(place, Errno::Noent),
            Answer::Refused(errno) => self.refuse_opening(place, errno),
        }
    }

    /// The reply to PCSTOP, with which truss begins to leave a process.
    #[tactic(auto, unfolding(crate::specs::FunctionFeeding::with_halt_answered))]
    fn feed_halt(&mut self, reply: &Reply, answer: Answer)
        ensures { self.new.state ≡ with_halt_answered self.old.state reply.now answer }
    {
        match answer {
            Answer::Accepted => {
                self.go_to(Stage::ReadingLwps);
                self.set_aside(Aside::AwaitingStop {
                    until: until_in(reply),
                });
            }
            Answer::Interrupted => {
                self.go_to(Stage::ReadingLwps);
                self.set_aside(Aside::Asking);
            }
            Answer::Refused(_) => self.go_to(Stage::ReadingLwps),
            Answer::Gone => self.close(0),
        }
    }

    /// The reply to the wait for the stop.
    #[tactic(auto, unfolding(crate::specs::FunctionFeeding::with_wait_answered))]
    fn feed_wait(&mut self, answer: Answer)
        ensures { self.new.state ≡ with_wait_answered self.old.state answer }
    {
        match answer {
            Answer::Accepted | Answer::Refused(_) => {}
            Answer::Interrupted => self.set_aside(Aside::Asking),
            Answer::Gone => self.close(0),
        }
    }

    /// The reply to PCWSTOP.
    #[tactic(auto, unfolding(crate::specs::FunctionFeeding::with_asking_answered))]
    fn feed_asking(&mut self, reply: &Reply, answer: Answer)
        ensures { self.new.state ≡ with_asking_answered self.old.state reply.now answer }
    {
        match answer {
            Answer::Accepted => {
                let until = until_in(reply);
                self.set_aside(Aside::AwaitingAgain { until });
            }
            Answer::Interrupted => self.set_aside(Aside::Asking),
            Answer::Refused(_) => {}
            Answer::Gone => self.close(0),
        }
    }

    /// The reply to the call of a step, where it makes something else of truss than without functions.
    #[tactic(auto, unfolding(crate::specs::FunctionFeeding::with_function_reply))]
    fn feed_function_stage(&mut self, reply: &Reply, stage: Stage)
        requires { IsReady self.old }
        ensures { self.new.state ≡ with_function_reply self.old.state reply.now stage }
    {
        let answer = answer_of(reply);
        match stage {
            Stage::Opening { place, step } => self.feed_function_step(place, step, reply, answer),
            Stage::ReadingStatus { place } => self.feed_function_status(place, reply, answer),
            Stage::ReadingText {
                place,
                lwp,
                len,
                ..
            } => self.feed_function_text(place, &lwp, len, reply),
            Stage::Running { place } => self.feed_function_run(place, answer),
            Stage::Unfollowing => self.feed_halt(reply, answer),
            Stage::ReadingLwps => self.feed_function_lwps(reply, answer),
            _ => self.feed_stage(reply, stage),
        }
    }

    /// The reply to what came before the call of the step, or to that call.
    #[tactic(auto, unfolding(crate::specs::FunctionFeeding::with_aside_answered))]
    fn feed_aside(&mut self, reply: &Reply, aside: Aside)
        requires { IsReady self.old }
        ensures { self.new.state ≡ with_aside_answered self.old.state reply.now aside }
    {
        let answer = answer_of(reply);
        if let Aside::Nothing = aside {
            self.feed_function_stage(reply, self.stage);
            return;
        }
        self.set_aside(Aside::Nothing);
        match aside {
            Aside::Nothing => {}
            Aside::Reading { place, function } => self.feed_code(place, function, reply, answer),
            Aside::Planting { place, function } => self.feed_plant(place, function, answer),
            Aside::Patching {
                place,
                plants,
                lifts,
                clear,
            } => self.feed_patch(place, plants, lifts, clear, answer),
            Aside::AwaitingStop { .. } | Aside::AwaitingAgain { .. } => self.feed_wait(answer),
            Aside::Asking => self.feed_asking(reply, answer),
        }
    }

    /// Takes the reply to the call that `next_function_call` gave, any reply at all. Takes no memory.
    #[tactic(auto, unfolding(crate::specs::FunctionFeeding::fed_functions))]
    pub fn feed_functions(&mut self, reply: &Reply)
        requires { IsReady self.old }
        ensures { self.new.state ≡ fed_functions self.old.state reply.now }
    {
        if self.options.functions.is_empty() {
            self.feed(reply);
        } else {
            self.feed_aside(reply, self.aside);
        }
    }
}
