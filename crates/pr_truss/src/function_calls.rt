//! The call that truss makes next where it shows calls of functions (`-u`).
ghost use Rattle.std.specs.Prelude.{◌≡◌, IfOk, length};
ghost use Rattle.pr_num.specs.Messages.{tail_length};
ghost use Rattle.pr_truss.specs.FunctionCalls.{read_code_call, write_code_call, plant_call, lift_call, wait_call, with_copying, patch_call, function_call_of, call_beside, next_function_call_of};
ghost use Rattle.pr_truss.specs.Marks.{address_of, breakpoint, code_of, first_function, has_functions};

use crate::Truss;
use crate::asides::Aside;
use crate::marks::first_function;
use crate::messages::{message_call, traced_entries, traced_exits, with_forks};
use crate::stages::{OpeningStep, Stage};
use pr_line::Options;
use pr_model::Call;
use pr_msg::encode;
use pr_num::limits::INSTRUCTION_SIZE;
use pr_num::{FltSet, Instruction, Message, NoMemory, SigSet, SysSet, Sysno};
use std::alloc::Global;

/// The address of a function.
#[tactic(auto, unfolding(crate::specs::Marks::address_of))]
pub(crate) fn address_of(options: &Options, function: usize) -> u64
    ensures { result ≡ address_of options.now function }
{
    match options.functions.as_slice().get(function) {
        Some(function) => function.at,
        None => 0,
    }
}

/// The instruction that stands at a function's address while its breakpoint is planted.
fn breakpoint() -> [u8; INSTRUCTION_SIZE]
    ensures { result ≡ breakpoint }
{
    Instruction::Bpt.encode()
}

/// The first instruction of a function.
#[tactic(auto, unfolding(crate::specs::Marks::code_of))]
pub(crate) fn code_of(options: &Options, function: usize) -> [u8; INSTRUCTION_SIZE]
    ensures { result ≡ code_of options.now function }
{
    match options.functions.as_slice().get(function) {
        Some(function) => function.code,
        None => breakpoint(),
    }
}

/// The first instruction of a function is read.
#[tactic(auto, unfolding(pr_num::specs::Messages::tail_length))]
fn read_code_call(
    alloc: Global,
    options: &Options,
    control: u32,
    function: usize,
) -> Result<Call, NoMemory>
    ensures { IfOk result (λ call. call ≡ read_code_call options.now control function) }
{
    let message = Message::Read {
        at: address_of(options, function),
        len: INSTRUCTION_SIZE as u64,
    };
    message_call(alloc, control, &message)
}

/// The bytes of an instruction are written over the first instruction of a function.
#[tactic(auto, unfolding(pr_num::specs::Messages::tail_length))]
fn write_code_call(
    alloc: Global,
    options: &Options,
    control: u32,
    function: usize,
    code: &[u8; INSTRUCTION_SIZE],
) -> Result<Call, NoMemory>
    ensures { IfOk result (λ call. call ≡ write_code_call options.now control function code.now) }
{
    let message = Message::Write {
        at: address_of(options, function),
        len: INSTRUCTION_SIZE as u64,
    };
    Ok(Call::Ctl {
        handle: control,
        bytes: encode(alloc, &message, code)?,
    })
}

/// A breakpoint is planted.
fn plant_call(
    alloc: Global,
    options: &Options,
    control: u32,
    function: usize,
) -> Result<Call, NoMemory>
    ensures { IfOk result (λ call. call ≡ plant_call options.now control function) }
{
    write_code_call(alloc, options, control, function, &breakpoint())
}

/// A breakpoint is lifted.
fn lift_call(
    alloc: Global,
    options: &Options,
    control: u32,
    function: usize,
) -> Result<Call, NoMemory>
    ensures { IfOk result (λ call. call ≡ lift_call options.now control function) }
{
    write_code_call(
        alloc,
        options,
        control,
        function,
        &code_of(options, function),
    )
}

/// The first breakpoint that is to be planted is planted, else the first that is to be lifted is lifted, else the fault
/// is cleared.
#[tactic(auto, unfolding(pr_num::specs::Messages::tail_length))]
fn patch_call(
    alloc: Global,
    options: &Options,
    control: u32,
    plant: Option<usize>,
    lift: Option<usize>,
) -> Result<Call, NoMemory>
    ensures { IfOk result (λ call. call ≡ patch_call options.now control plant lift) }
{
    match (plant, lift) {
        (Some(function), _) => plant_call(alloc, options, control, function),
        (None, Some(function)) => lift_call(alloc, options, control, function),
        (None, None) => message_call(alloc, control, &Message::Cfault),
    }
}

/// The wait for a stop that a message asked for.
#[tactic(auto, unfolding(pr_num::specs::Messages::tail_length))]
fn wait_call(alloc: Global, control: u32, until: u64, message: &Message) -> Result<Call, NoMemory>
    requires { tail_length message.now ≡ 0 }
    ensures { IfOk result (λ call. call ≡ wait_call control until message.now) }
{
    Ok(Call::CtlWait {
        handle: control,
        until,
        bytes: encode(alloc, message, &[])?,
    })
}

/// A set of calls with those that copy or replace the memory of a process.
#[tactic(auto, unfolding(crate::specs::FunctionCalls::with_copying))]
fn with_copying(calls: SysSet) -> SysSet
    ensures { result ≡ with_copying calls }
{
    with_forks(calls).with(Sysno::Exec)
}

impl Truss {
    /// The call of the present step, where it is another than without functions.
    #[tactic(auto, unfolding(crate::specs::FunctionCalls::function_call_of, pr_num::specs::Messages::tail_length))]
    fn function_call_of(&self, alloc: Global, stage: Stage) -> Result<Option<Call>, NoMemory>
        ensures { IfOk result (λ call. call ≡ function_call_of self.now.state stage) }
    {
        let (place, message) = match stage {
            Stage::Opening {
                place,
                step: OpeningStep::TraceSignals,
            } => (
                place,
                Message::Strace {
                    signals: SigSet::all().word(),
                },
            ),
            Stage::Opening {
                place,
                step: OpeningStep::TraceFaults,
            } => (
                place,
                Message::Sfault {
                    faults: FltSet::all().word(),
                },
            ),
            Stage::Opening {
                place,
                step: OpeningStep::TraceEntries,
            } => (
                place,
                Message::Sentry {
                    calls: with_copying(traced_entries(&self.options)).word(),
                },
            ),
            Stage::Opening {
                place,
                step: OpeningStep::TraceExits,
            } => (
                place,
                Message::Sexit {
                    calls: with_copying(traced_exits(&self.options)).word(),
                },
            ),
            Stage::Running { place } => (
                place,
                Message::Run {
                    flags: self.traced_at(place).marks.flags.word(),
                },
            ),
            Stage::Unfollowing => (0, Message::Stop),
            _ => return self.call_of(alloc, stage),
        };
        let call = message_call(alloc, self.traced_at(place).control, &message)?;
        Ok(Some(call))
    }

    /// What comes before the call of a step.
    #[tactic(auto, unfolding(crate::specs::FunctionCalls::call_beside, pr_num::specs::Messages::tail_length))]
    fn call_beside(
        &self,
        alloc: Global,
        stage: Stage,
        aside: Aside,
    ) -> Result<Option<Call>, NoMemory>
        ensures { IfOk result (λ call. call ≡ call_beside self.now.state stage aside) }
    {
        let options = &self.options;
        let first = self.traced_at(0).control;
        let call = match aside {
            Aside::Nothing => return self.function_call_of(alloc, stage),
            Aside::Reading { place, function } => {
                read_code_call(alloc, options, self.traced_at(place).control, function)?
            }
            Aside::Planting { place, function } => {
                plant_call(alloc, options, self.traced_at(place).control, function)?
            }
            Aside::Patching {
                place,
                plants,
                lifts,
                ..
            } => patch_call(
                alloc,
                options,
                self.traced_at(place).control,
                first_function(&plants),
                first_function(&lifts),
            )?,
            Aside::AwaitingStop { until } => wait_call(alloc, first, until, &Message::Stop)?,
            Aside::Asking => message_call(alloc, first, &Message::Wstop)?,
            Aside::AwaitingAgain { until } => wait_call(alloc, first, until, &Message::Wstop)?,
        };
        Ok(Some(call))
    }

    /// The call that truss makes next, where its options may name functions; `None` exactly where it has finished.
    #[tactic(auto, unfolding(crate::specs::FunctionCalls::next_function_call_of))]
    pub fn next_function_call(&self, alloc: Global) -> Result<Option<Call>, NoMemory>
        ensures { IfOk result (λ call. call ≡ next_function_call_of self.now.state) }
    {
        if self.options.functions.is_empty() {
            self.next_call(alloc)
        } else {
            self.call_beside(alloc, self.stage, self.aside)
        }
    }
}
