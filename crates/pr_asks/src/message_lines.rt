//! Lines that write control messages by the words of a script.
ghost use Rattle.std.specs.Prelude.{◌≡◌, ◌+◌, ◌<◌, ◌^◌, length, IfOk};
ghost use Rattle.pr_asks.specs.Asks.{Gives};
ghost use Rattle.pr_asks.specs.Messages.{messages_of, scenario_text, script_of};

use crate::asks::{AskKind, Unasked};
use pr_model::Reply;
use pr_num::NoMemory;
use pr_scen::{Plan, ScenRefusal, Scenario, Script, read_scenario};
use std::alloc::Global;

/// The scenario whose one script opens a file and writes these messages to it.
fn scenario_text(alloc: Global, messages: &[u8]) -> Result<Vec<u8>, NoMemory>
    ensures { IfOk result (λ text. text.items ≡ scenario_text messages.now) }
{
    let mut text = Vec::new(alloc);
    text.extend_from_slice(b"script\nopen h 1 ctl w\nwrite h ")?;
    text.extend_from_slice(messages)?;
    text.extend_from_slice(b"\nend\n")?;
    Ok(text)
}

/// The script of that scenario: its last controller.
fn script_of(scenario: Scenario) -> Result<Script, Unasked>
    ensures { Gives result (script_of scenario) }
{
    let Scenario {
        mut controllers,
        ..
    } = scenario;
    match controllers.pop() {
        Some(Plan::Script(script)) => Ok(script),
        _ => Err(Unasked::Refused(AskKind::NoCall)),
    }
}

/// The script that writes these messages to the file of a handle: what it does next is the write.
#[tactic(auto, unfolding(crate::specs::Messages::messages_of))]
pub fn messages_of(alloc: Global, handle: u32, messages: &[u8]) -> Result<Script, Unasked>
    requires { length messages.now + 64 < 2 ^ 32 }
    ensures { Gives result (messages_of handle messages.now) }
{
    let text = scenario_text(alloc, messages)?;
    match read_scenario(alloc, &text) {
        Ok(scenario) => {
            let mut script = script_of(scenario)?;
            script.feed(&Reply::Handle(handle));
            Ok(script)
        }
        Err(ScenRefusal::Fault(fault)) => Err(Unasked::Refused(AskKind::Message(fault.kind))),
        Err(ScenRefusal::NoMemory) => Err(Unasked::NoMemory),
    }
}
