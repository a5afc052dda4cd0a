ghost use Rattle.std.specs.Prelude.{◌≡◌, ◌<◌, ◌-◌, ◌^◌, map, string_bytes};
ghost use Rattle.pr_model.specs.ToolNames.{is_tool_named};
ghost use Rattle.pr_commands.specs.Commands.{work_of, number_up_to, shared_run, generation, core_shown, core_tool_of_name, of_one_word, of_two_words, of_three_words, of_four_words};

use itoa::Buffer;
use pr_model::{ToolKind, tool_name};
use pr_num::limits::{CHILD_LIMIT, WORKER_LIMIT};
use pr_output::Showing;

/// What the words after the program's name ask for.
#[derive(Clone, Copy, Debug, PartialEq, Eq)]
pub enum Work {
    /// They ask for nothing, and get the usage line.
    Explains,
    /// The run of the scenario of the input is made on one thread, and written.
    Runs { showing: Showing },
    /// It is made on several threads, of which so many share the processor, 1 to 16.
    Shares { showing: Showing, workers: u32 },
    /// The run of the scenario of the input is made on one thread, and what programs see of it is written: what the
    /// machine without controllers makes of it.
    Strips,
    /// The history of the input is judged by the scenario above it.
    Checks,
    /// A scenario is written in which so many children are forked, 1 to 64.
    Generates { children: u32 },
    /// A tool shows the core of the input, with the labels of the programs above it.
    ShowsCore { kind: ToolKind },
}

/// What words ask for.
#[tactic(auto, unfolding(crate::specs::Commands::work_of))]
pub fn work_of(words: &[String]) -> Work
    ensures { result ≡ work_of (map string_bytes words.now) }
{
    match words {
        [first] => of_one_word(first.as_str()),
        [first, second] => of_two_words(first.as_str(), second.as_str()),
        [first, second, third] => of_three_words(first.as_str(), second.as_str(), third.as_str()),
        [first, second, third, fourth] => of_four_words(
            first.as_str(),
            second.as_str(),
            third.as_str(),
            fourth.as_str(),
        ),
        _ => Work::Explains,
    }
}

#[tactic(auto, unfolding(crate::specs::Commands::of_one_word))]
fn of_one_word(first: &str) -> Work
    ensures { result ≡ of_one_word first.now }
{
    match first {
        "run" => Work::Runs {
            showing: Showing::Whole,
        },
        "check" => Work::Checks,
        "plain" => Work::Strips,
        _ => Work::Explains,
    }
}

#[tactic(auto, unfolding(crate::specs::Commands::of_two_words))]
fn of_two_words(first: &str, second: &str) -> Work
    ensures { result ≡ of_two_words first.now second.now }
{
    match (first, second) {
        ("run", "-q") => Work::Runs {
            showing: Showing::Quiet,
        },
        ("gen", children) => generation(children),
        ("core", tool) => core_shown(tool),
        _ => Work::Explains,
    }
}

#[tactic(auto, unfolding(crate::specs::Commands::of_three_words))]
fn of_three_words(first: &str, second: &str, third: &str) -> Work
    ensures { result ≡ of_three_words first.now second.now third.now }
{
    match (first, second, third) {
        ("run", "-j", workers) => shared_run(Showing::Whole, workers),
        _ => Work::Explains,
    }
}

#[tactic(auto, unfolding(crate::specs::Commands::of_four_words))]
fn of_four_words(first: &str, second: &str, third: &str, fourth: &str) -> Work
    ensures { result ≡ of_four_words first.now second.now third.now fourth.now }
{
    match (first, second, third, fourth) {
        ("run", "-q", "-j", workers) => shared_run(Showing::Quiet, workers),
        ("run", "-j", workers, "-q") => shared_run(Showing::Quiet, workers),
        _ => Work::Explains,
    }
}

#[tactic(auto, unfolding(crate::specs::Commands::shared_run))]
fn shared_run(showing: Showing, workers: &str) -> Work
    ensures { result ≡ shared_run showing workers.now }
{
    match number_up_to(WORKER_LIMIT, workers) {
        Some(workers) => Work::Shares { showing, workers },
        None => Work::Explains,
    }
}

#[tactic(auto, unfolding(crate::specs::Commands::generation))]
fn generation(children: &str) -> Work
    ensures { result ≡ generation children.now }
{
    match number_up_to(CHILD_LIMIT, children) {
        Some(children) => Work::Generates { children },
        None => Work::Explains,
    }
}

/// The tools that show cores.
const CORE_TOOLS: [ToolKind; 5] = [
    ToolKind::Pflags,
    ToolKind::Psig,
    ToolKind::Pstack,
    ToolKind::Pmap,
    ToolKind::Pfiles,
];

fn is_tool_named(word: &str, tool: ToolKind) -> bool
    ensures { result ≡ is_tool_named word.now tool }
{
    word.as_bytes() == tool_name(tool).as_bytes()
}

/// The tool of this name among those that show cores.
#[tactic(auto, unfolding(crate::specs::Commands::core_tool_of_name))]
fn core_tool_of_name(word: &str) -> Option<ToolKind>
    ensures { result ≡ core_tool_of_name word.now }
{
    CORE_TOOLS
        .iter()
        .copied()
        .find(|tool| is_tool_named(word, *tool))
}

#[tactic(auto, unfolding(crate::specs::Commands::core_shown))]
fn core_shown(tool: &str) -> Work
    ensures { result ≡ core_shown tool.now }
{
    match core_tool_of_name(tool) {
        Some(kind) => Work::ShowsCore { kind },
        None => Work::Explains,
    }
}

// The number from 1 to `most` that is written so.
#[tactic(auto, unfolding(crate::specs::Commands::number_up_to))]
fn number_up_to(most: u32, word: &str) -> Option<u32>
    requires { most < 2 ^ 32 - 1 }
    ensures { result ≡ number_up_to most word.now }
{
    (1..most + 1).find(|n| Buffer::new().format(*n) == word)
}
