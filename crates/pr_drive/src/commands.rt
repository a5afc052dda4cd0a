//! What the words after the program's name ask for.
ghost use Rattle.std.specs.Prelude.{◌≡◌, map, string_bytes};
ghost use Rattle.pr_drive.specs.Commands.{of_one_word, work_of};

use pr_output::Showing;

/// What a call of the program does.
#[derive(Clone, Copy, Debug, PartialEq, Eq)]
pub enum Work {
    /// It tells its usage.
    Explains,
    /// A session, at the end of which the history is written or not.
    Drives { showing: Showing },
}

/// What these words ask for.
#[tactic(auto, unfolding(crate::specs::Commands::work_of))]
pub fn work_of(words: &[String]) -> Work
    ensures { result ≡ work_of (map string_bytes words.now) }
{
    match words {
        [] => Work::Drives {
            showing: Showing::Whole,
        },
        [word] => of_one_word(word.as_str()),
        _ => Work::Explains,
    }
}

#[tactic(auto, unfolding(crate::specs::Commands::of_one_word))]
fn of_one_word(word: &str) -> Work
    ensures { result ≡ of_one_word word.now }
{
    match word {
        "-q" => Work::Drives {
            showing: Showing::Quiet,
        },
        _ => Work::Explains,
    }
}
