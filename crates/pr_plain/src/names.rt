//! The words for how a signal was acted on.
ghost use Rattle.std.specs.Prelude.{◌≡◌};
ghost use Rattle.pr_plain.specs.HistoryText.{how_text};

use pr_model::How;

/// How a signal was acted on.
#[tactic(auto, unfolding(crate::specs::HistoryText::how_text))]
pub fn how_name(how: How) -> &'static str
    ensures { result.now ≡ how_text how }
{
    match how {
        How::Caught => "caught",
        How::Ignored => "ignored",
        How::JobStop => "stopped",
        How::Died => "died",
    }
}
