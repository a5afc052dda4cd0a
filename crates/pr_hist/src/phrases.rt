//! The longer phrases between what is told.
ghost use Rattle.std.specs.Prelude.{◌≡◌, ◌++◌, OnOk};
ghost use Rattle.pr_hist.specs.Phrases.{phrase};

use pr_num::NoMemory;
use pr_text::Text;

/// A phrase, by what it says.
#[derive(Clone, Copy)]
pub enum Phrase {
    AndStops,
    LastMoved,
    NoMessage,
}

#[tactic(auto, unfolding(crate::specs::Phrases::phrase))]
fn words(which: Phrase) -> &'static [u8]
    ensures { result.now ≡ phrase which }
{
    match which {
        Phrase::AndStops => b", and stops: ",
        Phrase::LastMoved => b" last moved in entry ",
        Phrase::NoMessage => b"no message: ",
    }
}

/// Appends a phrase.
pub fn write_phrase(text: &mut Text, which: Phrase) -> Result<(), NoMemory>
    ensures { OnOk result (text.new ≡ text.old ++ phrase which) }
{
    text.text(words(which))
}
