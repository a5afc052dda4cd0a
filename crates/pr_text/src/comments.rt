//! Comments in programs and scenarios.
ghost use Rattle.std.specs.Prelude.{◌≡◌};
ghost use Rattle.pr_text.specs.Comments.{begins_comment};

/// Whether a word makes its line a comment, where it is the first.
#[tactic(auto, unfolding(crate::specs::Comments::begins_comment))]
pub fn begins_comment(word: &[u8]) -> bool
    ensures { result ≡ begins_comment word.now }
{
    match word.first() {
        Some(b) => *b == b'#',
        None => false,
    }
}
