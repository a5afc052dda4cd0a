ghost use Rattle.std.specs.Prelude.{◌≡◌, ◌≤◌};
ghost use Rattle.pr_num.specs.Messages.{padding};

use pr_codec::WORD;

/// How many zeros pad so many bytes to whole words.
pub(crate) fn padding(len: usize) -> usize
    ensures count { result ≡ padding len }
    ensures limit { result ≤ 7 }
{
    (WORD - len % WORD) % WORD
}
