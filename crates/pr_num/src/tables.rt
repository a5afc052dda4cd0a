ghost use Rattle.std.specs.Prelude.{◌≡◌};
ghost use Rattle.pr_num.specs.Tables.{entry_at};

/// The entry of a number in a table that counts from 1.
#[tactic(auto, unfolding(crate::specs::Tables::entry_at))]
pub(crate) fn entry_at<T: Copy>(entries: &[T], n: u64) -> Option<T>
    ensures { result ≡ entry_at entries.now n }
{
    if n == 0 {
        return None;
    }
    entries.get(n as usize - 1).copied()
}
