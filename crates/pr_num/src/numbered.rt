ghost use Rattle.std.specs.Prelude.{◌≡◌, ◌<◌, ◌≤◌, ℕ, List, Option, true, length};
ghost use Rattle.pr_num.specs.Tables.{counts_from, entry_at};

/// What stands in a table in which numbers count from 1, so that a set of it is a word.
pub trait Numbered: Copy {
    /// How many entries the table has.
    const COUNT: usize;

    ghost COUNT: { ℕ };

    ghost table: { List Self };

    ghost number_of: { Self → ℕ };

    ghost of_number: { ℕ → Option Self };

    ghost of_name: { List ℕ → Option Self };

    /// The table, in the order of its numbers.
    fn entries<'a>() -> &'a [Self]
        ensures value { result.now ≡ table }
        ensures counted { counts_from number_of 1 table ≡ true }
        ensures whole { length table ≡ COUNT };

    fn number(self) -> u64
        ensures value { result ≡ number_of self }
        ensures range { (1 ≤ result) × (result ≤ COUNT) };

    /// The entry of a number, `None` exactly where it is not 1 to `COUNT`.
    fn from_number(n: u64) -> Option<Self>
        ensures value { result ≡ of_number n }
        ensures entry { result ≡ entry_at table n };

    /// The entry of a name, `None` exactly where no entry has that name.
    fn from_name(name: &[u8]) -> Option<Self>
        ensures { result ≡ of_name name.now };

    /// A word has a bit for each entry, and one more.
    ghost fits: { COUNT < 64 };
}
