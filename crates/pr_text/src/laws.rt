//! Laws of text and words. Each function does nothing: its clauses are what is proved.
ghost use Rattle.std.specs.Prelude.{◌≡◌, ◌≤◌, ◌<◌, ◌^◌, Bool, false, ℕ, List, length, slice_index, take, drop, decimal, All, Any, AllPairs};
ghost use Rattle.std.specs.Str.Parse.{digits_value};
ghost use Rattle.pr_num.specs.Limits.{shown_limit};
ghost use Rattle.pr_text.specs.declared.spans.Word.{Word};
ghost use Rattle.pr_text.specs.Numerals.{hex_text, hex8_text};
ghost use Rattle.pr_num.specs.Words.{IsByte};
ghost use Rattle.pr_text.specs.Quotes.{quoted_text, has_dots, IsPrinted};
ghost use Rattle.pr_text.specs.Words.{parts_words, words_of};
ghost use Rattle.pr_text.specs.Division.{DividesFrom, StandsIn, IsIn, IsBefore};

/// A line divides into its words and in no other way: they are the runs without blank, tab and comma that
/// are as long as can be, and the quoted texts, in order and apart, and every byte that is no blank, tab or
/// comma is in one of them.
pub fn a_line_is_its_words()
    ensures divides { (line : List ℕ) → DividesFrom line 0 (words_of line) }
    ensures only { (line : List ℕ) (ws : List Word) → DividesFrom line 0 ws → ws ≡ words_of line }
    ensures inside { (line : List ℕ) → All (StandsIn line) (words_of line) }
    ensures apart { (line : List ℕ) → AllPairs IsBefore (words_of line) }
    ensures none_left_out { (line : List ℕ) (k : ℕ) → k < length line
        → parts_words (slice_index line k) ≡ false → Any (IsIn k) (words_of line) }
{}

/// A number's digits in hex are worth the number, and no text that is made here is long.
pub fn numbers_are_their_digits()
    ensures hex { (n : ℕ) → n < 2 ^ 64 → digits_value 16 (drop 2 (hex_text n)) ≡ n }
    ensures hex8 { (n : ℕ) → n < 2 ^ 64 → digits_value 16 (drop 2 (hex8_text n)) ≡ n }
    ensures short_dec { (n : ℕ) → n < 2 ^ 64 → length (decimal n) ≤ 20 }
    ensures short_hex { (n : ℕ) → n < 2 ^ 64 → length (hex_text n) ≤ 18 }
    ensures short_hex8 { (n : ℕ) → n < 2 ^ 64 → length (hex8_text n) ≤ 18 }
{}

/// Quoted text is printed by ASCII and at most 260 bytes long, and it tells the bytes that it shows and
/// whether they go on.
pub fn quoted_text_tells_its_bytes()
    ensures printed { (bytes : List ℕ) (more : Bool) → All IsByte bytes
        → All IsPrinted (quoted_text bytes more) }
    ensures short { (bytes : List ℕ) (more : Bool) → length (quoted_text bytes more) ≤ 260 }
    ensures tells { (xs ys : List ℕ) (m n : Bool) → All IsByte xs → All IsByte ys
        → quoted_text xs m ≡ quoted_text ys n
        → (take shown_limit xs ≡ take shown_limit ys) × (has_dots xs m ≡ has_dots ys n) }
{}
