//! Laws of words and bytes. Each function does nothing: its clauses are what is proved.
ghost use Rattle.std.specs.Prelude.{◌≡◌, ◌^◌, ◌*◌, ◌<◌, ℕ, List, length, slice_index};
ghost use Rattle.std.specs.Int.{w64, to_le_bytes, from_le_bytes};
ghost use Rattle.pr_num.specs.Words.{words_bytes};
ghost use Rattle.pr_codec.specs.Words.{AreBytes, AreWords, word_at};

/// Eight bytes are the bytes of the word that they give, and a word is what its eight bytes give.
pub fn a_word_is_its_bytes()
    ensures bytes_back { (bytes : List ℕ) → length bytes ≡ 8 → AreBytes bytes
        → to_le_bytes w64 (from_le_bytes w64 bytes) ≡ bytes }
    ensures word_back { (w : ℕ) → w < 2 ^ 64 → from_le_bytes w64 (to_le_bytes w64 w) ≡ w }
{}

/// The bytes of a list of words spell these words and no others.
pub fn words_are_their_bytes()
    ensures length { (words : List ℕ) → length (words_bytes words) ≡ 8 * length words }
    ensures bytes { (words : List ℕ) → AreBytes (words_bytes words) }
    ensures each { (words : List ℕ) (i : ℕ) → AreWords words → i < length words
        → word_at (words_bytes words) (8 * i) ≡ slice_index words i }
    ensures one_spelling { (xs ys : List ℕ) → AreWords xs → AreWords ys
        → words_bytes xs ≡ words_bytes ys → xs ≡ ys }
{}
