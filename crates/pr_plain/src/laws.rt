//! Laws of the text of a history. Each function does nothing: its clauses are what is proved.
ghost use Rattle.std.specs.Prelude.{◌≡◌, ◌≢◌, ◌+◌, ◌++◌, [], ◌∷◌, ℕ, List, true, false, Some, None, decimal, length};
ghost use Rattle.std.specs.Str.{bytes_eq};
ghost use Rattle.std.specs.List.{All, list_all, slice_split};
ghost use Rattle.pr_num.specs.Words.{IsByte};
ghost use Rattle.pr_model.specs.declared.calls.Call.{Call as AnyCall};
ghost use Rattle.pr_model.specs.declared.calls.Reply.{Reply as AnyReply};
ghost use Rattle.pr_model.specs.declared.events.Did.{Did as AnyDid};
ghost use Rattle.pr_model.specs.declared.events.Entry.{Entry as AnyEntry};
ghost use Rattle.pr_plain.specs.Forms.{first_word, same_call, same_did, same_reply};
ghost use Rattle.pr_plain.specs.EntryForms.{has_form};
ghost use Rattle.pr_plain.specs.HexWords.{hex_word, bytes_of_word};
ghost use Rattle.pr_plain.specs.Histories.{history_text, BeginsWith, IsTextOf};
ghost use Rattle.pr_text.specs.TextLines.{newline, is_newline};
ghost use Rattle.pr_plain.specs.HistoryText.{did_words, call_words, reply_words, entry_words, entry_line, entry_text, entries_text};
ghost use Rattle.pr_plain.specs.Lines.{is_blank, is_word, has_words, entry_lines};

/// The line of an entry is words, none of them empty, which are found again where the line is cut at its blanks.
#[tactic(auto, using(crate::proofs::WordLemmas::words_of_entries, crate::proofs::LineLemmas::lines_of_entries))]
pub fn a_line_is_its_words()
    ensures words { (n : ℕ) (e : AnyEntry) → has_words e ≡ true → list_all is_word (entry_words n e) ≡ true }
    ensures cut { (n : ℕ) (e : AnyEntry) → has_words e ≡ true → slice_split is_blank (entry_line n e) ≡ entry_words n e }
{}

/// The text of an entry ends with a newline and has no other, so that the text of entries is cut at its newlines into
/// their lines.
#[tactic(auto, using(crate::proofs::LineLemmas::lines_of_entries))]
pub fn a_text_is_its_lines()
    ensures ends { (n : ℕ) (e : AnyEntry) → entry_text n e ≡ entry_line n e ++ newline ∷ [] }
    ensures within { (n : ℕ) (e : AnyEntry) → has_words e ≡ true → All (λ b. is_newline b ≡ false) (entry_line n e) }
    ensures cut { (n : ℕ) (es : List AnyEntry) → list_all has_words es ≡ true
        → slice_split is_newline (entries_text n es) ≡ entry_lines n es ++ [] ∷ [] }
{}

/// The text of a history grows at its end, by the text of the new entry.
#[tactic(auto, using(crate::proofs::LineLemmas::growing_text))]
pub fn a_text_grows_at_its_end()
    ensures none { (n : ℕ) → entries_text n [] ≡ [] }
    ensures longer { (n : ℕ) (es : List AnyEntry) (e : AnyEntry)
        → entries_text n (es ++ e ∷ []) ≡ entries_text n es ++ entry_text (n + length es) e }
{}

/// Bytes are read back from their word, and from no other word.
#[tactic(auto, using(crate::proofs::HexLemmas::hex_words))]
pub fn bytes_are_their_hex_word()
    ensures back { (bytes : List ℕ) → All IsByte bytes → bytes_of_word (hex_word bytes) ≡ Some bytes }
    ensures only { (word bytes : List ℕ) → bytes_of_word word ≡ Some bytes → hex_word bytes ≡ word }
{}

/// Calls, turns and replies of different forms begin with different words; and of what an entry tells, a call, a turn
/// and a time begin with different words.
#[tactic(auto, using(crate::proofs::FormLemmas::forms_told))]
pub fn forms_are_told_by_their_first_word()
    ensures calls { (c d : AnyCall) → bytes_eq (first_word (call_words c)) (first_word (call_words d)) ≡ same_call c d }
    ensures turns { (c d : AnyDid) → bytes_eq (first_word (did_words c)) (first_word (did_words d)) ≡ same_did c d }
    ensures replies { (c d : AnyReply) → bytes_eq (first_word (reply_words c)) (first_word (reply_words d)) ≡ same_reply c d }
    ensures calls_and_turns { (c : AnyCall) (d : AnyDid) → bytes_eq (first_word (call_words c)) (first_word (did_words d)) ≡ false }
    ensures calls_and_times { (c : AnyCall) (n : ℕ) → first_word (call_words c) ≢ decimal n }
    ensures turns_and_times { (d : AnyDid) (n : ℕ) → first_word (did_words d) ≢ decimal n }
{}

/// The texts that begin with a history are its own text with anything behind it, and its own text without the last
/// newline. So what is written of a history is read back.
#[tactic(auto, using(crate::proofs::TextLaws::texts_of_histories))]
pub fn a_history_is_in_its_text()
    ensures whole { (es : List AnyEntry) (rest : List ℕ) → list_all has_form es ≡ true → BeginsWith (history_text es ++ rest) es }
    ensures unended { (es : List AnyEntry) (text : List ℕ) → list_all has_form es ≡ true → text ++ newline ∷ [] ≡ history_text es
        → BeginsWith text es }
    ensures only { (text : List ℕ) (es : List AnyEntry) → BeginsWith text es → IsTextOf text es }
{}
