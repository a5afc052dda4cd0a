ghost use Rattle.std.specs.Prelude.{◌≡◌, ◌≤◌, ◌<◌, ◌+◌, [], ◌∷◌, true, false, length, drop, slice_index};
ghost use Rattle.pr_text.specs.Words.{parts_words, closes_quotes, words_from, plain_word, quoted_word};

/// A blank, a tab or a comma.
fn parts_words(b: u8) -> bool
    ensures { result ≡ parts_words b }
{
    matches!(b, b' ' | b'\t' | b',')
}

// A quote that has no backslash before it.
fn closes_quotes(before: u8, b: u8) -> bool
    ensures { result ≡ closes_quotes before b }
{
    b == b'"' && before != b'\\'
}

/// The place of the next byte that is in a word, or the line's end.
#[tactic(auto, using(crate::proofs::WordSteps::word_steps))]
pub fn word_start(line: &[u8], at: usize) -> usize
    requires { at ≤ length line.now }
    ensures within { result ≤ length line.now }
    ensures in_word { result < length line.now → parts_words (slice_index line.now result) ≡ false }
    ensures skips { words_from at (drop at line.now) ≡ words_from result (drop result line.now) }
{
    for i in at..line.len() {
        if !parts_words(line[i]) {
            return i;
        }
    }
    line.len()
}

/// Where the word that begins at `start` ends.
#[tactic(auto, using(crate::proofs::WordSteps::word_steps))]
pub fn word_end(line: &[u8], start: usize) -> usize
    requires within { start < length line.now }
    requires in_word { parts_words (slice_index line.now start) ≡ false }
    ensures after { start < result }
    ensures within { result ≤ length line.now }
    ensures word { words_from start (drop start line.now)
        ≡ record { start = start; end = result } ∷ words_from result (drop result line.now) }
{
    if line[start] == b'"' {
        quoted_end(line, start)
    } else {
        plain_end(line, start)
    }
}

#[tactic(auto, using(crate::proofs::WordSteps::word_steps))]
fn plain_end(line: &[u8], start: usize) -> usize
    requires { start < length line.now }
    ensures after { start < result }
    ensures within { result ≤ length line.now }
    ensures word { plain_word start (start + 1) (drop (start + 1) line.now)
        ≡ record { start = start; end = result } ∷ words_from result (drop result line.now) }
{
    for i in start + 1..line.len() {
        if parts_words(line[i]) {
            return i;
        }
    }
    line.len()
}

#[tactic(auto, using(crate::proofs::WordSteps::word_steps))]
fn quoted_end(line: &[u8], start: usize) -> usize
    requires { start < length line.now }
    ensures after { start < result }
    ensures within { result ≤ length line.now }
    ensures word { quoted_word start (start + 1) (slice_index line.now start) (drop (start + 1) line.now)
        ≡ record { start = start; end = result } ∷ words_from result (drop result line.now) }
{
    let mut before = line[start];
    for i in start + 1..line.len() {
        if closes_quotes(before, line[i]) {
            return i + 1;
        }
        before = line[i];
    }
    line.len()
}
