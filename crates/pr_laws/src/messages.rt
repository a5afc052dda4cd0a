ghost use Rattle.std.specs.Prelude.{◌≡◌, ◌≤◌, ◌++◌, ℕ, List, Ok, length, take};
ghost use Rattle.std.specs.List.{All};
ghost use Rattle.pr_num.specs.Words.{IsByte};
ghost use Rattle.pr_num.specs.Messages.{Spells, first_message};
ghost use Rattle.pr_num.specs.declared.messages.Message.{Message};

/// Bytes that encode a message are read as that message, whatever follows them, and as so many bytes.
#[tactic(auto, using(pr_codec::proofs::MessageLemmas::readings))]
pub fn encoded_message_is_read()
    ensures { (bytes rest : List ℕ) (m : Message) (tail : List ℕ) → Spells bytes m tail
        → first_message (bytes ++ rest) ≡ Ok (m, length bytes) }
{}

/// What bytes are read as, their first bytes encode, as many as were read.
pub fn read_message_is_encoded()
    ensures { (bytes : List ℕ) (m : Message) (n : ℕ) → All IsByte bytes → first_message bytes ≡ Ok (m, n)
        → (n ≤ length bytes) × ((tail : List ℕ) × Spells (take n bytes) m tail) }
{}

/// The same bytes encode one message, with the same bytes after its operands, and that is encoded by no other bytes.
pub fn one_encoding_one_message()
    ensures message { (a : List ℕ) (m n : Message) (s t : List ℕ) → Spells a m s → Spells a n t → (m ≡ n) × (s ≡ t) }
    ensures encoding { (a b : List ℕ) (m : Message) (t : List ℕ) → Spells a m t → Spells b m t → a ≡ b }
{}

/// No encoding of a message begins the encoding of another: messages that stand one after the other are told apart.
pub fn no_encoding_begins_another()
    ensures { (a b rest : List ℕ) (m n : Message) (s t : List ℕ) → Spells a m s → Spells b n t → a ++ rest ≡ b
        → (a ≡ b) × (m ≡ n) }
{}
