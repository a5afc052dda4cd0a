ghost use Rattle.std.specs.Prelude.{◌≡◌, ◌<◌, ℕ, List, length};
ghost use Rattle.std.specs.List.{All};
ghost use Rattle.pr_num.specs.Instructions.{HasImmediate, instruction_bytes, instruction_in};
ghost use Rattle.pr_num.specs.declared.instructions.Instruction.{Instruction};

/// An instruction's bytes spell that instruction, and 16 bytes that spell an instruction are its bytes: a law, which
/// the clauses state. It does nothing.
pub fn an_instruction_is_its_bytes()
    ensures read_back { (i : Instruction) → HasImmediate i → instruction_in (instruction_bytes i) ≡ Some i }
    ensures one_spelling { (bytes : List ℕ) (i : Instruction) → length bytes ≡ 16 → All (λ b. b < 256) bytes
        → instruction_in bytes ≡ Some i → bytes ≡ instruction_bytes i }
{}
