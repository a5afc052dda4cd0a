ghost use Rattle.std.specs.Prelude.{[], ℕ, List};
ghost use Rattle.pr_num.specs.Spaces.{Space};
ghost use Rattle.pr_model.specs.InstructionEffects.{instruction_effect};
ghost use Rattle.pr_erasure.specs.PlainEffects.{IsPlain};

/// Where nothing is watched, no instruction incurs FLTWATCH; and none incurs FLTTRACE by itself: that comes of a step
/// mark alone.
#[tactic(auto, using(crate::proofs::SeenTurns::FaultLemmas::plain))]
pub fn no_instruction_incurs_flttrace()
    ensures { (space : Space) (regs : List ℕ) → IsPlain (instruction_effect space [] regs) }
{}
