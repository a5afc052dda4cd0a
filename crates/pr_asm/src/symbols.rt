//! Which label an address belongs to.
ghost use Rattle.std.specs.Prelude.{◌≡◌, ◌≤◌, ◌<◌, ◌↔◌, length, option_map, None, IsNone, IfSome};
ghost use Rattle.std.specs.List.{All};
ghost use Rattle.pr_num.specs.Limits.{code_limit};
ghost use Rattle.pr_asm.specs.Symbols.{label_address, nearer, nearest, symbol_at, IsSymbol};

use crate::{Label, Program};

/// The better of the best label so far, with its address, and one more: a higher one at or below `pc`, or a later one
/// at the same address.
#[tactic(auto, unfolding(crate::specs::Symbols::nearer))]
fn nearer<'a>(pc: u64, best: Option<(&'a [u8], u64)>, label: &'a Label) -> Option<(&'a [u8], u64)>
    requires place { label.now.place ≤ code_limit }
    requires below { IfSome best (λ b. b.1 ≤ pc) }
    ensures value { option_map (λ b. (b.0.now, b.1)) result ≡ nearer pc (option_map (λ b. (b.0.now, b.1)) best.entry) label.now }
    ensures below { IfSome result (λ b. b.1 ≤ pc) }
{
    let at = label.address();
    if at > pc {
        return best;
    }
    if let Some((_, highest)) = best
        && highest > at
    {
        return best;
    }
    Some((label.name(), at))
}

/// The last of these labels at or below `pc`, and its address.
fn nearest(pc: u64, labels: &[Label]) -> Option<(&[u8], u64)>
    requires { All (λ l. l.place ≤ code_limit) labels.now }
    ensures value { option_map (λ b. (b.0.now, b.1)) result ≡ nearest pc None labels.now }
    ensures below { IfSome result (λ b. b.1 ≤ pc) }
{
    let mut best = None;
    for label in labels {
        best = nearer(pc, best, label);
    }
    best
}

impl Program {
    /// The name of the last label at or below `pc`, and how far `pc` lies past it; `None` exactly where no label
    /// stands at or below `pc`. Of several labels at one address it is the one on the latest line. Takes no memory.
    #[tactic(auto, unfolding(crate::specs::Symbols::symbol_at))]
    pub fn symbol_at(&self, pc: u64) -> Option<(&[u8], u64)>
        ensures value { option_map (λ s. (s.0.now, s.1)) result ≡ symbol_at self.now pc }
        ensures none { IsNone result ↔ All (λ l. pc < label_address l) self.now.labels }
        ensures last { IfSome result (λ s. IsSymbol self.now.labels pc s.0.now s.1) }
    {
        let (name, at) = nearest(pc, self.labels())?;
        Some((name, pc - at))
    }
}
