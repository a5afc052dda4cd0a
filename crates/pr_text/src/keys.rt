//! Names as keys of a table.
ghost use Rattle.std.specs.Prelude.{◌≡◌, Some, refl, bytes_eq};
ghost use Rattle.std.proofs.Common.{rules};
ghost use Rattle.std.specs.Ordering.{nat_cmp};
ghost use Rattle.std.specs.Cmp.{on_equiv, on_total, on_po, on_per, partial_equiv_from_equiv};
ghost use Rattle.std.specs.Cmp.Lexicographic.{slice_cmp, nat_list_eq_equiv, nat_list_cmp_total, texts_ties, texts_po};

use pr_num::Name;
use std::cmp::Ordering;

/// A name as a key: keys are in the order of their bytes.
#[derive(Clone, Copy)]
pub struct Key {
    pub name: Name,
}

impl PartialEq for Key {
    ghost eq = { λ a b. bytes_eq a.name b.name };

    ghost laws = { on_per (λ k. k.name) (partial_equiv_from_equiv nat_list_eq_equiv) };

    fn eq(&self, other: &Key) -> bool {
        self.name.as_slice() == other.name.as_slice()
    }
}

impl Eq for Key {
    ghost laws = { on_equiv (λ k. k.name) nat_list_eq_equiv };
}

impl PartialOrd for Key {
    ghost partial_cmp = { λ a b. Some (slice_cmp nat_cmp a.name b.name) };

    ghost laws = { on_po (λ k. k.name) texts_po };

    fn partial_cmp(&self, other: &Key) -> Option<Ordering> {
        Some(self.cmp(other))
    }
}

impl Ord for Key {
    ghost cmp = { λ a b. slice_cmp nat_cmp a.name b.name };

    ghost total = { on_total (λ k. k.name) nat_list_cmp_total };

    ghost matches_partial_cmp = { λ a b. refl };

    ghost matches_eq = { λ a b. texts_ties a.name b.name };

    fn cmp(&self, other: &Key) -> Ordering {
        self.name.as_slice().cmp(&other.name.as_slice())
    }
}
