//! What truss prints.
ghost use Rattle.std.specs.Prelude.{◌≡◌, IfOk};
ghost use Rattle.pr_truss.specs.Printing.{printed};

use crate::Truss;
use crate::counts::write_counts;
use crate::lines::write_refusals;
use pr_asm::Program;
use pr_num::{Bytes, NoMemory};
use std::alloc::Global;

impl Truss {
    /// What truss prints: its lines, or with `-c` the refusals and the counts.
    #[tactic(auto, unfolding(crate::specs::Printing::printed))]
    pub fn print(&self, alloc: Global, _programs: &[Program]) -> Result<Bytes, NoMemory>
        ensures { IfOk result (λ text. text ≡ printed self.now.state) }
    {
        let mut out = Vec::new(alloc);
        if self.options.count {
            write_refusals(&mut out, &self.reports)?;
            write_counts(&mut out, &self.reports)?;
        } else {
            self.write_lines(alloc, &mut out)?;
        }
        Ok(Bytes::from_vec(out))
    }
}
