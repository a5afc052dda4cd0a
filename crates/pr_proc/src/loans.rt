//! What becomes of lent memory where a process ends or runs another program (vfork(2)).
ghost use Rattle.std.specs.Prelude.{◌≡◌};
ghost use Rattle.pr_model.specs.Lives.{is_id, with_lender_of, with_loan_back};
ghost use Rattle.pr_model.specs.State.{TracedProcess, with_process_if};

use crate::{Proc, Sys};
use pr_mem::Space;

/// Whether this is the id, if there is one.
fn is_id(pid: u32, id: Option<u32>) -> bool
    ensures { result ≡ is_id pid id }
{
    match id {
        Some(other) => other == pid,
        None => false,
    }
}

/// Lets a process, if it has lent its memory to that of an id, have it again, or its next borrower.
#[tactic(auto, unfolding(pr_model::specs::Lives::with_loan_back))]
fn take_back(lender: &mut Proc, pid: u32, space: Space, borrower: Option<u32>)
    ensures { (p : TracedProcess) → p.space ≡ space → p.borrower ≡ borrower
        → lender.new ≡ with_loan_back pid p lender.old }
{
    if is_id(pid, lender.borrower) {
        lender.space = space;
        lender.borrower = borrower;
    }
}

/// Gives what the process of an id borrowed back to its lender, if it has one: its memory, or, where it has lent that
/// on, the borrower of it. Copies and takes no memory.
#[tactic(auto, using(pr_num::proofs::ByIdLaws::by_id_laws), unfolding(pr_model::specs::State::with_process))]
pub(crate) fn give_back(
    sys: &mut Sys,
    pid: u32,
    lender: Option<u32>,
    space: Space,
    borrower: Option<u32>,
)
    ensures { (p : TracedProcess) → p.space ≡ space → p.borrower ≡ borrower
        → sys.new ≡ with_process_if lender (with_loan_back pid p) sys.old }
{
    let Some(lender) = lender else {
        return;
    };
    if let Some(process) = sys.processes.find_mut(lender) {
        take_back(process, pid, space, borrower);
    }
}

/// Gives a process, if it has borrowed its memory from that of an id, another lender, or none.
#[tactic(auto, unfolding(pr_model::specs::Lives::with_lender_of))]
fn take_lender(borrower: &mut Proc, pid: u32, lender: Option<u32>)
    ensures { (p : TracedProcess) → p.lender ≡ lender → borrower.new ≡ with_lender_of pid p borrower.old }
{
    if is_id(pid, borrower.lender) {
        borrower.lender = lender;
    }
}

/// Leaves the lender of the process of an id, if it has one, to its borrower, if it has one.
#[tactic(auto, using(pr_num::proofs::ByIdLaws::by_id_laws), unfolding(pr_model::specs::State::with_process))]
pub(crate) fn leave_lender(sys: &mut Sys, pid: u32, borrower: Option<u32>, lender: Option<u32>)
    ensures { (p : TracedProcess) → p.lender ≡ lender
        → sys.new ≡ with_process_if borrower (with_lender_of pid p) sys.old }
{
    let Some(borrower) = borrower else {
        return;
    };
    if let Some(process) = sys.processes.find_mut(borrower) {
        take_lender(process, pid, lender);
    }
}
