ghost use Rattle.std.specs.Prelude.{◌≡◌, ℕ, List, Some};
ghost use Rattle.pr_num.specs.declared.errnos.Errno.TheVariants.{Busy};
ghost use Rattle.pr_num.specs.declared.messages.Message.{Message};
ghost use Rattle.pr_num.specs.declared.messages.Message.TheVariants.{Watch, Agent, Write};
ghost use Rattle.pr_model.specs.Messages.{Aim, message_answer, refused};
ghost use Rattle.pr_model.specs.State.{TracedProcess, TracedSystem};
ghost use Rattle.pr_keeps.specs.MessageAnswers.{MessageAnswer};
ghost use Rattle.pr_keeps.specs.MessageEdits.{MessageEdit};

/// Whatever a control message makes of a system is one of its edits.
pub fn messages_make_their_edits()
    ensures { (s : TracedSystem) (pid : ℕ) (p : TracedProcess) (aim : Aim) (m : Message) (tail : List ℕ) (len : ℕ)
        → MessageEdit s pid p m tail (message_answer s pid p aim m tail len).system }
{}

/// Each control message is refused with an errno of its own and changes nothing, or it makes one of its edits and is
/// used up with all of its bytes, goes on with a wait, or has read bytes.
pub fn messages_are_refused_or_make_their_edits()
    ensures { (s : TracedSystem) (pid : ℕ) (p : TracedProcess) (aim : Aim) (m : Message) (tail : List ℕ) (len : ℕ)
        → MessageAnswer s pid p tail len m (message_answer s pid p aim m tail len) }
{}

/// On a process that has lent its memory PCWATCH, PCAGENT and PCWRITE are refused with EBUSY (vfork(2)).
pub fn lenders_refuse()
    ensures watch { (s : TracedSystem) (pid child at size flags len : ℕ) (p : TracedProcess) (aim : Aim) (tail : List ℕ)
        → p.borrower ≡ Some child → message_answer s pid p aim (Watch at size flags) tail len ≡ refused s Busy }
    ensures agent { (s : TracedSystem) (pid child len : ℕ) (p : TracedProcess) (aim : Aim) (regs tail : List ℕ)
        → p.borrower ≡ Some child → message_answer s pid p aim (Agent regs) tail len ≡ refused s Busy }
    ensures write { (s : TracedSystem) (pid child at size len : ℕ) (p : TracedProcess) (aim : Aim) (tail : List ℕ)
        → p.borrower ≡ Some child → message_answer s pid p aim (Write at size) tail len ≡ refused s Busy }
{}
