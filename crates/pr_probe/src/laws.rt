//! Laws of apfiles. Each function does nothing: its clauses are what is proved.
ghost use Rattle.std.specs.Prelude.{◌≡◌, ◌≤◌, ℕ, List, true, None, length, reverse, take};
ghost use Rattle.std.specs.List.{All};
ghost use Rattle.pr_num.specs.Limits.{descriptor_limit};
ghost use Rattle.pr_num.specs.declared.errnos.Errno.{Errno};
ghost use Rattle.pr_model.specs.declared.calls.Reply.{Reply};
ghost use Rattle.pr_probe.specs.ProbeRuns.{IsNoInterrupt, codes_saved, codes_written, descriptors_answered, fed_all, handles_closed, handles_given, most_calls, sequence, stacks_saved, stacks_written, stages_in, undoing, undone_in};
ghost use Rattle.pr_probe.specs.Probes.{ProbeState, first_probe, has_ended, refused};

/// A run that ends without a refusal passes its stages in their order, whatever the replies are: it opens, looks, stops
/// and saves, sets the four sets and makes the agent; it asks for each descriptor from 0 to 63, once; and it sends the
/// agent to its end, writes back and sets the four sets back.
pub fn a_probe_keeps_its_order()
    ensures { (pid : ℕ) (rs : List Reply) → has_ended (fed_all (first_probe pid) rs) ≡ true
        → (fed_all (first_probe pid) rs).refusal ≡ None → stages_in (first_probe pid) rs ≡ sequence }
{}

/// A run that ends without a refusal writes back what it saved: the bytes of the text, and the bytes of the stack.
pub fn a_probe_writes_back_what_it_saved()
    ensures code { (pid : ℕ) (rs : List Reply) → has_ended (fed_all (first_probe pid) rs) ≡ true
        → (fed_all (first_probe pid) rs).refusal ≡ None
        → codes_written (first_probe pid) rs ≡ codes_saved (first_probe pid) rs }
    ensures stack { (pid : ℕ) (rs : List Reply) → has_ended (fed_all (first_probe pid) rs) ≡ true
        → (fed_all (first_probe pid) rs).refusal ≡ None
        → stacks_written (first_probe pid) rs ≡ stacks_saved (first_probe pid) rs }
{}

/// Whatever was refused, and when: a probe sets all four sets back where it had changed one, and runs the process where
/// it had directed it to stop and that had not stood before, and no more, before it closes. No reply refuses that.
pub fn a_refused_probe_undoes_what_it_did()
    ensures { (s : ProbeState) (e : Errno) (rs : List Reply) → has_ended (fed_all (refused s e) rs) ≡ true
        → undone_in (refused s e) rs ≡ undoing s.stage s.stood }
{}

/// The descriptors that apfiles shows are those of which an answer of the agent said what they stand for, in their
/// order: what it prints is a function of the replies that it got.
pub fn a_probe_shows_what_its_agent_was_answered()
    ensures { (pid : ℕ) (rs : List Reply) → (fed_all (first_probe pid) rs).lines
        ≡ take descriptor_limit (descriptors_answered (first_probe pid) rs) }
{}

/// Whatever the replies are: when a probe has finished it has closed each file that it opened, the last first.
pub fn a_probe_closes_what_it_opened()
    ensures { (pid : ℕ) (rs : List Reply) → has_ended (fed_all (first_probe pid) rs) ≡ true
        → handles_closed (first_probe pid) rs ≡ reverse (handles_given (first_probe pid) rs) }
{}

/// Where no wait for the agent is interrupted, a probe has finished after so many calls, whatever the replies are.
pub fn a_probe_ends()
    ensures { (pid : ℕ) (rs : List Reply) → All IsNoInterrupt rs → most_calls ≤ length rs
        → has_ended (fed_all (first_probe pid) rs) ≡ true }
{}
