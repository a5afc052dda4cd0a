ghost use Rattle.std.specs.Prelude.{◌≡◌, ◌≤◌, ◌<◌, ◌+◌, true, length, reverse, IsOk, OnOk, IfOk, OnErr};
ghost use Rattle.std.specs.Option.{option_copied};
ghost use Rattle.pr_num.specs.Limits.{clock_limit};
ghost use Rattle.pr_api.specs.Entries.{last_reply_of};
ghost use Rattle.pr_api.specs.Steps.{IsCalled, IsTicked, IsTurned};
ghost use Rattle.pr_api.specs.TableLaws.{table-lawful};
ghost use Rattle.pr_api.specs.TableKernels.{after_call, after_tick, after_turn, first_table, is_the_lwp, otherwise, table_view, taken};
ghost use Rattle.pr_api.specs.Views.{IsLawful, next_of};

use crate::{Kernel, has_shape};
use pr_model::{Act, Actor, Call, Did, Entry, History, Reply, Turned, is_after};
use pr_num::{Bytes, Errno, NoMemory};
use std::alloc::Global;
use std::marker::Model;

/// A kernel that answers from a list of replies, to try controllers on: it has no lwp, and every call is ready. A call
/// takes the next reply of the list where that has the call's shape; else the list stays, and the answer is EIO, or no
/// bytes to a list of processes. It tells no machine.
#[derive(Drop)]
pub struct TableKernel {
    alloc: Global,
    /// The replies that are left, the next one last.
    replies: Vec<Reply>,
    history: History,
    places: u32,
    clock: u64,
    /// The one lwp that can have a turn. No call makes one, so that no lwp ever can.
    lwp: Option<(u32, u32)>,
}

impl Model for TableKernel {
    ghost use Rattle.std.specs.Prelude.{◌≤◌, length, reverse};
    ghost use Rattle.pr_api.specs.Rooms.{HasRoom};
    ghost use Rattle.pr_api.specs.TableKernels.{TableState};

    ghost Value = { TableState };

    ghost view = { λ a. record {
      replies = reverse a.replies.items;
      history = a.history.entries;
      places = a.places;
      clock =
          a.clock;
      lwp = a.lwp;
    } };

    ghost invariant = { λ a. HasRoom a.history a.places × (a.clock ≤ length a.history.entries) };
}

/// What a call gets that no reply of the list fits.
#[tactic(auto, unfolding(crate::specs::TableKernels::otherwise))]
fn otherwise(alloc: Global, call: &Call) -> Reply
    ensures { result ≡ otherwise call.now }
{
    match call {
        Call::List => Reply::Bytes(Bytes::from_vec(Vec::new(alloc))),
        _ => Reply::Fail(Errno::Io),
    }
}

/// The reply to a call: the next one, which stands last, where it has the call's shape.
#[tactic(auto, using(crate::proofs::ReplyLemmas::reply_laws), unfolding(crate::specs::TableKernels::taken))]
fn take_reply(replies: &mut Vec<Reply>, alloc: Global, call: &Call) -> Reply
    ensures { (record { reply = result; left = reverse replies.new.items })
        ≡ taken call.now (reverse replies.old.items) }
{
    let Some(reply) = replies.pop() else {
        return otherwise(alloc, call);
    };
    if has_shape(call, &reply) {
        return reply;
    }
    replies.push_reserved(reply);
    otherwise(alloc, call)
}

impl TableKernel {
    /// A kernel of these replies, with places for so many entries.
    pub fn new(alloc: Global, replies: Vec<Reply>, places: u32) -> Result<TableKernel, NoMemory>
        ensures { IfOk result (λ kernel. kernel ≡ first_table replies.items places) }
    {
        let mut replies = replies;
        replies.as_mut_slice().reverse();
        let mut history = History::new(alloc);
        history.reserve(places as usize)?;
        Ok(TableKernel {
            alloc,
            replies,
            history,
            places,
            clock: 0,
            lwp: None,
        })
    }

    /// The history so far: an entry for each call, turn and tick.
    pub fn history(&self) -> &History
        ensures { result.now.entries ≡ self.now.history }
    {
        &self.history
    }
}

impl Kernel for TableKernel {
    ghost view = { table_view };

    fn ready(&self, _by: u32, _call: &Call) -> bool {
        true
    }

    /// Makes a call of a controller. Takes no memory.
    #[tactic(auto, unfolding(crate::specs::TableKernels::after_call))]
    fn call(&mut self, by: u32, call: Call) -> Result<(), NoMemory>
        requires place { length self.old.history < self.old.places }
        ensures ok { OnOk result (IsCalled by call (table_view self.old) (table_view self.new)) }
        ensures sure { IsOk result }
        ensures value { self.new ≡ after_call by call self.old }
    {
        let reply = take_reply(&mut self.replies, self.alloc, &call);
        self.history.push(Entry {
            actor: Actor::Controller(by),
            act: Act::Call(call, reply),
        });
        Ok(())
    }

    #[tactic(auto, unfolding(crate::specs::Entries::last_reply_of))]
    fn last_reply(&self) -> Option<&Reply> {
        let last = self.history.len().checked_sub(1)?;
        match &self.history.get(last)?.act {
            Act::Call(_, reply) => Some(reply),
            Act::Turn(_) | Act::Tick(_) => None,
        }
    }

    fn lwp_movable(&self, pid: u32, lwp: u32) -> bool {
        match self.lwp {
            Some(the_lwp) => the_lwp.0 == pid && the_lwp.1 == lwp,
            None => false,
        }
    }

    #[tactic(auto, unfolding(crate::specs::Views::next_of, crate::specs::Views::turns_after))]
    fn next_lwp(&self, after: Option<(u32, u32)>, movable: bool) -> Option<(u32, u32)> {
        let lwp = self.lwp?;
        let turns = self.lwp_movable(lwp.0, lwp.1);
        if is_after(after, lwp) && (turns || !movable) {
            Some(lwp)
        } else {
            None
        }
    }

    /// Gives an lwp a turn, which does nothing. Takes no memory.
    fn lwp_turn(&mut self, pid: u32, lwp: u32) -> Result<Turned, NoMemory>
        requires place { length self.old.history < self.old.places }
        ensures ok { IfOk result (λ turned. IsTurned pid lwp turned (table_view self.old) (table_view self.new)) }
        ensures sure { IsOk result }
        ensures value { IfOk result (λ turned. self.new ≡ after_turn pid lwp turned self.old) }
    {
        let turned = Turned {
            did: Did::Ran,
            stop: false,
        };
        self.history.push(Entry {
            actor: Actor::Lwp(pid, lwp),
            act: Act::Turn(turned),
        });
        Ok(turned)
    }

    fn tick(&mut self)
        requires clock { self.old.clock < clock_limit }
        requires place { length self.old.history < self.old.places }
        ensures ticked { IsTicked (table_view self.old) (table_view self.new) }
        ensures value { self.new ≡ after_tick self.old }
    {
        self.clock += 1;
        self.history.push(Entry {
            actor: Actor::Clock,
            act: Act::Tick(self.clock),
        });
    }

    fn clock(&self) -> u64 {
        self.clock
    }

    fn sleeper(&self) -> bool {
        false
    }

    fn entries(&self) -> u32 {
        self.history.len() as u32
    }

    fn places(&self) -> u32 {
        self.places
    }

    ghost lawful = { table-lawful };
}
