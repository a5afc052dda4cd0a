//! A judge of a history, who hears its entries one after another.
ghost use Rattle.std.specs.Prelude.{◌≡◌, ◌≤◌, ◌<◌, ◌+◌, ◌++◌, ◌^◌, [], ◌∷◌, All, List, Some, None, if◌then◌else◌, length, slice_get, sum_by, true, IfOk, OnErr, OnOk};
ghost use Rattle.pr_judge.specs.Hearings.{HasHeard};
ghost use Rattle.pr_kern.specs.Starts.{stored};
ghost use Rattle.pr_model.specs.FirstState.{first_state, size_at_start};
ghost use Rattle.pr_model.specs.State.{TracedState};
ghost use Rattle.pr_model.specs.declared.events.Entry.{Entry as AnyEntry};
ghost use Rattle.pr_num.specs.Limits.{all_mappings_limit, controller_limit, file_limit, file_size_limit, process_limit, program_limit};
ghost use Rattle.pr_parts.specs.FileTables.{names_differ};

use crate::players::Player;
use pr_asm::Program;
use pr_model::Entry;
use pr_num::{Bytes, Name, NoMemory};
use std::alloc::Global;
use std::marker::Model;

/// Who says of a history whether it is legal, or which entry is the first that is not, while it is heard entry by
/// entry; no entry is kept. Contracts see how many controllers there are, the state of the machine that plays the
/// entries, how many were heard, and the place of the first that was not legal.
#[derive(Drop)]
pub struct Judge {
    player: Player,
    controllers: u32,
    heard: usize,
    first: Option<usize>,
}

impl Model for Judge {
    ghost use Rattle.std.specs.Prelude.{◌≤◌};
    ghost use Rattle.pr_judge.specs.Hearings.{Hearing};
    ghost use Rattle.pr_num.specs.Limits.{controller_limit};

    ghost Value = { Hearing };

    ghost view = { λ a. record { controllers = a.controllers; state = a.player.state; heard = a.heard; first = a.first } };

    ghost invariant = { λ a. (a.player.steps ≤ a.heard) × (a.controllers ≤ controller_limit) };
}

/// The place of an entry that is not legal.
fn place_unless(legal: bool, place: usize) -> Option<usize>
    ensures { result ≡ (if legal then None else Some place) }
{
    if legal { None } else { Some(place) }
}

impl Judge {
    /// A judge of histories with so many controllers, of a machine with these programs, at most 256, and files, in the
    /// state before the first step, with a process of each program that is spawned, by its place among the programs:
    /// 4,095 at most, which together map 64 MiB at most.
    pub fn new(
        alloc: Global,
        programs: Vec<Program>,
        files: Vec<(Name, Bytes)>,
        spawns: &[u32],
        controllers: u32,
    ) -> Result<Judge, NoMemory>
        requires programs { length programs.items ≤ program_limit }
        requires spawns { length spawns.now + 1 ≤ process_limit }
        requires mapped { sum_by (λ place. size_at_start (slice_get programs.items place)) spawns.now ≤ all_mappings_limit }
        requires few { length files.items ≤ file_limit }
        requires short { All (λ f. length f.1 ≤ file_size_limit) files.items }
        requires own_names { names_differ (stored files.items) ≡ true }
        requires controllers { controllers ≤ controller_limit }
        ensures heard { IfOk result (λ judge. HasHeard (first_state programs.items (stored files.items) spawns.now) [] judge) }
        ensures count { IfOk result (λ judge. judge.controllers ≡ controllers) }
    {
        let player = Player::new(alloc, programs, files, spawns)?;
        Ok(Judge {
            player,
            controllers,
            heard: 0,
            first: None,
        })
    }

    /// Hears the next entry. It is judged while all before it are legal; the others are only counted. Where memory runs
    /// out, nothing was heard.
    pub fn hear(&mut self, alloc: Global, entry: &Entry) -> Result<(), NoMemory>
        requires { self.old.heard + 1 < 2 ^ 32 }
        ensures heard { OnOk result
            ((s : TracedState) → (entries : List AnyEntry) → HasHeard s entries self.old
            → HasHeard s (entries ++ entry.now ∷ []) self.new) }
        ensures controllers { self.new.controllers ≡ self.old.controllers }
        ensures count { OnOk result (self.new.heard ≡ self.old.heard + 1) }
        ensures err { OnErr result (self.new ≡ self.old) }
    {
        if self.first.is_some() {
            self.heard += 1;
            return Ok(());
        }
        let legal = self.player.play(alloc, self.controllers, entry)?;
        self.first = place_unless(legal, self.heard);
        self.heard += 1;
        Ok(())
    }

    /// How many entries were heard.
    pub fn heard(&self) -> usize
        ensures { result ≡ self.now.heard }
    {
        self.heard
    }

    /// The place of the first of them that is not legal; none where all are.
    pub fn first(&self) -> Option<usize>
        ensures { result ≡ self.now.first }
    {
        self.first
    }
}
