ghost use Rattle.std.specs.Prelude.{◌≡◌, ◌==◌, ◌≢◌, ◌≤◌, ◌<◌, ◌+◌, ◌^◌, [], length, position, OnOk, OnErr, OnSome, IfSome, is_none, if◌then◌else◌, ◌-◌, take, insert, remove};
ghost use Rattle.std.specs.List.{list_any, position_or_len};
ghost use Rattle.pr_num.specs.Limits.{area_limit};
ghost use Rattle.pr_num.specs.Messages.{bad_operand};
ghost use Rattle.pr_num.specs.declared.messages.Message.TheVariants.{Watch};
ghost use Rattle.pr_parts.specs.ByAddress.{is_behind};
ghost use Rattle.pr_parts.specs.WatchedAreas.{area_address, begins_at, overlaps, is_taken, with_area, without_area, hit_in};
ghost use Rattle.pr_watch.specs.Accesses.{access_flag, is_access_flag};
ghost use Rattle.pr_watch.specs.Setting.{set_refusal, done_unless};

use crate::{AccessKind, hits};
use pr_num::limits::AREA_LIMIT;
use pr_num::{Area, WatchFlags};
use std::marker::Model;
use thiserror::Error;

/// Why an area is not set.
#[derive(Clone, Copy, Debug, PartialEq, Eq, Error)]
pub enum WatchFault {
    /// Flags or a range that no area has.
    #[error("flags or a range that no watched area has")]
    BadFlags,
    /// An area stands there.
    #[error("an area is watched there")]
    Overlap,
    /// 64 areas stand.
    #[error("64 areas are watched")]
    TooMany,
}

/// The watched areas of a process: at most 64, kept in place, and seen by contracts as their list by rising address.
#[derive(Drop)]
pub struct Areas {
    slots: [Area; AREA_LIMIT],
    len: usize,
}

impl Model for Areas {
    ghost use Rattle.std.specs.Prelude.{List, take, ◌≤◌};
    ghost use Rattle.pr_num.specs.declared.mappings.Area.{Area};

    ghost Value = { List Area };

    ghost use Rattle.pr_num.specs.Limits.{area_limit};
    ghost use Rattle.pr_parts.specs.WatchedAreas.{AreAreas};

    ghost view = { λ areas. take areas.len areas.slots };

    ghost invariant = { λ areas. (areas.len ≤ area_limit) × AreAreas (take areas.len areas.slots) };
}

/// What stands in a place that no area has.
const UNUSED: Area = Area {
    at: 0,
    size: 0,
    flags: WatchFlags::READ,
};

impl Areas {
    /// How many areas there can be.
    pub const MAX: usize = AREA_LIMIT;

    /// No areas.
    pub fn new() -> Areas
        ensures { result ≡ [] }
    {
        Areas {
            slots: [UNUSED; AREA_LIMIT],
            len: 0,
        }
    }

    /// How many areas there are, at most 64.
    pub fn len(&self) -> usize
        ensures value { result ≡ length self.now }
        ensures limit { length self.now ≤ area_limit }
    {
        self.as_slice().len()
    }

    /// Whether nothing is watched.
    pub fn is_empty(&self) -> bool
        ensures { result ≡ (length self.now == 0) }
    {
        self.as_slice().is_empty()
    }

    ghost use Rattle.pr_num.specs.Limits.{area_limit};
    ghost use Rattle.pr_parts.specs.WatchedAreas.{AreAreas};

    /// The areas by rising address, apart from each other.
    pub fn as_slice(&self) -> &[Area]
        ensures value { result.now ≡ self.now }
        ensures areas { AreAreas self.now }
    {
        &self.slots[..self.len]
    }

    /// Watches the bytes of a range for what the flags say, which are more than none. The areas stay as they are where
    /// this is refused.
    #[tactic(auto, unfolding(pr_parts::specs::WatchedAreas::with_area))]
    pub fn set(&mut self, at: u64, size: u64, flags: u8) -> Result<(), WatchFault>
        requires { 0 < flags }
        ensures answer { result ≡ done_unless (set_refusal at size flags self.old) }
        ensures ok { OnOk result (self.new ≡ with_area (record { at = at; size = size; flags = flags }) self.old) }
        ensures err { OnErr result (self.new ≡ self.old) }
    {
        let Some(flags) = area_flags(at, size, flags) else {
            return Err(WatchFault::BadFlags);
        };
        if is_taken(self.as_slice(), at, size) {
            return Err(WatchFault::Overlap);
        }
        if self.len == Areas::MAX {
            return Err(WatchFault::TooMany);
        }
        let place = place_for(self.as_slice(), at);
        insert_at(&mut self.slots, self.len, place, Area { at, size, flags });
        self.len += 1;
        Ok(())
    }

    /// Watches the area that begins at an address no more; where none does, nothing changes.
    #[tactic(auto, unfolding(pr_parts::specs::WatchedAreas::without_area))]
    pub fn clear(&mut self, at: u64)
        ensures { self.new ≡ without_area at self.old }
    {
        if let Some(place) = place_of(self.as_slice(), at) {
            remove_at(&mut self.slots, self.len, place);
            self.len -= 1;
        }
    }

    /// The first byte of an access that is watched for its kind, and whether its area has TRAPAFTER. The access has
    /// `size` bytes from `at` on, and goes on at 0 after the last address.
    pub fn hit_by(&self, at: u64, size: u64, kind: AccessKind) -> Option<(u64, bool)>
        ensures { result ≡ hit_in (access_flag kind) self.now at size }
    {
        hits::hit_in(self.as_slice(), at, size, kind.flag())
    }

    /// The same, where the kind is given by its flag: 1 for a read, 2 for a write, 4 for an instruction that is
    /// fetched. Any other number is no kind of access, and hits nothing.
    pub fn hit(&self, at: u64, size: u64, kind: u8) -> Option<(u64, bool)>
        ensures { result ≡ (if is_access_flag kind then hit_in kind self.now at size else None) }
    {
        let kind = AccessKind::of_flag(kind)?;
        self.hit_by(at, size, kind)
    }
}

/// The flags of an area, if its words are in their columns.
#[tactic(auto, unfolding(pr_num::specs::Messages::bad_operand))]
fn area_flags(at: u64, size: u64, flags: u8) -> Option<WatchFlags>
    requires { 0 < flags }
    ensures value { result ≡ (if is_none (bad_operand (Watch at size flags)) then Some flags else None) }
    ensures same { IfSome result (λ f. f ≡ flags) }
    ensures range { OnSome result ((0 < size) × (at + size ≤ 2 ^ 64)) }
{
    if size == 0 || size - 1 > u64::MAX - at || flags == 8 {
        return None;
    }
    WatchFlags::from_word(u64::from(flags))
}

/// Whether an area has a byte of a range.
fn overlaps(area: &Area, at: u64, size: u64) -> bool
    ensures { result ≡ overlaps at size area.now }
{
    (at < area.at || at - area.at < area.size) && (area.at < at || area.at - at < size)
}

fn is_taken(areas: &[Area], at: u64, size: u64) -> bool
    ensures { result ≡ is_taken at size areas.now }
{
    areas.iter().any(|area| overlaps(area, at, size))
}

/// The place of the first area that stands after an address.
fn place_behind(areas: &[Area], at: u64) -> Option<usize>
    ensures { result ≡ position (is_behind area_address at) areas.now }
{
    areas.iter().position(|area| area.at > at)
}

/// The place of an area that is to begin at an address: before the first that stands after it, or after all.
#[tactic(auto, using(pr_parts::proofs::ByAddressLemmas::places))]
fn place_for(areas: &[Area], at: u64) -> usize
    ensures value { result ≡ position_or_len (is_behind area_address at) areas.now }
    ensures within { result ≤ length areas.now }
{
    match place_behind(areas, at) {
        Some(place) => place,
        None => areas.len(),
    }
}

/// The place of the area that begins at an address.
fn place_of(areas: &[Area], at: u64) -> Option<usize>
    ensures { result ≡ position (begins_at at) areas.now }
{
    areas.iter().position(|area| area.at == at)
}

/// Puts an area in a place among the first `len`; those from there on move up.
#[tactic(auto, using(crate::proofs::SlotLemmas::moves))]
fn insert_at(slots: &mut [Area; AREA_LIMIT], len: usize, place: usize, area: Area)
    requires room { len < area_limit }
    requires within { place ≤ len }
    ensures { take (len + 1) slots.new ≡ insert (take len slots.old) place area }
{
    let slots = &mut slots[..];
    slots[len] = area;
    slots[place..len + 1].rotate_right(1);
}

/// Takes out the area in a place among the first `len`; those after it move down.
#[tactic(auto, using(crate::proofs::SlotLemmas::moves))]
fn remove_at(slots: &mut [Area; AREA_LIMIT], len: usize, place: usize)
    requires all { len ≤ area_limit }
    requires within { place < len }
    ensures { take (len - 1) slots.new ≡ remove (take len slots.old) place }
{
    let slots = &mut slots[..];
    slots[place..len].rotate_left(1);
}
