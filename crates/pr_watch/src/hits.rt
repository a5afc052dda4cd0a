ghost use Rattle.std.specs.Prelude.{◌≡◌, ◌==◌, ◌&&◌, ◌+◌, ◌≤◌, ◌<◌, ◌^◌, All, find, nat_le, nat_lt};
ghost use Rattle.std.specs.Option.{option_copied};
ghost use Rattle.pr_num.specs.Control.{has_flags};
ghost use Rattle.pr_parts.specs.WatchedAreas.{AreAreas, watches, watcher, hit_in};
ghost use Rattle.pr_watch.specs.Steps.{hit_at, steps_to, fewer, nearer, nearest_from};

use pr_num::{Area, WatchFlags};

// Which byte of an access is watched first.

/// Whether an area watches accesses of a kind.
#[tactic(auto, unfolding(pr_num::specs::Control::has_flags, pr_num::specs::Sets::common_word))]
fn has_kind(area: &Area, kind: u8) -> bool
    ensures { result ≡ has_flags area.now.flags kind }
{
    area.flags.word() & u64::from(kind) == u64::from(kind)
}

/// Whether an area watches accesses of a kind to a byte.
fn watches(area: &Area, byte: u64, kind: u8) -> bool
    ensures { result ≡ watches kind byte area.now }
{
    area.at <= byte && byte - area.at < area.size && has_kind(area, kind)
}

/// The area that watches accesses of a kind to a byte.
fn watcher(areas: &[Area], byte: u64, kind: u8) -> Option<&Area>
    ensures { option_copied result ≡ watcher kind areas.now byte }
{
    areas.iter().find(|area| watches(area, byte, kind))
}

/// How many bytes after an address an area is reached, where 0 stands after the last address.
#[tactic(auto, unfolding(crate::specs::Steps::steps_to))]
fn steps_to(area: &Area, at: u64) -> u64
    requires { area.now.at + area.now.size ≤ 2 ^ 64 }
    ensures { result ≡ steps_to at area.now }
{
    if at <= area.at {
        area.at - at
    } else if at - area.at < area.size {
        0
    } else {
        u64::MAX - at + 1 + area.at
    }
}

fn fewer(best: Option<u64>, steps: u64) -> Option<u64>
    ensures { result ≡ fewer best steps }
{
    match best {
        Some(best) if best <= steps => Some(best),
        _ => Some(steps),
    }
}

#[tactic(auto, unfolding(crate::specs::Steps::nearer))]
fn nearer(best: Option<u64>, area: &Area, at: u64, kind: u8) -> Option<u64>
    requires { area.now.at + area.now.size ≤ 2 ^ 64 }
    ensures { result ≡ nearer kind at best area.now }
{
    if has_kind(area, kind) {
        fewer(best, steps_to(area, at))
    } else {
        best
    }
}

/// How many bytes after an address the next byte is that is watched for accesses of a kind, if any is.
fn nearest(areas: &[Area], at: u64, kind: u8) -> Option<u64>
    requires { All (λ a. a.at + a.size ≤ 2 ^ 64) areas.now }
    ensures { result ≡ nearest_from kind at None areas.now }
{
    let mut best = None;
    for area in areas {
        best = nearer(best, area, at, kind);
    }
    best
}

/// A byte, if it is watched for accesses of a kind, and whether its area has TRAPAFTER.
fn hit_at(areas: &[Area], byte: u64, kind: u8) -> Option<(u64, bool)>
    ensures { result ≡ hit_at kind areas.now byte }
{
    match watcher(areas, byte, kind) {
        Some(area) => Some((byte, area.flags.has(WatchFlags::TRAPAFTER))),
        None => None,
    }
}

/// The first byte of an access that is watched for its kind, and whether its area has TRAPAFTER.
#[tactic(auto, using(crate::proofs::HitLemmas::hits))]
pub fn hit_in(areas: &[Area], at: u64, size: u64, kind: u8) -> Option<(u64, bool)>
    requires { AreAreas areas.now }
    ensures { result ≡ hit_in kind areas.now at size }
{
    match nearest(areas, at, kind) {
        None => None,
        Some(steps) => {
            if steps < size {
                hit_at(areas, at.wrapping_add(steps), kind)
            } else {
                None
            }
        }
    }
}
