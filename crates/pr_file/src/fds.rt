ghost use Rattle.std.specs.Prelude.{◌≡◌, ◌<◌, Some, None, IfSome, length, slice_set};
ghost use Rattle.pr_num.specs.Limits.{descriptor_limit};
ghost use Rattle.pr_num.specs.Files.{no_descriptors};
ghost use Rattle.pr_parts.specs.FileTables.{at_place, free_fd, free_fd_behind};

use crate::places::first_free;
use pr_num::limits::DESCRIPTOR_LIMIT;
use std::marker::Model;

/// The 64 descriptors of a process, kept in place (dup(2)), each free or standing for an open file, and seen by
/// contracts as the list of the open files' places.
#[derive(Drop)]
pub struct Fds {
    places: [Option<usize>; DESCRIPTOR_LIMIT],
}

impl Model for Fds {
    ghost use Rattle.std.specs.Prelude.{◌≡◌, ℕ, Option, List, length};
    ghost use Rattle.pr_num.specs.Limits.{descriptor_limit};

    ghost Value = { List (Option ℕ) };

    ghost view = { λ fds. fds.places };

    ghost invariant = { λ fds. length fds.places ≡ descriptor_limit };
}

impl Fds {
    /// No descriptor is open.
    pub fn new() -> Fds
        ensures { result ≡ no_descriptors }
    {
        Fds {
            places: [None; DESCRIPTOR_LIMIT],
        }
    }

    /// Every process has 64 descriptors, open or free.
    pub fn are_all(&self)
        ensures { length self.now ≡ descriptor_limit }
    {
        let _ = &self.places;
    }

    /// The place of the open file that a descriptor stands for.
    pub(crate) fn place(&self, fd: u64) -> Option<usize>
        ensures place { result ≡ at_place self.now fd }
        ensures within { IfSome result (λ _. fd < descriptor_limit) }
    {
        self.places.get(fd as usize).copied().flatten()
    }

    /// The least free descriptor.
    pub(crate) fn free(&self) -> Option<usize>
        ensures free { result ≡ free_fd self.now }
        ensures within { IfSome result (λ fd. fd < descriptor_limit) }
    {
        first_free(&self.places)
    }

    /// The least free descriptor that is greater than this one.
    pub(crate) fn free_behind(&self, fd: usize) -> Option<usize>
        requires { fd < descriptor_limit }
        ensures free { result ≡ free_fd_behind self.now fd }
        ensures within { IfSome result (λ fd. fd < descriptor_limit) }
    {
        let place = first_free(&self.places[fd + 1..])?;
        Some(fd + 1 + place)
    }

    /// Lets a descriptor stand for the open file at a place.
    pub(crate) fn set(&mut self, fd: usize, place: Option<usize>)
        requires { fd < descriptor_limit }
        ensures { self.new ≡ slice_set self.old fd place }
    {
        self.places[fd] = place;
    }

    /// The places of the open files, by descriptor.
    pub(crate) fn places(&self) -> &[Option<usize>]
        ensures places { result.now ≡ self.now }
        ensures len { length result.now ≡ descriptor_limit }
    {
        &self.places
    }

    /// Descriptors that stand for the same open files.
    pub(crate) fn same(&self) -> Fds
        ensures { result ≡ self.now }
    {
        let places = self.places;
        Fds { places }
    }
}
