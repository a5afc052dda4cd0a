use pr_num::Bytes;
use pr_num::limits::SIGNAL_COUNT;
use pr_rec::{LwpStatus, MapEntry, Psinfo};
use std::marker::Model;

/// What a process is at one moment, with its memory (core(5)). Contracts see it as a plain record of numbers and lists.
#[derive(Drop)]
pub struct Core {
    /// The process's id.
    pub pid: u64,
    /// What ps(1) shows of it.
    pub psinfo: Psinfo,
    /// Its lwps.
    pub lwps: Vec<LwpStatus>,
    /// What it does at each signal, in their order: 0 default, 1 ignored, else the address of a handler.
    pub sigact: [u64; SIGNAL_COUNT],
    /// Its mappings.
    pub maps: Vec<MapEntry>,
    /// Its open descriptors, each by the words of its record.
    pub fds: Vec<[u64; 8]>,
    /// The bytes of each mapping.
    pub memory: Vec<Bytes>,
}

impl Model for Core {
    ghost use Rattle.pr_core.specs.Cores.{CoreState};

    ghost Value = { CoreState };

    ghost view = { λ c. record {
      pid = c.pid;
      psinfo = c.psinfo;
      lwps = c.lwps.items;
      sigact = c.sigact;
      maps = c.maps.items;
      fds = c.fds.items;
      memory = c.memory.items;
    } };
}
