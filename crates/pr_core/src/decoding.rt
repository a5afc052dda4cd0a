//! A core of its bytes.
ghost use Rattle.std.specs.Prelude.{◌≡◌, length, map, Ok, Err, IfOk, IfErr};
ghost use Rattle.std.specs.List.{All};
ghost use Rattle.pr_rec.specs.InRange.{IsPsinfo, IsLwpStatus, IsMapEntry};
ghost use Rattle.pr_core.specs.CoreBytes.{core_bytes};
ghost use Rattle.pr_core.specs.CoreRanges.{IsCore, IsSigact};
ghost use Rattle.pr_core.specs.CoreReading.{core_read, IsFaultOf};
ghost use Rattle.pr_core.specs.Cores.{core_words};

use crate::pieces::pieces;
use crate::record_sections::{any_records, counted_records, one_record};
use crate::sections::{FDS, HEADING, LSTATUS, MAP, PSINFO, SIGACT, VERSION};
use crate::words::{exact_word, id_word};
use crate::{Core, CoreFault};
use pr_codec::WORD;
use pr_num::limits::SIGNAL_COUNT;
use pr_rec::{LwpStatus, MapEntry, Psinfo};
use std::alloc::Global;

impl Core {
    /// The core that bytes encode, or else why they encode none: their first fault, with its place, or that memory ran
    /// out.
    pub fn decode(alloc: Global, bytes: &[u8]) -> Result<Core, CoreFault>
        ensures ok { IfOk result (λ core. core_read bytes.now ≡ Ok (core_words core)) }
        ensures err { IfErr result (IsFaultOf (core_read bytes.now)) }
        ensures core { IfOk result IsCore }
        ensures bytes { IfOk result (λ core. core_bytes core ≡ bytes.now) }
    {
        Core::read(alloc, bytes)
    }

    /// Reads a core from its front on.
    #[tactic(auto, using(crate::proofs::DecodingLemmas::map_same), unfolding(crate::specs::CoreReading::core_read))]
    fn read(alloc: Global, bytes: &[u8]) -> Result<Core, CoreFault>
        ensures ok { IfOk result (λ core. core_read bytes.now ≡ Ok (core_words core)) }
        ensures err { IfErr result (IsFaultOf (core_read bytes.now)) }
        ensures psinfo { IfOk result (λ core. IsPsinfo core.psinfo) }
        ensures lwps { IfOk result (λ core. All IsLwpStatus core.lwps) }
        ensures sigact { IfOk result (λ core. IsSigact core.sigact) }
        ensures maps { IfOk result (λ core. All IsMapEntry core.maps) }
    {
        exact_word(bytes, VERSION, 0)?;
        let pid = id_word(bytes, WORD)?;
        let (psinfo, at) = one_record::<Psinfo>(bytes, PSINFO, HEADING)?;
        let (lwps, at) = counted_records::<LwpStatus>(alloc, bytes, LSTATUS, at)?;
        let (sigact, at) = one_record::<[u64; SIGNAL_COUNT]>(bytes, SIGACT, at)?;
        let (maps, at) = any_records::<MapEntry>(alloc, bytes, MAP, at)?;
        let (fds, at) = any_records::<[u64; 8]>(alloc, bytes, FDS, at)?;
        let (memory, at) = pieces(alloc, bytes, &maps, at)?;
        if at != bytes.len() {
            return Err(CoreFault::Bad { at });
        }
        Ok(Core {
            pid,
            psinfo,
            lwps,
            sigact,
            maps,
            fds,
            memory,
        })
    }
}
