//! The bytes of a core.
ghost use Rattle.std.specs.Prelude.{◌≡◌, ◌<◌, ◌^◌, ◌++◌, length, Ok, IfOk, OnOk};
ghost use Rattle.std.specs.List.{All, flat_map};
ghost use Rattle.pr_num.specs.Records.{entries_words};
ghost use Rattle.pr_num.specs.Words.{words_bytes};
ghost use Rattle.pr_core.specs.CoreBytes.{core_bytes, section, memory_kind};
ghost use Rattle.pr_core.specs.CoreRanges.{IsCore, IsEncodable};
ghost use Rattle.pr_core.specs.CoreReading.{core_read};
ghost use Rattle.pr_core.specs.Cores.{core_words};

use crate::Core;
use crate::sections::{FDS, LSTATUS, MAP, MEMORY, PSINFO, SIGACT, VERSION};
use pr_codec::push_word;
use pr_num::{Bytes, NoMemory};
use pr_rec::{encode_sigact, write_lstatus, write_map};
use std::alloc::Global;

/// Adds a section.
#[tactic(auto, unfolding(crate::specs::CoreBytes::section))]
fn push_section(out: &mut Vec<u8>, kind: u64, bytes: &[u8]) -> Result<(), NoMemory>
    ensures { OnOk result (out.new.items ≡ out.old.items ++ section kind bytes.now) }
{
    push_word(out, kind)?;
    push_word(out, bytes.len() as u64)?;
    out.extend_from_slice(bytes)?;
    Ok(())
}

/// Adds the memory of mappings, a section each.
fn push_memory(out: &mut Vec<u8>, memory: &[Bytes]) -> Result<(), NoMemory>
    ensures { OnOk result (out.new.items ≡ out.old.items ++ flat_map (section memory_kind) memory.now) }
{
    for piece in memory {
        push_section(out, MEMORY, piece.as_slice())?;
    }
    Ok(())
}

/// Adds words.
fn push_words(out: &mut Vec<u8>, words: &[u64]) -> Result<(), NoMemory>
    ensures { OnOk result (out.new.items ≡ out.old.items ++ words_bytes words.now) }
{
    for word in words {
        push_word(out, *word)?;
    }
    Ok(())
}

/// The record of descriptors.
pub(crate) fn write_fds(alloc: Global, fds: &[[u64; 8]]) -> Result<Bytes, NoMemory>
    ensures { IfOk result (λ bytes. bytes ≡ words_bytes (entries_words fds.now)) }
{
    let mut out = Vec::new(alloc);
    for words in fds {
        push_words(&mut out, words)?;
    }
    Ok(Bytes::from_vec(out))
}

impl Core {
    /// The bytes of the core, from which it is read again.
    pub fn encode(&self, alloc: Global) -> Result<Bytes, NoMemory>
        requires { IsEncodable self.now }
        ensures bytes { IfOk result (λ bytes. bytes ≡ core_bytes self.now) }
        ensures core { OnOk result (IsCore self.now) }
        ensures read { IfOk result (λ bytes. core_read bytes ≡ Ok (core_words self.now)) }
    {
        self.write(alloc)
    }

    #[tactic(auto, unfolding(crate::specs::CoreBytes::encoded, pr_rec::specs::RecordBytes::psinfo_bytes, pr_rec::specs::RecordBytes::lstatus_bytes, pr_rec::specs::RecordBytes::sigact_bytes, pr_rec::specs::RecordBytes::map_bytes))]
    fn write(&self, alloc: Global) -> Result<Bytes, NoMemory>
        requires { IsEncodable self.now }
        ensures bytes { IfOk result (λ bytes. bytes ≡ core_bytes self.now) }
        ensures core { OnOk result (IsCore self.now) }
        ensures fits { OnOk result (length (core_bytes self.now) < 2 ^ 64) }
    {
        let mut out = Vec::new(alloc);
        push_word(&mut out, VERSION)?;
        push_word(&mut out, self.pid)?;
        push_section(&mut out, PSINFO, &self.psinfo.encode())?;
        push_section(
            &mut out,
            LSTATUS,
            write_lstatus(alloc, &self.lwps)?.as_slice(),
        )?;
        push_section(&mut out, SIGACT, &encode_sigact(&self.sigact))?;
        push_section(&mut out, MAP, write_map(alloc, &self.maps)?.as_slice())?;
        push_section(&mut out, FDS, write_fds(alloc, &self.fds)?.as_slice())?;
        push_memory(&mut out, &self.memory)?;
        Ok(Bytes::from_vec(out))
    }
}
