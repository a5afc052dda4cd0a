//! What the instruction at pc does. It is tried in this order: its fetch, areas watched for execution, its decoding,
//! its own faults, areas watched for the data that it reads or writes, and its effect.
ghost use Rattle.std.specs.Prelude.{◌≡◌, true, false, length, None, Some, IfOk, OnOk, OnErr};
ghost use Rattle.pr_num.specs.Control.{prot_read, watch_exec, watch_write};
ghost use Rattle.pr_num.specs.Instructions.{instruction_in};
ghost use Rattle.pr_num.specs.Spaces.{bytes_for};
ghost use Rattle.pr_parts.specs.WatchedAreas.{hit_in};
ghost use Rattle.pr_model.specs.Registers.{pc_of};
ghost use Rattle.pr_model.specs.InstructionEffects.{access_fault, executed, hit_after, hit_before, instruction_effect, load_effect, of_instruction, store_effect, trapped_after, unless_exec_watched, unless_watched};
ghost use Rattle.pr_lwp.specs.Plain.{came_to, decoded_of, load_of, loaded_from, outcome_of, size_of, space_after, store_of, stored_bytes, stores_bytes, tells_fault};

use crate::accesses::{bad_store, fetch, load, make_store};
use crate::decoding::{Decoded, Load, Store, Stored, decode, leaves_registers};
use crate::registers::{computed, moved_on, returned};
use pr_mem::Space;
use pr_model::PC;
use pr_num::{BadByte, Flt, Instruction, NoMemory, Reg, Sysno};
use pr_watch::Areas;

/// What an instruction came to, once what it stores is stored.
#[derive(Clone, Copy, Debug, PartialEq, Eq)]
pub enum Outcome {
    /// It leaves these registers.
    Runs([u64; 11]),
    /// It comes to a system call with these registers.
    Calls(Sysno, [u64; 11]),
    /// It incurs a fault at an address, and changes nothing.
    Faults(Flt, u64),
    /// It leaves these registers, and then incurs FLTWATCH at an address.
    RunsIntoWatch(u64, [u64; 11]),
}

/// The flags of areas that watch reads, writes and instructions.
const WATCH_READ: u8 = 1;

const WATCH_WRITE: u8 = 2;

const WATCH_EXEC: u8 = 4;

/// A byte at which an access fails; `stack`: in a call of a subroutine or the return from one.
fn access_fault(stack: bool, bad: BadByte) -> Outcome
    ensures { result ≡ outcome_of (access_fault stack bad) }
{
    match bad {
        BadByte::Hole(at) => Outcome::Faults(if stack { Flt::Stack } else { Flt::Bounds }, at),
        BadByte::NotAllowed(at) => {
            Outcome::Faults(if stack { Flt::Stack } else { Flt::Access }, at)
        }
    }
}

/// What of a hit comes before the effect, at an area that traps before the access.
fn hit_before(hit: Option<(u64, bool)>) -> Option<u64>
    ensures { result ≡ hit_before hit }
{
    let (at, after) = hit?;
    if after { None } else { Some(at) }
}

/// What of a hit comes after the effect, at an area that traps after the access.
fn hit_after(hit: Option<(u64, bool)>) -> Option<u64>
    ensures { result ≡ hit_after hit }
{
    let (at, after) = hit?;
    if after { Some(at) } else { None }
}

/// Registers that an instruction leaves, after which a hit of the execution, or else one of the data, traps.
fn trapped_after(exec_hit: Option<u64>, data_hit: Option<u64>, regs: [u64; 11]) -> Outcome
    ensures { result ≡ outcome_of (trapped_after exec_hit data_hit regs None) }
{
    match exec_hit {
        Some(at) => Outcome::RunsIntoWatch(at, regs),
        None => match data_hit {
            Some(at) => Outcome::RunsIntoWatch(at, regs),
            None => Outcome::Runs(regs),
        },
    }
}

/// The registers after a word is read into one of them; after a byte is; after the two words of a call are read.
#[tactic(auto, unfolding(pr_model::specs::InstructionEffects::loaded, pr_num::specs::Words::word_of))]
fn load_word(space: &Space, to: Reg, at: u64, regs: &[u64; 11]) -> Result<[u64; 11], BadByte>
    ensures { result ≡ loaded_from (load_of (Load.Word to)) regs.now (bytes_for prot_read space.now at 8) }
{
    let bytes = load(space, at)?;
    Ok(computed(regs, to, u64::from_le_bytes(bytes)))
}

#[tactic(auto, unfolding(pr_model::specs::InstructionEffects::loaded))]
fn load_byte(space: &Space, to: Reg, at: u64, regs: &[u64; 11]) -> Result<[u64; 11], BadByte>
    ensures { result ≡ loaded_from (load_of (Load.Byte to)) regs.now (bytes_for prot_read space.now at 1) }
{
    let bytes: [u8; 1] = load(space, at)?;
    Ok(computed(regs, to, u64::from(bytes[0])))
}

#[tactic(auto, unfolding(pr_model::specs::InstructionEffects::loaded))]
fn load_frame(space: &Space, at: u64, regs: &[u64; 11]) -> Result<[u64; 11], BadByte>
    ensures { result ≡ loaded_from (load_of Load.Frame) regs.now (bytes_for prot_read space.now at 16) }
{
    let bytes = load(space, at)?;
    Ok(returned(regs, &bytes))
}

/// The registers after bytes are read, or the first byte that cannot be read.
fn loaded(space: &Space, load: Load, at: u64, regs: &[u64; 11]) -> Result<[u64; 11], BadByte>
    ensures { result ≡ loaded_from (load_of load) regs.now (bytes_for prot_read space.now at (size_of load)) }
{
    match load {
        Load::Word(to) => load_word(space, to, at, regs),
        Load::Byte(to) => load_byte(space, to, at, regs),
        Load::Frame => load_frame(space, at, regs),
    }
}

/// How many bytes are read.
fn size_of(load: Load) -> u64
    ensures { result ≡ size_of load }
{
    match load {
        Load::Word(_) => 8,
        Load::Byte(_) => 1,
        Load::Frame => 16,
    }
}

/// How many bytes are stored.
#[tactic(auto, using(crate::proofs::AccessLemmas::size_laws))]
fn length(bytes: Stored) -> u64
    ensures { result ≡ length (stored_bytes bytes) }
{
    match bytes {
        Stored::Byte(_) => 1,
        Stored::Word(_) => 8,
        Stored::Frame { .. } => 16,
    }
}

/// The first watched byte of a store, and whether its area traps after the access.
fn store_hit(areas: &Areas, store: Store) -> Option<(u64, bool)>
    ensures { result ≡ hit_in watch_write areas.now store.at (length (stored_bytes store.bytes)) }
{
    areas.hit(store.at, length(store.bytes), WATCH_WRITE)
}

/// A read of bytes.
#[tactic(auto, using(crate::proofs::ExecutionLemmas::loading))]
fn load_effect(
    space: &Space,
    areas: &Areas,
    exec_hit: Option<u64>,
    regs: &[u64; 11],
    load: Load,
    at: u64,
) -> Outcome
    ensures outcome { result ≡ outcome_of (load_effect space.now areas.now exec_hit regs.now (load_of load) at (size_of load)) }
    ensures space { space_after (load_effect space.now areas.now exec_hit regs.now (load_of load) at (size_of load)) space.now
        ≡ space.now }
{
    let new = match loaded(space, load, at, regs) {
        Ok(new) => new,
        Err(bad) => return access_fault(load == Load::Frame, bad),
    };
    let hit = areas.hit(at, size_of(load), WATCH_READ);
    match hit_before(hit) {
        Some(at) => Outcome::Faults(Flt::Watch, at),
        None => trapped_after(exec_hit, hit_after(hit), new),
    }
}

/// A write of bytes, which needs that all of them can be written. Where memory runs out the space stays as it is.
#[tactic(auto, using(crate::proofs::ExecutionLemmas::storing))]
fn store_effect(
    space: &mut Space,
    areas: &Areas,
    exec_hit: Option<u64>,
    stack: bool,
    regs: [u64; 11],
    store: Store,
) -> Result<Outcome, NoMemory>
    ensures outcome { IfOk result
        (λ outcome. outcome ≡ outcome_of (store_effect space.old areas.now exec_hit stack regs (store_of store))) }
    ensures space { OnOk result
        (space.new ≡ space_after (store_effect space.old areas.now exec_hit stack regs (store_of store)) space.old) }
    ensures memory { OnErr result (stores_bytes (store_effect space.old areas.now exec_hit stack regs (store_of store)) ≡ true) }
    ensures err { OnErr result (space.new ≡ space.old) }
{
    if let Some(bad) = bad_store(space, store) {
        return Ok(access_fault(stack, bad));
    }
    let hit = store_hit(areas, store);
    match hit_before(hit) {
        Some(at) => Ok(Outcome::Faults(Flt::Watch, at)),
        None => {
            make_store(space, store)?;
            Ok(trapped_after(exec_hit, hit_after(hit), regs))
        }
    }
}

/// What a decoded instruction does; one that comes to a system call is not trapped.
#[tactic(auto, unfolding(pr_model::specs::InstructionEffects::executed))]
fn executed(
    space: &mut Space,
    areas: &Areas,
    exec_hit: Option<u64>,
    regs: &[u64; 11],
    decoded: Decoded,
) -> Result<Outcome, NoMemory>
    ensures outcome { IfOk result (λ outcome. outcome
        ≡ outcome_of (executed space.old areas.now exec_hit regs.now (decoded_of decoded regs.now))) }
    ensures space { OnOk result (space.new
        ≡ space_after (executed space.old areas.now exec_hit regs.now (decoded_of decoded regs.now)) space.old) }
    ensures memory { OnErr result
        (stores_bytes (executed space.old areas.now exec_hit regs.now (decoded_of decoded regs.now)) ≡ true) }
    ensures err { OnErr result (space.new ≡ space.old) }
{
    match decoded {
        Decoded::FaultsItself(fault) => Ok(Outcome::Faults(fault, regs[PC])),
        Decoded::EntersCall(call) => Ok(Outcome::Calls(call, moved_on(regs))),
        Decoded::Leaves => Ok(trapped_after(exec_hit, None, *regs)),
        Decoded::Loads { load, at } => Ok(load_effect(space, areas, exec_hit, regs, load, at)),
        Decoded::Stores { stack, regs, store } => {
            store_effect(space, areas, exec_hit, stack, regs, store)
        }
    }
}

/// What an instruction came to that left the registers as they are now, after which a hit of the execution traps.
fn left(exec_hit: Option<u64>, regs: &[u64; 11]) -> Option<Outcome>
    ensures outcome { came_to result regs.now ≡ outcome_of (trapped_after exec_hit None regs.now None) }
    ensures fault { tells_fault result ≡ false }
{
    match exec_hit {
        None => None,
        Some(at) => Some(Outcome::RunsIntoWatch(at, *regs)),
    }
}

/// What 16 bytes do: those that spell no instruction incur FLTILL. `None`: the instruction ran, and left the registers
/// as they are now.
#[tactic(auto, using(crate::proofs::ExecutionLemmas::in_place))]
fn of_instruction(
    space: &mut Space,
    areas: &Areas,
    exec_hit: Option<u64>,
    regs: &mut [u64; 11],
    instruction: Option<Instruction>,
) -> Result<Option<Outcome>, NoMemory>
    ensures outcome { IfOk result (λ ran. came_to ran regs.new
        ≡ outcome_of (of_instruction space.old areas.now exec_hit regs.old instruction)) }
    ensures regs { IfOk result (λ ran. tells_fault ran ≡ true → regs.new ≡ regs.old) }
    ensures space { OnOk result (space.new
        ≡ space_after (of_instruction space.old areas.now exec_hit regs.old instruction) space.old) }
    ensures memory { OnErr result
        (stores_bytes (of_instruction space.old areas.now exec_hit regs.old instruction) ≡ true) }
    ensures kept { OnErr result (regs.new ≡ regs.old) }
    ensures err { OnErr result (space.new ≡ space.old) }
{
    match instruction {
        None => Ok(Some(Outcome::Faults(Flt::Ill, regs[PC]))),
        Some(instruction) => {
            let decoded = decode(instruction, regs);
            if leaves_registers(decoded) {
                return Ok(left(exec_hit, regs));
            }
            let outcome = executed(space, areas, exec_hit, regs, decoded)?;
            Ok(Some(outcome))
        }
    }
}

/// The first byte of an instruction that is watched for execution, and whether its area traps after the access. Most
/// processes watch nothing, and then no byte is looked for.
#[tactic(auto, using(crate::proofs::ExecutionLemmas::no_hits))]
fn exec_hit(areas: &Areas, at: u64) -> Option<(u64, bool)>
    ensures { result ≡ hit_in watch_exec areas.now at 16 }
{
    if areas.is_empty() {
        return None;
    }
    areas.hit(at, Instruction::SIZE as u64, WATCH_EXEC)
}

/// What bytes that were fetched do, unless an area watched for execution forbids it.
fn unless_watched(
    space: &mut Space,
    areas: &Areas,
    regs: &mut [u64; 11],
    bytes: &[u8; 16],
) -> Result<Option<Outcome>, NoMemory>
    ensures outcome { IfOk result (λ ran. came_to ran regs.new ≡ outcome_of (unless_exec_watched space.old areas.now
        (hit_in watch_exec areas.now (pc_of regs.old) 16) regs.old bytes.now)) }
    ensures regs { IfOk result (λ ran. tells_fault ran ≡ true → regs.new ≡ regs.old) }
    ensures space { OnOk result (space.new ≡ space_after (unless_exec_watched space.old areas.now
        (hit_in watch_exec areas.now (pc_of regs.old) 16) regs.old bytes.now) space.old) }
    ensures memory { OnErr result (stores_bytes (unless_exec_watched space.old areas.now
        (hit_in watch_exec areas.now (pc_of regs.old) 16) regs.old bytes.now) ≡ true) }
    ensures kept { OnErr result (regs.new ≡ regs.old) }
    ensures err { OnErr result (space.new ≡ space.old) }
{
    let hit = exec_hit(areas, regs[PC]);
    match hit_before(hit) {
        Some(at) => Ok(Some(Outcome::Faults(Flt::Watch, at))),
        None => {
            let instruction = Instruction::decode(bytes);
            of_instruction(space, areas, hit_after(hit), regs, instruction)
        }
    }
}

/// What the instruction at pc does. `None`: it ran, and left the registers as they are now; after a fault they are as
/// they were. Memory runs out only for what it stores; nothing is changed then.
#[tactic(auto, unfolding(pr_model::specs::InstructionEffects::instruction_effect))]
pub fn execute(
    regs: &mut [u64; 11],
    space: &mut Space,
    areas: &Areas,
) -> Result<Option<Outcome>, NoMemory>
    ensures outcome { IfOk result (λ ran. came_to ran regs.new
        ≡ outcome_of (instruction_effect space.old areas.now regs.old)) }
    ensures regs { IfOk result (λ ran. tells_fault ran ≡ true → regs.new ≡ regs.old) }
    ensures space { OnOk result (space.new ≡ space_after (instruction_effect space.old areas.now regs.old) space.old) }
    ensures memory { OnErr result (stores_bytes (instruction_effect space.old areas.now regs.old) ≡ true) }
    ensures kept { OnErr result (regs.new ≡ regs.old) }
    ensures err { OnErr result (space.new ≡ space.old) }
{
    match fetch(space, regs[PC]) {
        Err(bad) => Ok(Some(access_fault(false, bad))),
        Ok(bytes) => unless_watched(space, areas, regs, &bytes),
    }
}
