//! Records of a core, each with the place at which it begins.
ghost use Rattle.std.specs.Prelude.{◌≡◌, ◌+◌, ◌*◌, ◌≤◌, ◌<◌, ◌^◌, length, map, Ok, Err, IfOk, IfErr};
ghost use Rattle.std.specs.List.{All};
ghost use Rattle.pr_core.specs.CoreReading.{fault_at, record_at, records_at, IfField, IsFaultOf};

use crate::CoreFault;
use crate::entries::Entry;
use pr_num::{NoMemory, Table};
use pr_rec::RecFault;
use std::alloc::Global;

/// The fault of a record that begins at a place.
fn fault_at(at: usize, fault: RecFault) -> CoreFault
    requires { IfField fault (λ field. at + field < 2 ^ 64) }
    ensures { result ≡ fault_at at fault }
{
    match fault {
        RecFault::Short => CoreFault::Short { at },
        RecFault::BadField { at: field } => CoreFault::Bad { at: at + field },
    }
}

/// The record that begins at a place.
#[tactic(auto, unfolding(crate::specs::CoreReading::record_at))]
pub(crate) fn record_at<R: Entry>(bytes: &[u8], at: usize) -> Result<R, CoreFault>
    requires { at ≤ length bytes.now }
    ensures ok { IfOk result (λ r. record_at R.ranges bytes.now at ≡ Ok (R.words r)) }
    ensures err { IfErr result (λ fault. record_at R.ranges bytes.now at ≡ Err fault) }
    ensures ranged { IfOk result R.is_ranged }
{
    match R::read(&bytes[at..]) {
        Ok(record) => Ok(record),
        Err(fault) => Err(fault_at(at, fault)),
    }
}

/// So many records one after the other, from a place on. All their bytes are there.
pub(crate) fn records_at<R: Entry + Drop>(
    alloc: Global,
    bytes: &[u8],
    count: usize,
    at: usize,
) -> Result<Vec<R>, CoreFault>
    requires { at + 8 * length R.ranges * count ≤ length bytes.now }
    ensures ok { IfOk result (λ records. records_at R.ranges count bytes.now at ≡ Ok (map R.words records.items)) }
    ensures err { IfErr result (IsFaultOf (records_at R.ranges count bytes.now at)) }
    ensures ranged { IfOk result (λ records. All R.is_ranged records.items) }
{
    let mut records = Table::new(alloc);
    for place in 0..count {
        records.push(record_at::<R>(bytes, at + R::size() * place)?)?;
    }
    Ok(records.into_vec())
}
