//! Open handles, and the files for which they stand.
ghost use Rattle.std.specs.Prelude.{◌≡◌};
ghost use Rattle.pr_model.specs.Handles.{handle_of, is_control, is_of_lwp};

use pr_model::{File, Held};
use pr_open::Opens;

/// Whether a file takes control messages.
pub fn is_control(file: File) -> bool
    ensures { result ≡ is_control file }
{
    match file {
        File::Ctl | File::Lwpctl => true,
        _ => false,
    }
}

/// Whether a file belongs to one lwp.
pub fn is_of_lwp(file: File) -> bool
    ensures { result ≡ is_of_lwp file }
{
    match file {
        File::Lwpctl | File::Lwpstatus => true,
        _ => false,
    }
}

/// The handle of a number, if this controller has it open.
pub fn own(opens: &Opens, by: u32, number: u32) -> Option<Held>
    ensures { result ≡ handle_of opens.now by number }
{
    match opens.get(by, number) {
        Ok(held) => Some(*held),
        Err(_) => None,
    }
}
