//! The names of files and of the ways to open them.
ghost use Rattle.std.specs.Prelude.{◌≡◌};
ghost use Rattle.pr_model.specs.FileNames.{file_name, file_of_name, is_file_named, is_mode_named, mode_name, mode_of_name};

use crate::{File, Mode};

/// Every file.
const FILES: [File; 12] = [
    File::Ctl,
    File::Status,
    File::Lstatus,
    File::Psinfo,
    File::Map,
    File::Usage,
    File::Mem,
    File::Sigact,
    File::Watch,
    File::Fds,
    File::Lwpctl,
    File::Lwpstatus,
];

/// Every way to open a file.
const MODES: [Mode; 3] = [Mode::Read, Mode::Write, Mode::WriteExcl];

/// The name of a file of the process file system, as `"lstatus"` (proc(4)).
#[tactic(auto, unfolding(crate::specs::FileNames::file_name))]
pub fn file_name(file: File) -> &'static str
    ensures { result.now ≡ file_name file }
{
    match file {
        File::Ctl => "ctl",
        File::Status => "status",
        File::Lstatus => "lstatus",
        File::Psinfo => "psinfo",
        File::Map => "map",
        File::Usage => "usage",
        File::Mem => "as",
        File::Sigact => "sigact",
        File::Watch => "watch",
        File::Fds => "fds",
        File::Lwpctl => "lwpctl",
        File::Lwpstatus => "lwpstatus",
    }
}

fn is_file_named(name: &[u8], file: File) -> bool
    ensures { result ≡ is_file_named name.now file }
{
    name == file_name(file).as_bytes()
}

/// The file of a name, as `b"lstatus"`; `None` exactly where no file has that name.
#[tactic(auto, unfolding(crate::specs::FileNames::file_of_name))]
pub fn file_of_name(name: &[u8]) -> Option<File>
    ensures { result ≡ file_of_name name.now }
{
    FILES
        .iter()
        .copied()
        .find(|file| is_file_named(name, *file))
}

/// How a file is opened: `"r"` for reading, `"w"` for writing, `"wx"` for writing while nobody else writes.
#[tactic(auto, unfolding(crate::specs::FileNames::mode_name))]
pub fn mode_name(mode: Mode) -> &'static str
    ensures { result.now ≡ mode_name mode }
{
    match mode {
        Mode::Read => "r",
        Mode::Write => "w",
        Mode::WriteExcl => "wx",
    }
}

fn is_mode_named(name: &[u8], mode: Mode) -> bool
    ensures { result ≡ is_mode_named name.now mode }
{
    name == mode_name(mode).as_bytes()
}

/// The way to open a file of a name, as `b"wx"`; `None` exactly where none has that name.
#[tactic(auto, unfolding(crate::specs::FileNames::mode_of_name))]
pub fn mode_of_name(name: &[u8]) -> Option<Mode>
    ensures { result ≡ mode_of_name name.now }
{
    MODES
        .iter()
        .copied()
        .find(|mode| is_mode_named(name, *mode))
}
