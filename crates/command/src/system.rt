// Files by the bytes of their names. The system's library takes names that are text in UTF-8: another name is refused, with the reason that file
// systems give which take no other.
ghost use Rattle.std.specs.Prelude.{◌≡◌, ◌≤◌, ◌⊎◌, length, IfOk, OnErr, IsUtf8};

use std::fs::{File, OpenOptions};
use std::{fs, io, str};

// Why a name cannot be that of a file: it is longer than any path, or no text. These are ENAMETOOLONG and EILSEQ.
const TOO_LONG: i32 = 36;

const NO_TEXT: i32 = 84;

// The bytes that C takes of a path, with the 0 that ends it (PATH_MAX).
const PATH_MAX: usize = 4096;

// Opens the file of that name for reading.
pub fn open(rt: &HostRuntime, name: &[u8]) -> io::Result<File> {
    File::open(rt, path_of(name)?)
}

// Opens a new file of that name for writing; there must be none.
pub fn create(rt: &HostRuntime, name: &[u8]) -> io::Result<File> {
    let path = path_of(name)?;
    OpenOptions::new()
        .write(true)
        .create_new(true)
        .open(rt, path)
}

// Gives the file another name.
pub fn rename(rt: &HostRuntime, old: &[u8], new: &[u8]) -> io::Result<()> {
    let old = path_of(old)?;
    let new = path_of(new)?;
    fs::rename(rt, old, new)
}

// Removes the file of that name.
pub fn remove(rt: &HostRuntime, name: &[u8]) -> io::Result<()> {
    fs::remove_file(rt, path_of(name)?)
}

// The name as a path, of the same bytes.
fn path_of(name: &[u8]) -> io::Result<&str>
    ensures bytes { IfOk result (λ path. path.now ≡ name.now) }
    ensures refused { OnErr result ((4096 ≤ length name.now) ⊎ (¬ IsUtf8 name.now)) }
{
    if name.len() >= PATH_MAX {
        return Err(io::Error::from_raw_os_error(TOO_LONG));
    }
    match str::from_utf8(name) {
        Ok(path) => Ok(path),
        Err(_) => Err(io::Error::from_raw_os_error(NO_TEXT)),
    }
}
