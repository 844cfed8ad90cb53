// What has a name in the file system.
#![tactic(auto)]

ghost use Rattle.std.specs.Prelude.{◌≡◌, ◌<◌, length};
ghost use Rattle.file_kinds.specs.Kind.{kind_of, told_mode};
ghost use Rattle.file_kinds.specs.Path.{padded, Ended};

use std::ffi::CStr;
use std::fs::Metadata;
use std::os::unix::fs::MetadataExt;
use std::rt::Files;
use std::{fs, io};

// Nothing, a regular file, a directory, a symbolic link, or something else: a device, a FIFO or a socket.
#[derive(Clone, Copy)]
pub enum FileKind {
    Nothing,
    Regular,
    Directory,
    Link,
    Other,
}

// The bytes that C takes of a path, with the 0 that ends it (PATH_MAX).
const PATH_MAX: usize = 4096;

// The file types of a mode: its four bits above the twelve of the permissions (S_IFMT).
const DIRECTORY: u32 = 0o040000 / 4096;

const REGULAR: u32 = 0o100000 / 4096;

const LINK: u32 = 0o120000 / 4096;

// What has that name; of a link, the link itself. Nothing also where the system does not tell, as of a name that is no text in UTF-8. A path holds no
// 0, as no argument of a program does.
pub fn kind_at(files: &impl Files, path: &[u8]) -> FileKind {
    if path.len() >= PATH_MAX {
        return FileKind::Nothing;
    }
    let path = ended(path);
    kind_of_mode(mode_at(files, &path))
}

// The kind of what has that mode; nothing has 0.
fn kind_of_mode(mode: u32) -> FileKind
    ensures { result ≡ kind_of mode }
{
    let file_type = mode / 4096 % 16;
    match file_type {
        0 => FileKind::Nothing,
        DIRECTORY => FileKind::Directory,
        REGULAR => FileKind::Regular,
        LINK => FileKind::Link,
        _ => FileKind::Other,
    }
}

// The mode of what has that name, or 0 where the system does not tell. No contract says what it tells: all that is decided is decided in `told_mode`.
fn mode_at(files: &impl Files, path: &[u8; PATH_MAX]) -> u32
    requires { Ended path.now }
{
    let path = CStr::from_bytes_until_nul(path).unwrap();
    let Ok(path) = path.to_str() else {
        return 0;
    };
    told_mode(fs::symlink_metadata(files, path))
}

// The mode that was told, or 0 where the call failed.
fn told_mode(told: io::Result<Metadata>) -> u32
    ensures { result ≡ told_mode told }
{
    match told {
        Ok(told) => told.mode(),
        Err(_) => 0,
    }
}

// The path as C reads it: its bytes, and then zeros.
fn ended(path: &[u8]) -> [u8; PATH_MAX]
    requires { length path.now < 4096 }
    ensures { result ≡ padded path.now }
{
    let mut ended = [0u8; PATH_MAX];
    ended[..path.len()].copy_from_slice(path);
    ended
}
