//! How a result comes under its name. It is written beside its place, and renamed once it is whole; so the name has the old file or the new one at
//! each moment, also where the program is killed.
ghost use Rattle.std.specs.Prelude.{◌↔◌, IsOk};

use std::fs::{File, Metadata, OpenOptions, Permissions};
use std::io::{ErrorKind, Write};
use std::os::unix::fs::{MetadataExt, OpenOptionsExt, PermissionsExt, fchown};
use std::path::{Path, PathBuf};
use std::{fs, io};

// How many links are followed one after the other, as the system does.
const LINKS: u8 = 40;

// How many names are tried for a file that is begun. A killed program leaves its own behind.
const TRIES: u32 = 100_000;

// The leave of a file that no file stood for, and of one that is written in place of another, until it has that one's.
const COMMON: u32 = 0o666;

const OWN: u32 = 0o600;

/// Makes these bytes the whole file of a name. After an error the file is as it was, or there is none where none was. A link stays, and what it
/// points at is replaced, with its leave. What is no common file, as a device or a pipe, is written as it is.
pub fn write_file(rt: &HostRuntime, name: &str, bytes: &[u8]) -> io::Result<()> {
    let place = place_of(rt, name)?;
    match (
        fs::metadata(rt, name),
        fs::symlink_metadata(rt, place.as_path()),
    ) {
        (Ok(seen), Ok(old)) if old.is_file() && is_same(&seen, &old) => {
            ask_leave(rt, place.as_path())?;
            put_beside(rt, place.as_path(), bytes, Some(&old))
        }
        (Err(seen), Err(old)) if is_absent(&seen) && is_absent(&old) => {
            put_beside(rt, place.as_path(), bytes, None)
        }
        (Ok(_), _) => fs::write(rt, name, bytes),
        (Err(error), _) => Err(error),
    }
}

// Where the file of a name stands, or would: what the last of its links points at.
fn place_of(rt: &HostRuntime, name: &str) -> io::Result<PathBuf> {
    let mut place = PathBuf::from_str(rt.alloc(), name)?;
    for _ in 0..LINKS {
        match fs::symlink_metadata(rt, place.as_path()) {
            Ok(found) if found.file_type().is_symlink() => follow(rt, &mut place)?,
            _ => return Ok(place),
        }
    }
    Err(io::Error::from(ErrorKind::InvalidFilename))
}

// Goes from a link to what it points at, which counts from the link's folder.
fn follow(rt: &HostRuntime, place: &mut PathBuf) -> io::Result<()> {
    let target = fs::read_link(rt, place.as_path())?;
    place.pop();
    place.push(target.as_path())?;
    Ok(())
}

fn is_same(one: &Metadata, other: &Metadata) -> bool {
    one.dev() == other.dev() && one.ino() == other.ino()
}

fn is_absent(error: &io::Error) -> bool {
    error.kind() == ErrorKind::NotFound
}

// A file that may not be written is not replaced either, though its folder would allow it.
fn ask_leave(rt: &HostRuntime, place: Path<'_>) -> io::Result<()> {
    let _file = OpenOptions::new().write(true).open(rt, place)?;
    Ok(())
}

// Writes a file beside the place, and gives it that name once it is whole. What was begun is removed where that fails.
fn put_beside(
    rt: &HostRuntime,
    place: Path<'_>,
    bytes: &[u8],
    old: Option<&Metadata>,
) -> io::Result<()> {
    let (begun, file) = begin(rt, place, if old.is_some() { OWN } else { COMMON })?;
    let done = match fill(file, bytes, old) {
        Ok(()) => fs::rename(rt, begun.as_path(), place),
        Err(error) => Err(error),
    };
    if done.is_err() {
        let _ = fs::remove_file(rt, begun.as_path());
    }
    done
}

// A new file in the folder of the place. The system makes it only where no file has its name; so it is none that the program reads or has written.
fn begin(rt: &HostRuntime, place: Path<'_>, leave: u32) -> io::Result<(PathBuf, File)> {
    for number in 0..TRIES {
        let name = format!(in rt.alloc(); "coral66-{number}.tmp")?;
        let path = place.with_file_name(rt.alloc(), name.as_str())?;
        match make_new(rt, path.as_path(), leave) {
            Ok(file) => return Ok((path, file)),
            Err(error) if error.kind() == ErrorKind::AlreadyExists => {}
            Err(error) => return Err(error),
        }
    }
    Err(io::Error::from(ErrorKind::AlreadyExists))
}

fn make_new(rt: &HostRuntime, path: Path<'_>, leave: u32) -> io::Result<File> {
    OpenOptions::new()
        .write(true)
        .create_new(true)
        .mode(leave)
        .open(rt, path)
}

// Writes the whole file, gives it the leave of the old one, and closes it.
fn fill(file: File, bytes: &[u8], old: Option<&Metadata>) -> io::Result<()> {
    let mut file = file;
    let written = file.write_all(bytes);
    let kept = file.sync_all();
    let left = match old {
        Some(old) => give_leave(&file, old),
        None => Ok(()),
    };
    both(both(written, kept), left)
}

// The owner and the group are given where the system allows it.
fn give_leave(file: &File, old: &Metadata) -> io::Result<()> {
    let new = file.metadata()?;
    if new.gid() != old.gid() {
        let _ = fchown(file, None, Some(old.gid()));
    }
    if new.uid() != old.uid() {
        let _ = fchown(file, Some(old.uid()), None);
    }
    file.set_permissions(Permissions::from_mode(old.mode() & 0o777))
}

// Two steps, of which a file is whole only where both went well.
fn both(one: io::Result<()>, other: io::Result<()>) -> io::Result<()>
    ensures { IsOk result ↔ (IsOk one × IsOk other) }
{
    match one {
        Ok(()) => other,
        Err(error) => Err(error),
    }
}
