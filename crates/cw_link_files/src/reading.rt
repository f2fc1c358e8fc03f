//! Files that are objects or libraries of them.
ghost use Rattle.std.specs.Prelude.{◌≡◌, ◌≤◌, ◌++◌, ℕ, true, false, length, map, slice_get, Some, IfOk, IfErr, OnOk, List as Sequence};
ghost use Rattle.cw_io.specs.File.{Told, AllStay};
ghost use Rattle.cw_lib.specs.Reading.{members_of};
ghost use Rattle.cw_files.specs.Texts.{object_limit};
ghost use Rattle.cw_files.specs.Reading.{Counts, counts_at};
ghost use Rattle.cw_files.specs.Taking.{Takes};
ghost use Rattle.cw_link_files.specs.Parts.{Part, HasPart, begins_library};
ghost use Rattle.cw_link_files.specs.Taken.{StopsParts, AreFilesOf, AnswersPart, TookFile, AnswersParts};

use crate::listing::copied;
use cw_files::{Bad, Status, read_bytes};
use cw_io::Store;
use cw_lib::{Lib, open_lib};
use cw_view::View;
use cw_word::{List, NoMemory};
use std::alloc::Global;

/// The most bytes of a file.
const LIMIT: usize = 16_777_216;

/// What files come to: the objects that are given, and the members of the libraries, each in order.
#[derive(Drop)]
pub struct LinkFiles {
    pub objects: List<List<u8>>,
    pub members: List<List<u8>>,
}

// Whether the bytes are taken for a library.
fn begins_library(bytes: &[u8]) -> bool
    ensures { result ≡ begins_library bytes.now }
{
    bytes.starts_with(b"C66L")
}

// Adds the members of a library behind the others.
fn add_members(alloc: Global, members: &mut List<List<u8>>, lib: &Lib) -> Result<(), NoMemory>
    requires { lib.now.count ≡ length (members_of lib.now) }
    ensures { OnOk result (members.new ≡ members.old ++ members_of lib.now) }
{
    for k in 0..lib.count() {
        if let Some(member) = lib.member(k) {
            members.push(copied(alloc, member)?)?;
        }
    }
    Ok(())
}

// Takes the bytes of the file with this number as a library.
fn take_library(
    alloc: Global,
    taken: &mut LinkFiles,
    bytes: &[u8],
    number: u16,
) -> Result<(), Status>
    requires { begins_library bytes.now ≡ true }
    ensures took { OnOk result (TookFile bytes.now taken.old taken.new) }
    ensures stops { (told : Sequence Told) (texts : Sequence (Sequence ℕ)) (before after : Counts)
        → slice_get texts number ≡ Some bytes.now
        → IfErr result (λ status. StopsParts told texts number before after status) }
{
    match open_lib(bytes) {
        Ok(lib) => match add_members(alloc, &mut taken.members, &lib) {
            Ok(()) => Ok(()),
            Err(_) => Err(Status::NoMemory),
        },
        Err(fault) => Err(Status::BadFile {
            file: number,
            fault: Bad::Library(fault),
        }),
    }
}

// Whether the bytes of the file with this number are an object.
fn check_object(bytes: &[u8], number: u16) -> Result<(), Status>
    requires { begins_library bytes.now ≡ false }
    ensures is_object { OnOk result ((object : Sequence ℕ) → object ≡ bytes.now → HasPart bytes.now (Part.Given object)) }
    ensures stops { (told : Sequence Told) (texts : Sequence (Sequence ℕ)) (before after : Counts)
        → slice_get texts number ≡ Some bytes.now
        → IfErr result (λ status. StopsParts told texts number before after status) }
{
    match View::open(bytes) {
        Ok(_) => Ok(()),
        Err(fault) => Err(Status::BadFile {
            file: number,
            fault: Bad::Object(fault),
        }),
    }
}

// The same as an object.
fn take_object(taken: &mut LinkFiles, bytes: Vec<u8>, number: u16) -> Result<(), Status>
    requires { begins_library bytes.items ≡ false }
    ensures took { OnOk result (TookFile bytes.items taken.old taken.new) }
    ensures stops { (told : Sequence Told) (texts : Sequence (Sequence ℕ)) (before after : Counts)
        → slice_get texts number ≡ Some bytes.items
        → IfErr result (λ status. StopsParts told texts number before after status) }
{
    match check_object(bytes.as_slice(), number) {
        Ok(()) => match taken.objects.push(List::of(bytes)) {
            Ok(()) => Ok(()),
            Err(_) => Err(Status::NoMemory),
        },
        Err(status) => Err(status),
    }
}

// The same as what they are taken for.
fn take_file(
    alloc: Global,
    taken: &mut LinkFiles,
    bytes: Vec<u8>,
    number: u16,
) -> Result<(), Status>
    ensures took { OnOk result (TookFile bytes.items taken.old taken.new) }
    ensures stops { (told : Sequence Told) (texts : Sequence (Sequence ℕ)) (before after : Counts)
        → slice_get texts number ≡ Some bytes.items
        → IfErr result (λ status. StopsParts told texts number before after status) }
{
    if begins_library(bytes.as_slice()) {
        take_library(alloc, taken, bytes.as_slice(), number)
    } else {
        take_object(taken, bytes, number)
    }
}

// Reads the file with this number behind those that were taken.
fn read_link_file<F: Store>(
    alloc: Global,
    files: &mut F,
    name: &str,
    number: u16,
    taken: &mut LinkFiles,
) -> Result<(), Status>
    ensures taken { (told : Sequence Told) (parts : Sequence Part) → Takes object_limit HasPart told parts
        → AreFilesOf parts taken.old → length parts ≡ number
        → slice_get told number ≡ Some (F.file files.old name.now)
        → AnswersPart told parts (counts_at (F.faults files.old) (F.absences files.old))
        (counts_at (F.faults files.new) (F.absences files.new)) taken.new result }
    ensures stay { AllStay (F.file files.old) (F.file files.new) }
{
    match read_bytes(alloc, files, name, number, LIMIT) {
        Ok(bytes) => take_file(alloc, taken, bytes, number),
        Err(status) => Err(status),
    }
}

/// Reads files in order, 200 at most, and opens each as what it is taken for; or the status of the first that is not read or is
/// neither an object nor a library.
pub fn read_link_files<F: Store>(
    alloc: Global,
    files: &mut F,
    names: &[&str],
) -> Result<LinkFiles, Status>
    requires { length names.now ≤ 200 }
    ensures taken { AnswersParts (map (λ name. F.file files.old name.now) names.now)
        (counts_at (F.faults files.old) (F.absences files.old))
        (counts_at (F.faults files.new) (F.absences files.new)) result }
    ensures stay { AllStay (F.file files.old) (F.file files.new) }
{
    let mut taken = LinkFiles {
        objects: List::new(alloc),
        members: List::new(alloc),
    };
    let mut number: u16 = 0;
    for name in names {
        read_link_file(alloc, files, name, number, &mut taken)?;
        number += 1;
    }
    Ok(taken)
}
