//! The file of an image, and that of what runs: an image or a HEX text.
ghost use Rattle.std.specs.Prelude.{◌≡◌, ℕ, true, slice_get, Some, IfOk, IfErr, List};
ghost use Rattle.cw_io.specs.File.{Told, AllStay};
ghost use Rattle.cw_image.specs.ImageFormat.{IsImage};
ghost use Rattle.cw_i86.specs.MachineRun.{IsStart};
ghost use Rattle.cw_files.specs.Texts.{HasImage, HasRunnable, begins_hex};
ghost use Rattle.cw_files.specs.Reading.{Counts, counts_at, StopsImages, AnswersImage, StopsRunnables, AnswersRunnable};

use crate::bytes::{OBJECT_LIMIT, read_bytes};
use cw_cpu86::Cpu;
use cw_hex::{HexFault, load_hex};
use cw_image::laws::image_format;
use cw_image::{Image, ImageFault, load, read_image};
use cw_io::Store;
use cw_say::{Bad, Status};
use cw_word::{List, Name};
use std::alloc::Global;

/// What a file of `exec` tells to run: the processor as it begins, and the names of the segments, none for a HEX text.
#[derive(Drop)]
pub struct Runnable {
    pub cpu: Cpu,
    pub names: List<Name>,
}

// The image that the bytes of the first file are.
fn image_of(alloc: Global, bytes: &[u8]) -> Result<Image, Status>
    ensures image { IfOk result (λ image. HasImage bytes.now image) }
    ensures format { IfOk result IsImage }
    ensures stops { (told : List Told) (texts : List (List ℕ)) (before after : Counts)
        → slice_get texts 0 ≡ Some bytes.now → IfErr result (λ status. StopsImages told texts 0 before after status) }
{
    image_format();
    match read_image(alloc, bytes) {
        Ok(image) => Ok(image),
        Err(ImageFault::NoMemory) => Err(Status::NoMemory),
        Err(fault) => Err(Status::BadFile {
            file: 0,
            fault: Bad::Image(fault),
        }),
    }
}

/// Reads an image, the first file of the call; or the status where it is not read or is no image.
pub fn read_image_file<F: Store>(alloc: Global, files: &mut F, name: &str) -> Result<Image, Status>
    ensures taken { AnswersImage (F.file files.old name.now) (counts_at (F.faults files.old) (F.absences files.old))
        (counts_at (F.faults files.new) (F.absences files.new)) result }
    ensures format { IfOk result IsImage }
    ensures stay { AllStay (F.file files.old) (F.file files.new) }
{
    match read_bytes(alloc, files, name, 0, OBJECT_LIMIT) {
        Ok(bytes) => image_of(alloc, bytes.as_slice()),
        Err(status) => Err(status),
    }
}

// The processor loaded with an image.
fn loaded(alloc: Global, image: Image) -> Result<Runnable, Status>
    requires { IsImage image }
    ensures started { IfOk result (λ runnable. IsStart image.code image.words runnable.cpu × (runnable.names ≡ image.names)) }
    ensures memory { IfErr result (λ status. status ≡ Status.NoMemory) }
{
    match load(alloc, &image) {
        Ok(cpu) => Ok(Runnable {
            cpu,
            names: image.names,
        }),
        Err(_) => Err(Status::NoMemory),
    }
}

// Whether the bytes are taken for a HEX text.
fn begins_hex(bytes: &[u8]) -> bool
    ensures { result ≡ begins_hex bytes.now }
{
    bytes.starts_with(b":")
}

// What the bytes of the first file tell as a HEX text.
fn hex_of(alloc: Global, bytes: &[u8]) -> Result<Runnable, Status>
    requires { begins_hex bytes.now ≡ true }
    ensures runnable { IfOk result (λ runnable. HasRunnable bytes.now runnable) }
    ensures stops { (told : List Told) (texts : List (List ℕ)) (before after : Counts)
        → slice_get texts 0 ≡ Some bytes.now → IfErr result
        (λ status. StopsRunnables told texts 0 before after status) }
{
    match load_hex(alloc, bytes) {
        Ok(cpu) => Ok(Runnable {
            cpu,
            names: cw_word::List::new(alloc),
        }),
        Err(HexFault::NoMemory) => Err(Status::NoMemory),
        Err(fault) => Err(Status::BadFile {
            file: 0,
            fault: Bad::Hex(fault),
        }),
    }
}

// What the bytes of the first file tell.
fn runnable_of(alloc: Global, bytes: &[u8]) -> Result<Runnable, Status>
    ensures runnable { IfOk result (λ runnable. HasRunnable bytes.now runnable) }
    ensures stops { (told : List Told) (texts : List (List ℕ)) (before after : Counts)
        → slice_get texts 0 ≡ Some bytes.now → IfErr result
        (λ status. StopsRunnables told texts 0 before after status) }
{
    if begins_hex(bytes) {
        return hex_of(alloc, bytes);
    }
    match image_of(alloc, bytes) {
        Ok(image) => loaded(alloc, image),
        Err(status) => Err(status),
    }
}

/// Reads what runs, the first file of the call, an image or a HEX text, and loads it; or the status where it is not read, or is neither.
pub fn read_runnable<F: Store>(alloc: Global, files: &mut F, name: &str) -> Result<Runnable, Status>
    ensures taken { AnswersRunnable (F.file files.old name.now)
        (counts_at (F.faults files.old) (F.absences files.old))
        (counts_at (F.faults files.new) (F.absences files.new)) result }
    ensures stay { AllStay (F.file files.old) (F.file files.new) }
{
    match read_bytes(alloc, files, name, 0, OBJECT_LIMIT) {
        Ok(bytes) => runnable_of(alloc, bytes.as_slice()),
        Err(status) => Err(status),
    }
}
