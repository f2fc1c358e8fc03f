//! The actions that write a file beside the one that they read: `compile`, `migrate` and `hex`.
ghost use Rattle.std.specs.Prelude.{◌≤◌, ◌++◌, ℕ, List as Sequence, Option, length, map, codes};
ghost use Rattle.cw_view.specs.ObjectFormat.{IsObject};
ghost use Rattle.cw_image.specs.ImageFormat.{IsImage};
ghost use Rattle.cw_hex.specs.HexText.{hex_text};
ghost use Rattle.cw_place.specs.Placement.{IsLimits};
ghost use Rattle.cw_words.specs.declared.action.Action.TheVariants.{Compile, Migrate, Hex};
ghost use Rattle.cw_correct.specs.Calls.{surroundings_of, call_as};
ghost use Rattle.cw_correct.specs.Results.{CompilesRight, MigratesRight, HexesRight};
ghost use Rattle.cw_actions.specs.Resulting.Outside.{files_at};
ghost use Rattle.cw_actions.specs.Resulting.Written.{GivesFile};
ghost use Rattle.cw_actions.specs.Resulting.Results.{MigratesObject};

use crate::go::close;
use crate::results::first::{first_name, first_object};
use crate::results::saving::save_beside;
use crate::texts::known_texts;
use cw_files::{read_image_file, read_objects};
use cw_hex::write_hex;
use cw_image::Image;
use cw_io::{Sink, Store};
use cw_obj::{MigrateFault, migrate as migrated};
use cw_say::Status;
use cw_texts::read_units;
use cw_unit::layout::Limits;
use std::alloc::Global;

/// Compiles the file and writes its object to the file of its name with `.SEG` added.
pub fn compile<F: Store, S: Sink>(
    alloc: Global,
    names: &[&str],
    limits: &Limits,
    steps: u64,
    files: &mut F,
    say: &mut S,
) -> Status
    requires few { length names.now ≤ 1 }
    requires some { 1 ≤ length names.now }
    requires limits { IsLimits limits.now }
    ensures { (left : Option (Sequence ℕ)) (input_faults : ℕ) (held : Option (Sequence ℕ)) (out_faults : ℕ)
        → CompilesRight (call_as Compile limits.now steps (map (λ name. name.now) names.now)
        (surroundings_of (F.file files.old) (F.faults files.old) (F.absences files.old) left input_faults held
        out_faults (S.held say.old) (S.faults say.old))
        (surroundings_of (F.file files.new) (F.faults files.new) (F.absences files.new) left input_faults held
        out_faults (S.held say.new) (S.faults say.new))) result }
{
    known_texts();
    match read_units(alloc, files, names) {
        Ok(segments) => {
            let object = first_object(segments.objects.as_slice());
            let status = save_beside(alloc, files, first_name(names), ".SEG", object);
            close(say, names, &[], status)
        }
        Err(status) => close(say, names, &[], status),
    }
}

// Writes an object in version 2 beside the file of this name.
#[tactic(auto, using(cw_view::proofs::NoFault::not_both))]
fn migrate_object<F: Store>(alloc: Global, files: &mut F, name: &str, object: &[u8]) -> Status
    requires { IsObject object.now }
    ensures { MigratesObject name.now object.now
        (files_at (F.file files.old) (F.faults files.old) (F.absences files.old))
        (files_at (F.file files.new) (F.faults files.new) (F.absences files.new)) result }
{
    match migrated(alloc, object) {
        Ok(bytes) => save_beside(alloc, files, name, ".SG2", bytes.as_slice()),
        Err(MigrateFault::Object(_)) => unreachable!(),
        Err(MigrateFault::NoMemory) => Status::NoMemory,
    }
}

/// Reads the object and writes it in version 2 to the file of its name with `.SG2` added.
pub fn migrate<F: Store, S: Sink>(
    alloc: Global,
    names: &[&str],
    limits: &Limits,
    steps: u64,
    files: &mut F,
    say: &mut S,
) -> Status
    requires few { length names.now ≤ 1 }
    requires some { 1 ≤ length names.now }
    requires limits { IsLimits limits.now }
    ensures { (left : Option (Sequence ℕ)) (input_faults : ℕ) (held : Option (Sequence ℕ)) (out_faults : ℕ)
        → MigratesRight (call_as Migrate limits.now steps (map (λ name. name.now) names.now)
        (surroundings_of (F.file files.old) (F.faults files.old) (F.absences files.old) left input_faults held
        out_faults (S.held say.old) (S.faults say.old))
        (surroundings_of (F.file files.new) (F.faults files.new) (F.absences files.new) left input_faults held
        out_faults (S.held say.new) (S.faults say.new))) result }
{
    match read_objects(alloc, files, names) {
        Ok(objects) => {
            let object = first_object(objects.as_slice());
            let status = migrate_object(alloc, files, first_name(names), object);
            close(say, names, &[], status)
        }
        Err(status) => close(say, names, &[], status),
    }
}

// Writes the HEX text of an image beside the file of this name.
fn hex_image<F: Store>(alloc: Global, files: &mut F, name: &str, image: &Image) -> Status
    requires { IsImage image.now }
    ensures { GivesFile (name.now ++ codes ".HEX") (hex_text image.now.code image.now.words)
        (files_at (F.file files.old) (F.faults files.old) (F.absences files.old))
        (files_at (F.file files.new) (F.faults files.new) (F.absences files.new)) result }
{
    match write_hex(alloc, image) {
        Ok(text) => save_beside(alloc, files, name, ".HEX", text.as_slice()),
        Err(_) => Status::NoMemory,
    }
}

/// Reads the image and writes its HEX text to the file of its name with `.HEX` added.
pub fn hex<F: Store, S: Sink>(
    alloc: Global,
    names: &[&str],
    limits: &Limits,
    steps: u64,
    files: &mut F,
    say: &mut S,
) -> Status
    requires few { length names.now ≤ 1 }
    requires some { 1 ≤ length names.now }
    requires limits { IsLimits limits.now }
    ensures { (left : Option (Sequence ℕ)) (input_faults : ℕ) (held : Option (Sequence ℕ)) (out_faults : ℕ)
        → HexesRight (call_as Hex limits.now steps (map (λ name. name.now) names.now)
        (surroundings_of (F.file files.old) (F.faults files.old) (F.absences files.old) left input_faults held
        out_faults (S.held say.old) (S.faults say.old))
        (surroundings_of (F.file files.new) (F.faults files.new) (F.absences files.new) left input_faults held
        out_faults (S.held say.new) (S.faults say.new))) result }
{
    let name = first_name(names);
    match read_image_file(alloc, files, name) {
        Ok(image) => close(say, names, &[], hex_image(alloc, files, name, &image)),
        Err(status) => close(say, names, &[], status),
    }
}
