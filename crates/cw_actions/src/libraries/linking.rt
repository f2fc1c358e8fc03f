//! The action `link`.
ghost use Rattle.std.specs.Prelude.{◌≤◌, ◌<◌, ◌^◌, ℕ, List as Sequence, Option, length, map, All, codes};
ghost use Rattle.cw_view.specs.ObjectFormat.{IsObject};
ghost use Rattle.cw_place.specs.Placement.{IsLimits};
ghost use Rattle.cw_image.specs.ImageFormat.{image_bytes};
ghost use Rattle.cw_words.specs.declared.action.Action.TheVariants.{Link};
ghost use Rattle.cw_link_files.specs.Taken.{AreObjects};
ghost use Rattle.cw_correct.specs.Calls.{surroundings_of, call_as};
ghost use Rattle.cw_correct.specs.Results.{LinksRight};
ghost use Rattle.cw_actions.specs.Resulting.Outside.{files_at};
ghost use Rattle.cw_actions.specs.Resulting.Written.{GivesFile};
ghost use Rattle.cw_actions.specs.Archiving.Linking.{LinksObjects, LinksList, LinksTaken};

use crate::go::close;
use crate::results::{save, unlinked};
use cw_image::{Image, write_image};
use cw_io::{Sink, Store};
use cw_lib::laws::library_format;
use cw_link_files::laws::one_link_list;
use cw_link_files::{LinkFiles, link_list, read_link_files};
use cw_object::link_objects;
use cw_say::Status;
use cw_unit::layout::Limits;
use cw_word::List;
use std::alloc::Global;

/// The most objects that are linked.
const MOST: usize = 200;

// Writes an image to its file.
fn save_image<F: Store>(alloc: Global, image: &Image, files: &mut F) -> Status
    ensures { GivesFile (codes "A.IMG") (image_bytes image.now)
        (files_at (F.file files.old) (F.faults files.old) (F.absences files.old))
        (files_at (F.file files.new) (F.faults files.new) (F.absences files.new)) result }
{
    match write_image(alloc, image) {
        Ok(bytes) => save(files, "A.IMG", bytes.as_slice()),
        Err(_) => Status::NoMemory,
    }
}

// Links objects, and writes their image.
fn link_all<F: Store>(alloc: Global, objects: &[List<u8>], limits: &Limits, files: &mut F) -> Status
    requires few { length objects.now ≤ 200 }
    requires opened { All IsObject objects.now }
    requires limits { IsLimits limits.now }
    ensures { LinksObjects objects.now limits.now
        (files_at (F.file files.old) (F.faults files.old) (F.absences files.old))
        (files_at (F.file files.new) (F.faults files.new) (F.absences files.new)) result }
{
    match link_objects(alloc, objects, limits) {
        Ok(linked) => save_image(alloc, &linked.image, files),
        Err(fault) => unlinked(fault),
    }
}

// The same for a list of them that may be too long.
fn link_listed<F: Store>(alloc: Global, list: &[List<u8>], limits: &Limits, files: &mut F) -> Status
    requires told { length list.now < 2 ^ 32 }
    requires opened { All IsObject list.now }
    requires limits { IsLimits limits.now }
    ensures { LinksList list.now limits.now (files_at (F.file files.old) (F.faults files.old) (F.absences files.old))
        (files_at (F.file files.new) (F.faults files.new) (F.absences files.new)) result }
{
    if list.len() > MOST {
        return Status::TooMany {
            count: list.len() as u32,
        };
    }
    link_all(alloc, list, limits, files)
}

// The same for the list that files come to.
fn link_taken<F: Store>(alloc: Global, taken: LinkFiles, limits: &Limits, files: &mut F) -> Status
    requires taken { AreObjects taken }
    requires limits { IsLimits limits.now }
    ensures { LinksTaken taken.objects taken.members limits.now
        (files_at (F.file files.old) (F.faults files.old) (F.absences files.old))
        (files_at (F.file files.new) (F.faults files.new) (F.absences files.new)) result }
{
    match link_list(alloc, taken) {
        Ok(list) => link_listed(alloc, list.as_slice(), limits, files),
        Err(_) => Status::NoMemory,
    }
}

/// Reads files in order and opens each as an object, or as a library where it begins with the mark of one; links the list that they
/// come to, and writes the image to the file `A.IMG`.
pub fn link<F: Store, S: Sink>(
    alloc: Global,
    names: &[&str],
    limits: &Limits,
    steps: u64,
    files: &mut F,
    say: &mut S,
) -> Status
    requires few { length names.now ≤ 200 }
    requires some { 1 ≤ length names.now }
    requires limits { IsLimits limits.now }
    ensures { (left : Option (Sequence ℕ)) (input_faults : ℕ) (held : Option (Sequence ℕ)) (out_faults : ℕ)
        → LinksRight (call_as Link limits.now steps (map (λ name. name.now) names.now)
        (surroundings_of (F.file files.old) (F.faults files.old) (F.absences files.old) left input_faults held
        out_faults (S.held say.old) (S.faults say.old))
        (surroundings_of (F.file files.new) (F.faults files.new) (F.absences files.new) left input_faults held
        out_faults (S.held say.new) (S.faults say.new))) result }
{
    library_format();
    one_link_list();
    match read_link_files(alloc, files, names) {
        Ok(taken) => close(say, names, &[], link_taken(alloc, taken, limits, files)),
        Err(status) => close(say, names, &[], status),
    }
}
