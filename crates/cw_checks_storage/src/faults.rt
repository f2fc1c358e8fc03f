//! The first fault of placing, for families that no name shares, each at its limit and one past it.
ghost use Rattle.std.specs.Prelude.{◌≡◌, IfSome};
ghost use Rattle.std.specs.List.{list_all};
ghost use Rattle.cw_place.specs.Placement.{IsLimits};
ghost use Rattle.cw_checks_storage.specs.Plain.{is_plain, has_plain};

use cw_comm::{Face, agree};
use cw_place::laws::agreed_segments;
use cw_place::{PlaceFault, Space, place};
use cw_unit::layout::{Family, Limits, Sort};
use cw_word::{List, Name};
use std::alloc::{AllocError, Global};
use std::test::Fail;

// A row a line: the words of data and of frames, and the depth of calls; a bar before each segment; a question mark; and `ok` with the last end, or the
// fault. A segment is the words of its control stack record, and its families: `own:5` takes five words, `8:5` is absolute at 8, `frame:5` is of a frame; a
// star and a number say how many there are.
const ROWS: &str = "16384 4096 256|8?ok 0
16384 4096 256|8 12287:1 0:12288?ok 0
16384 4096 256|8 12288:1?outside 1 12288
16384 4096 256|8 0:12289?outside 1 0
16384 4096 256|8 12288:0?ok 0
16384 4096 256|8 12289:0?outside 1 12289
16384 4096 256|8 own:1|8 7:1 12287:2 12288:1|8 65535:1?outside 2 12287
16384 4096 256|8 65535:4294967295?outside 1 65535
16384 16384 256|8?ok 0
16384 16384 256|8 0:1?outside 1 0
16384 4096 256|8 own:12288?ok 12288
16384 4096 256|8 own:12289?data 16385
16384 4096 256|8 own:12287|8 own:1?ok 12288
16384 4096 256|8 own:12287|8 own:2?data 16385
16384 4096 256|8 own:12288 own:0 frame:32768?ok 12288
16384 4096 256|8 own:1*12288?ok 12288
16384 4096 256|8 own:1*12289?data 16385
16384 4096 256|8 5:1 own:12282?ok 12288
16384 4096 256|8 5:1 own:12283?data 16385
16384 4096 256|8 0:12288 own:1?data 16385
16384 4096 256|8 0:12288 own:0?ok 0
32768 0 1|8 own:32768?ok 32768
32768 0 1|8 own:32769?data 32769
1 0 1|8 own:1?ok 1
1 1 1|8 own:1?data 2
16384 4096 256|8 own:4294967295?data 4294971391
16384 4096 256|8 own:4294967295|8 own:4294967295?data 8589938686
16384 4096 256|8 own:4294967295*30000?data 128849018854096
16384 4096 498|64?ok 0
16384 4096 498|65?control 32499
16384 4096 108|292|293|1?control 32001
16384 4096 4096|7?ok 0
16384 4096 4096|8?control 32840
16384 4096 1|15968?ok 0
16384 4096 1|15969?control 32002
16384 4096 4096|65535?control 268496959
16384 4096 256|8 own:12289 12288:1?outside 1 12288
16384 4096 256|8 own:12289|8 12288:1?outside 2 12288
16384 4096 4096|8 own:12289?data 16385
16384 4096 4096|8 own:12288?control 32840
16384 4096 4096|8 own:12289 12288:1?outside 1 12288
16384 4096 4096|8 12288:1?outside 1 12288";

fn is_plain(sort: Sort) -> bool
    ensures { result ≡ is_plain sort }
{
    !matches!(sort, Sort::Common(_))
}

fn has_plain(families: &[Family]) -> bool
    ensures { result ≡ list_all (λ family. is_plain family.sort) families.now }
{
    for family in families {
        if !is_plain(family.sort) {
            return false;
        }
    }
    true
}

// Whether no family of these segments is shared.
fn have_plain(spaces: &[Space]) -> bool
    ensures { result ≡ list_all has_plain spaces.now }
{
    for space in spaces {
        if !has_plain(space.families.as_slice()) {
            return false;
        }
    }
    true
}

fn family_of(word: &str) -> Option<Family> {
    let (sort, extent) = word.split_once(':')?;
    let sort = match sort {
        "own" => Sort::Own,
        "frame" => Sort::Frame(0),
        address => Sort::Absolute(address.parse::<u16>().ok()?),
    };
    Some(Family {
        sort,
        extent: extent.parse::<u32>().ok()?,
    })
}

// So many families.
fn families_of(word: &str) -> Option<(Family, usize)> {
    match word.split_once('*') {
        Some((family, count)) => Some((family_of(family)?, count.parse::<usize>().ok()?)),
        None => Some((family_of(word)?, 1)),
    }
}

fn space_of(alloc: Global, segment: &str) -> Result<Option<Space>, AllocError> {
    let mut families = Vec::new(alloc);
    let mut words = segment.split(' ');
    let Some(need) = number(words.next()) else {
        return Ok(None);
    };
    for word in words {
        let Some((family, count)) = families_of(word) else {
            return Ok(None);
        };
        for _ in 0..count {
            families.push(family)?;
        }
    }
    Ok(Some(Space {
        families: List::of(families),
        need: (need % 65536) as u16,
    }))
}

fn spaces_of(alloc: Global, segments: &str) -> Result<Option<Vec<Space>>, AllocError> {
    let mut spaces = Vec::new(alloc);
    for segment in segments.split('|') {
        match space_of(alloc, segment)? {
            Some(space) => spaces.push(space)?,
            None => return Ok(None),
        }
    }
    Ok(Some(spaces))
}

// So many segments, A, B and so on, that list no name.
fn faces(alloc: Global, count: usize) -> Result<Vec<Face>, AllocError> {
    let mut faces = Vec::new(alloc);
    for number in 0..count {
        if let Some(name) = Name::new(&[b'A' + (number % 26) as u8]) {
            faces.push(Face {
                name,
                descs: List::new(alloc),
                defined: List::new(alloc),
            })?;
        }
    }
    Ok(faces)
}

// The last end of the map of these segments, or the fault; nothing where they are none to place.
fn end_of(
    alloc: Global,
    faces: &[Face],
    spaces: &[Space],
    limits: &Limits,
) -> Option<Result<u32, PlaceFault>>
    requires { IsLimits limits.now }
{
    agreed_segments();
    if spaces.len() > 200 || faces.len() != spaces.len() || !have_plain(spaces) {
        return None;
    }
    match agree(alloc, faces) {
        Ok(agreed) => match place(alloc, &agreed, spaces, limits) {
            Ok(map) => Some(Ok(map.end)),
            Err(fault) => Some(Err(fault)),
        },
        Err(_) => None,
    }
}

fn shown(alloc: Global, end: Option<Result<u32, PlaceFault>>) -> Result<String, AllocError> {
    match end {
        Some(Ok(end)) => format!(in alloc; "ok {end}"),
        Some(Err(PlaceFault::AbsoluteOutside { segment, address })) => {
            format!(in alloc; "outside {segment} {address}")
        }
        Some(Err(PlaceFault::DataTooBig { need })) => format!(in alloc; "data {need}"),
        Some(Err(PlaceFault::ControlTooBig { need })) => format!(in alloc; "control {need}"),
        Some(Err(PlaceFault::NoMemory)) => Err(AllocError),
        None => String::from_str(alloc, "none"),
    }
}

fn number(word: Option<&str>) -> Option<u32> {
    word?.parse::<u32>().ok()
}

fn limits_of(words: &str) -> Option<Limits>
    ensures { IfSome result (λ limits. IsLimits limits) }
{
    let mut words = words.split(' ');
    let area = number(words.next())?;
    let frames = number(words.next())?;
    let depth = number(words.next())?;
    if area > 32768 || frames > area {
        return None;
    }
    Some(Limits {
        area,
        frames,
        depth: (depth % 65536) as u16,
    })
}

fn answer_of(alloc: Global, limits: &str, segments: &str) -> Result<String, AllocError> {
    let Some(spaces) = spaces_of(alloc, segments)? else {
        return String::from_str(alloc, "no list");
    };
    let faces = faces(alloc, spaces.len())?;
    match limits_of(limits) {
        Some(limits) => shown(
            alloc,
            end_of(alloc, faces.as_slice(), spaces.as_slice(), &limits),
        ),
        None => String::from_str(alloc, "no limits"),
    }
}

// Whether a row holds.
fn holds(alloc: Global, row: &str) -> Result<bool, AllocError> {
    let Some((list, wanted)) = row.split_once('?') else {
        return Ok(false);
    };
    let Some((limits, segments)) = list.split_once('|') else {
        return Ok(false);
    };
    Ok(answer_of(alloc, limits, segments)?.as_str() == wanted)
}

#[test]
fn faults(rt: HostRuntime) -> Result<(), Fail> {
    for row in ROWS.split('\n') {
        assert!(rt; holds(rt.alloc(), row)?, "{row}");
    }
    Ok(())
}
