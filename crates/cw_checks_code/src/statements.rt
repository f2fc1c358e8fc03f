//! The statements that the code of texts begins, in order, by the places that their objects tell.
use crate::orders::{STEPS, Told, is_told_of_code};
use crate::processor::Run;
use crate::texts::{LIMITS, lines_of, link_one};
use cw_link::{Linked, link};
use cw_ports::ImageEnd;
use cw_texts::compile_text;
use cw_tmpl::base_code;
use cw_view::{View, read_statement};
use std::alloc::{AllocError, Global};
use std::test::Fail;

// A program, ~ the end of a line: the texts of its segments, the statements that it begins, each with its segment, its line and the first
// word of the data area, which is X, and what is written, with the stop.
const TRACES: &[(&[&str], &str, Told<'static>)] = &[
    (
        &[
            "LIBRARY (PROCEDURE WRITEBYTE(VALUE INTEGER));~SEGMENT A~BEGIN~INTEGER X, I;~X := 3;~FOR I := 1 STEP 1 \
                UNTIL 2 DO~IF X > 3 THEN X := X - 1~ELSE X := X + 4;~WRITEBYTE(X)~END~FINISH",
        ],
        "1:5:0 1:6:3 1:7:3 1:8:3 1:7:7 1:7:7 1:9:6",
        Told {
            bytes: "6",
            end: "",
        },
    ),
    (
        &[
            "COMMON (INTEGER X; PROCEDURE P(VALUE INTEGER));~SEGMENT A~BEGIN~X := 1;~P(5);~BEGIN P(X) END~END~FINISH",
            "COMMON (INTEGER X; PROCEDURE P(VALUE INTEGER));~SEGMENT B~BEGIN~PROCEDURE P(VALUE INTEGER N);~X := X \
                + N;~X := X * 2;~GOTO E;~X := 0;~E: X := X / 0~END~FINISH",
        ],
        "1:4:0 1:5:1 2:5:1 1:6:6 2:5:6 2:6:12 2:7:24 2:9:24",
        Told {
            bytes: "",
            end: "2 2 9",
        },
    ),
];

// A place in the code of the image, the number of the segment and the line of the statement that begins there.
#[derive(Drop)]
struct Place {
    at: u32,
    segment: usize,
    line: u16,
}

fn object_of(alloc: Global, text: &[u8]) -> Option<Vec<u8>> {
    if text.len() > 1_048_576 {
        return None;
    }
    match compile_text(alloc, text, 0) {
        Ok(segment) => segment.made.object.as_slice().to_vec(alloc).ok(),
        Err(_) => None,
    }
}

fn object_of_lines(alloc: Global, text: &str) -> Option<Vec<u8>> {
    let text = lines_of(alloc, text).ok()?;
    object_of(alloc, &text)
}

// The objects of texts; none where one is refused.
fn objects_of(alloc: Global, texts: &[&str]) -> Option<Vec<Vec<u8>>> {
    let mut objects = Vec::new(alloc);
    for text in texts {
        objects.push(object_of_lines(alloc, text)?).ok()?;
    }
    Some(objects)
}

// One object or two, linked.
fn linked(alloc: Global, objects: &[Vec<u8>]) -> Option<Linked> {
    match objects {
        [object] => link_one(alloc, object),
        [first, second] => match (View::open(first), View::open(second)) {
            (Ok(first), Ok(second)) => link(alloc, &[first, second], &LIMITS).ok(),
            _ => None,
        },
        _ => None,
    }
}

// The place that a record tells of the segment of this number, whose code begins here.
fn place_of(payload: &[u8], start: usize, segment: usize) -> Option<Place> {
    let (place, line) = read_statement(payload)?;
    let at = u32::try_from(start).ok()?.checked_add(place)?;
    Some(Place { at, segment, line })
}

// Adds the places that an object tells, each moved to where the code of its segment begins, and answers where the code behind it does.
fn put_places(
    places: &mut Vec<Place>,
    object: &[u8],
    start: usize,
    segment: usize,
) -> Option<usize> {
    let Ok(view) = View::open(object) else {
        return None;
    };
    for payload in view.records(10) {
        places.push(place_of(payload, start, segment)?).ok()?;
    }
    start.checked_add(view.code().len())
}

// The places that objects tell.
fn places_of(alloc: Global, objects: &[Vec<u8>]) -> Option<Vec<Place>> {
    let mut places = Vec::new(alloc);
    let mut start = base_code().len();
    for (k, object) in objects.iter().enumerate() {
        start = put_places(&mut places, object, start, k.wrapping_add(1))?;
    }
    Some(places)
}

// Adds the statement of a place, with the first word of the data area.
fn put_begun(
    alloc: Global,
    trace: &mut String,
    place: &Place,
    word: i16,
) -> Result<(), AllocError> {
    let gap = if trace.as_str().is_empty() { "" } else { " " };
    let begun = format!(in alloc; "{gap}{}:{}:{word}", place.segment, place.line)?;
    trace.push_str(&begun)
}

// Adds those that begin where the run stands.
fn put_all_begun(
    alloc: Global,
    trace: &mut String,
    run: &Run,
    places: &[Place],
) -> Result<(), AllocError> {
    for place in places {
        if place.at == u32::from(run.place()) {
            put_begun(alloc, trace, place, run.word(0))?;
        }
    }
    Ok(())
}

// The statements that a run begins. It goes on by one instruction at a time.
fn traced(alloc: Global, run: &mut Run, places: &[Place]) -> Result<String, AllocError> {
    let mut trace = String::new(alloc);
    for _ in 0..STEPS {
        put_all_begun(alloc, &mut trace, run, places)?;
        if run.go_on(1) != ImageEnd::Unfinished {
            return Ok(trace);
        }
    }
    Ok(trace)
}

fn run_of(alloc: Global, linked: &Linked) -> Option<Run> {
    let image = &linked.image;
    Run::new(alloc, image.code.as_slice(), image.words.as_slice(), b"")
}

fn is_trace(
    alloc: Global,
    run: &mut Run,
    places: &[Place],
    wanted: &str,
) -> Result<bool, AllocError> {
    let trace = traced(alloc, run, places)?;
    Ok(trace.as_str() == wanted)
}

// Whether a run begins the wanted statements.
fn begins(
    alloc: Global,
    linked: &Linked,
    places: &[Place],
    wanted: &str,
) -> Result<bool, AllocError> {
    match run_of(alloc, linked) {
        Some(mut run) => is_trace(alloc, &mut run, places, wanted),
        None => Ok(false),
    }
}

// Whether a run shows what is told.
fn shows(alloc: Global, linked: &Linked, told: Told<'_>) -> bool {
    match run_of(alloc, linked) {
        Some(mut run) => {
            let end = run.go_on(STEPS);
            is_told_of_code(run.output(), end, told)
        }
        None => false,
    }
}

fn runs(
    alloc: Global,
    objects: &[Vec<u8>],
    places: &[Place],
    wanted: &str,
    told: Told<'_>,
) -> Result<bool, AllocError> {
    match linked(alloc, objects) {
        Some(linked) => match begins(alloc, &linked, places, wanted) {
            Ok(true) => Ok(shows(alloc, &linked, told)),
            other => other,
        },
        None => Ok(false),
    }
}

fn objects_run(
    alloc: Global,
    objects: &[Vec<u8>],
    wanted: &str,
    told: Told<'_>,
) -> Result<bool, AllocError> {
    match places_of(alloc, objects) {
        Some(places) => runs(alloc, objects, &places, wanted, told),
        None => Ok(false),
    }
}

fn texts_run(
    alloc: Global,
    texts: &[&str],
    wanted: &str,
    told: Told<'_>,
) -> Result<bool, AllocError> {
    match objects_of(alloc, texts) {
        Some(objects) => objects_run(alloc, &objects, wanted, told),
        None => Ok(false),
    }
}

#[test]
fn statements_begun(rt: HostRuntime) -> Result<(), Fail> {
    for &(texts, wanted, told) in TRACES {
        assert!(rt; texts_run(rt.alloc(), texts, wanted, told)?, "{wanted}");
    }
    Ok(())
}
