//! The texts of the large program, which all have a unit.
use cw_big::large_text;
use cw_texts::compile_text;
use std::alloc::Global;
use std::test::Fail;

// Whether the text of a segment is compiled.
fn is_compiled(alloc: Global, number: u8, is_last: bool) -> bool {
    let Ok(text) = large_text(alloc, number, is_last) else {
        return false;
    };
    if text.len() > 1_048_576 {
        return false;
    }
    match compile_text(alloc, text.as_slice(), 0) {
        Ok(_) => true,
        Err(_) => false,
    }
}

#[test]
fn large_texts(rt: HostRuntime) -> Result<(), Fail> {
    for number in 1..101 {
        assert!(rt; is_compiled(rt.alloc(), number, false));
        assert!(rt; is_compiled(rt.alloc(), number, true));
    }
    Ok(())
}
