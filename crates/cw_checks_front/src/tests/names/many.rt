//! A tree of very many names.
use cw_scope::resolve::resolve;
use cw_tree::leaf::{Position, RawName};
use cw_tree::segment::Raw;
use cw_tree::statement::{RawBlock, RawDecl, RawForm, RawSimple, RawStmt};
use cw_word::{Boxed, List, Name, NoMemory};
use std::alloc::{AllocError, Global};
use std::test::Fail;

const NAMES: u32 = 30_000;

const USES: u32 = 60_000;

fn name_at(name: &[u8], token: u32) -> Result<RawName, AllocError> {
    match Name::new(name) {
        Some(name) => Ok(RawName {
            at: Position { line: 1, token },
            name,
        }),
        None => Err(AllocError),
    }
}

// N0, N1 and so on, by turns so many different ones, with tokens from this one on.
fn names(
    alloc: Global,
    count: u32,
    different: u32,
    first: u32,
) -> Result<Vec<RawName>, AllocError> {
    let mut all = Vec::new(alloc);
    for k in 0..count {
        let number = k % different.max(1);
        let text = format!(in alloc; "N{number}")?;
        all.push(name_at(text.as_bytes(), first.saturating_add(k))?)?;
    }
    Ok(all)
}

fn marked_statement(alloc: Global, labels: Vec<RawName>) -> Result<RawStmt, NoMemory> {
    let simple = Boxed::new(alloc, RawSimple::Empty)?;
    let form = Boxed::new(alloc, RawForm::Simple(simple))?;
    Ok(RawStmt {
        labels: List::of(labels),
        form,
    })
}

// A switch of these uses, and a statement with these labels.
fn tree(
    alloc: Global,
    name: RawName,
    uses: Vec<RawName>,
    labels: Vec<RawName>,
) -> Result<Raw, NoMemory> {
    let at = name.at;
    let mut decls = List::new(alloc);
    decls.push(RawDecl::Switch(at, name, List::of(uses)))?;
    let mut stmts = List::new(alloc);
    stmts.push(marked_statement(alloc, labels)?)?;
    Ok(Raw {
        name: name.name,
        comms: List::new(alloc),
        block: RawBlock { at, decls, stmts },
        tokens: 0,
    })
}

// How many uses of names are found, each to refer to the label of its name.
fn found(alloc: Global, raw: &Raw) -> Result<u32, AllocError> {
    let mut count = 0u32;
    let Ok(named) = resolve(alloc, raw) else {
        return Err(AllocError);
    };
    for row in named.uses.rows() {
        if row.item == USES.wrapping_add(row.token % NAMES) {
            count = count.saturating_add(1);
        }
    }
    Ok(count)
}

#[test]
fn every_use_is_found(rt: HostRuntime) -> Result<(), Fail> {
    let alloc = rt.alloc();
    let uses = names(alloc, USES, NAMES, 0)?;
    let labels = names(alloc, NAMES, NAMES, USES)?;
    let Ok(raw) = tree(alloc, name_at(b"S", 100_000)?, uses, labels) else {
        return Err(AllocError.into());
    };
    assert_eq!(rt; found(alloc, &raw)?, USES);
    Ok(())
}
