//! The declarations and specifications of a text, found by the tokens of their names.
ghost use Rattle.std.specs.Prelude.{◌≡◌, ◌++◌, ◌∷◌, [], map, IfOk};
ghost use Rattle.cw_scope.specs.Resolved.{all_rows, fact_declarations, fact_signatures};

use cw_facts::fact::{Declaration, Fact, Signature};
use cw_facts::signatures::signature_again;
use cw_table::table::Table;
use cw_word::NoMemory;
use std::alloc::Global;

// A declaration in an option of its own: the prover knows what one holds where a type of the function holds one unboxed.
fn with_declaration(
    before: Table<Declaration>,
    declaration: &Declaration,
) -> Result<Table<Declaration>, NoMemory>
    ensures { IfOk result (λ d. d ≡ before ++ record { token = declaration.now.name.at.token; item = declaration.now } ∷ []) }
{
    match Some(*declaration) {
        Some(row) => before.with(row.name.at.token, row),
        None => Ok(before),
    }
}

/// Adds the declarations of facts.
#[cycle(declared)]
pub(crate) fn declarations_of(
    facts: &[Fact],
    before: Table<Declaration>,
) -> Result<Table<Declaration>, NoMemory>
    ensures { IfOk result (λ d. d ≡ before ++ all_rows (map fact_declarations facts.now)) }
{
    let mut all = before;
    for fact in facts {
        all = declarations_in(fact, all)?;
    }
    Ok(all)
}

#[cycle(declared)]
fn declarations_in(fact: &Fact, before: Table<Declaration>) -> Result<Table<Declaration>, NoMemory>
    ensures { IfOk result (λ d. d ≡ before ++ fact_declarations fact.now) }
{
    match fact {
        Fact::Declares(declaration) => with_declaration(before, declaration.get()),
        Fact::Block(_, facts) => declarations_of(facts.as_slice(), before),
        _ => Ok(before),
    }
}

/// Adds the specifications of facts.
#[cycle(specified)]
pub(crate) fn signatures_of(
    facts: &[Fact],
    alloc: Global,
    before: Table<Signature>,
) -> Result<Table<Signature>, NoMemory>
    ensures { IfOk result (λ s. s ≡ before ++ all_rows (map fact_signatures facts.now)) }
{
    let mut all = before;
    for fact in facts {
        all = signatures_in(fact, alloc, all)?;
    }
    Ok(all)
}

#[cycle(specified)]
fn signatures_in(
    fact: &Fact,
    alloc: Global,
    before: Table<Signature>,
) -> Result<Table<Signature>, NoMemory>
    ensures { IfOk result (λ s. s ≡ before ++ fact_signatures fact.now) }
{
    match fact {
        Fact::Specifies(token, signature) => {
            let again = signature_again(alloc, signature.get())?;
            before.with(*token, again)
        }
        Fact::Block(_, facts) => signatures_of(facts.as_slice(), alloc, before),
        _ => Ok(before),
    }
}
