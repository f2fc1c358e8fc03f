// From the tree of a text to its unit.
ghost use Rattle.std.specs.Prelude.{◌≡◌, ◌≤◌, ℕ, List as Sequence, length, IfOk, IfErr};
ghost use Rattle.cw_compile.specs.Texts.{text_limit, HasTree, HasNames, HasTypes, IsUnitOf, IsCanonicalOf, IsFaultOf};

use crate::fault::{Refusal, UnitFault};
use crate::tree::tree_of;
use cw_make::made::unit_of_named;
use cw_scope::resolve::{ScopeFault, resolve};
use cw_show::show;
use cw_tree::segment::Raw;
use cw_type::StoredText;
use cw_type::check::{TypeFault, check_types};
use cw_unit::unit::Unit;
use std::alloc::Global;

// The tree with its names and what it stores, where no rule of names is broken.
fn stored(alloc: Global, raw: &Raw) -> Result<StoredText<'_>, UnitFault>
    ensures named { (text : Sequence ℕ) → HasTree text raw.now → IfOk result (λ named. HasNames text named) }
    ensures tree { IfOk result (λ named. named.raw.now ≡ raw.now) }
    ensures fault { (text : Sequence ℕ) → HasTree text raw.now → IfErr result (λ fault. IsFaultOf text fault) }
{
    match resolve(alloc, raw) {
        Ok(named) => match StoredText::new(alloc, named) {
            Ok(stored) => Ok(stored),
            Err(_) => Err(UnitFault::NoMemory),
        },
        Err(ScopeFault::NoMemory) => Err(UnitFault::NoMemory),
        Err(fault) => Err(UnitFault::Refused(Refusal::Scope(fault))),
    }
}

// The same where no rule of types is broken either.
fn checked(alloc: Global, raw: &Raw) -> Result<StoredText<'_>, UnitFault>
    ensures named { (text : Sequence ℕ) → HasTree text raw.now → IfOk result (λ named. HasTypes text named) }
    ensures tree { IfOk result (λ named. named.raw.now ≡ raw.now) }
    ensures fault { (text : Sequence ℕ) → HasTree text raw.now → IfErr result (λ fault. IsFaultOf text fault) }
{
    match stored(alloc, raw) {
        Ok(stored) => match check_types(alloc, &stored) {
            Ok(()) => Ok(stored),
            Err(TypeFault::NoMemory) => Err(UnitFault::NoMemory),
            Err(fault) => Err(UnitFault::Refused(Refusal::Typing(fault))),
        },
        Err(fault) => Err(fault),
    }
}

fn unit_of_tree(alloc: Global, raw: &Raw) -> Result<Unit, UnitFault>
    ensures unit { (text : Sequence ℕ) → HasTree text raw.now → IfOk result (λ unit. IsUnitOf text unit) }
    ensures fault { (text : Sequence ℕ) → HasTree text raw.now → IfErr result (λ fault. IsFaultOf text fault) }
{
    match checked(alloc, raw) {
        Ok(stored) => match unit_of_named(alloc, &stored) {
            Ok(unit) => Ok(unit),
            Err(_) => Err(UnitFault::NoMemory),
        },
        Err(fault) => Err(fault),
    }
}

/// The unit of a text, or its first fault.
pub fn unit(alloc: Global, text: &[u8]) -> Result<Unit, UnitFault>
    requires { length text.now ≤ text_limit }
    ensures unit { IfOk result (λ unit. IsUnitOf text.now unit) }
    ensures fault { IfErr result (λ fault. IsFaultOf text.now fault) }
{
    let raw = tree_of(alloc, text)?;
    unit_of_tree(alloc, &raw)
}

fn canonical_of_tree(alloc: Global, raw: &Raw) -> Result<Vec<u8>, UnitFault>
    ensures shown { (text : Sequence ℕ) → HasTree text raw.now → IfOk result (λ shown. IsCanonicalOf text shown.items) }
    ensures fault { (text : Sequence ℕ) → HasTree text raw.now → IfErr result (λ fault. IsFaultOf text fault) }
{
    match checked(alloc, raw) {
        Ok(_) => match show(alloc, raw) {
            Ok(shown) => Ok(shown),
            Err(_) => Err(UnitFault::NoMemory),
        },
        Err(fault) => Err(fault),
    }
}

/// The canonical text of a text that has a unit, or the first fault of one that has none.
pub fn canonical(alloc: Global, text: &[u8]) -> Result<Vec<u8>, UnitFault>
    requires { length text.now ≤ text_limit }
    ensures shown { IfOk result (λ shown. IsCanonicalOf text.now shown.items) }
    ensures fault { IfErr result (λ fault. IsFaultOf text.now fault) }
{
    let raw = tree_of(alloc, text)?;
    canonical_of_tree(alloc, &raw)
}
