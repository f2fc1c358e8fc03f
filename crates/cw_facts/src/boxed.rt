//! What is large in a fact, in a box of its own: most facts are uses of names, and each takes as much room as the largest.
ghost use Rattle.std.specs.Prelude.{◌≡◌, IfOk};

use crate::fact::{Declaration, Signature};
use cw_word::NoMemory;
use std::alloc::Global;
use std::marker::Model;

/// A declaration in a box. Contracts see the declaration.
#[derive(Drop)]
pub struct BoxedDeclaration {
    inner: Box<Declaration>,
}

impl Model for BoxedDeclaration {
    ghost use Rattle.cw_facts.specs.declared.fact.Declaration.{Declaration as Declared};

    ghost Value = { Declared };

    ghost view = { λ b. b.inner.value };
}

impl BoxedDeclaration {
    pub(crate) fn new(alloc: Global, declaration: Declaration) -> Result<BoxedDeclaration, NoMemory>
        ensures { IfOk result (λ b. b ≡ declaration) }
    {
        match Box::new(alloc, declaration) {
            Ok(inner) => Ok(BoxedDeclaration { inner }),
            Err(_) => Err(NoMemory),
        }
    }

    pub fn get(&self) -> &Declaration
        ensures { result.now ≡ self.now }
    {
        &self.inner
    }
}

/// A specification in a box. Contracts see the specification.
#[derive(Drop)]
pub struct BoxedSignature {
    inner: Box<Signature>,
}

impl Model for BoxedSignature {
    ghost use Rattle.cw_facts.specs.declared.fact.Signature.{Signature as Specified};

    ghost Value = { Specified };

    ghost view = { λ b. b.inner.value };
}

impl BoxedSignature {
    pub(crate) fn new(alloc: Global, signature: Signature) -> Result<BoxedSignature, NoMemory>
        ensures { IfOk result (λ b. b ≡ signature) }
    {
        match Box::new(alloc, signature) {
            Ok(inner) => Ok(BoxedSignature { inner }),
            Err(_) => Err(NoMemory),
        }
    }

    pub fn get(&self) -> &Signature
        ensures { result.now ≡ self.now }
    {
        &self.inner
    }
}
