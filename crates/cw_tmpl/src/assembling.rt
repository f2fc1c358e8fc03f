//! Code that grows piece by piece.
ghost use Rattle.std.specs.Prelude.{◌≡◌, ◌≤◌, ◌++◌, ◌-◌, ◌∷◌, [], length, OnOk};
ghost use Rattle.cw_i86.specs.Encoding.{bytes_of, IsInstr};
ghost use Rattle.cw_tmpl.specs.Assembling.{Adds};
ghost use Rattle.cw_tmpl.specs.Pieces.{bytes_with, instruction_of, word_alone, target_of, relocation_of, IsCoded, AllCoded};

use crate::instructions::{
    AT_ZERO, CODE_AT_ZERO, change, entry_of_table, load, operate, operate_number,
};
use crate::pieces::{Coded, Limit, Target};
use cw_enc86::encode;
use cw_i86::{Imm, Instr};
use cw_unit::layout::Reloc;
use cw_word::{List, NoMemory};

/// The code of a segment. The words that the linker fills are 0; `starts` tells the place of each mark, and `entry`
/// where the segment's body begins. `labels`, `switches` and `procedures` tell the places that a definition of each has:
/// of a label that stands in no procedure it is that of its landing, and 0 where nothing names the label or switch.
/// `statements` tells where each statement begins, with its line.
#[derive(Drop)]
pub struct Code {
    pub bytes: List<u8>,
    pub relocs: List<Reloc>,
    pub starts: List<u32>,
    pub entry: u32,
    pub labels: List<u32>,
    pub switches: List<u32>,
    pub procedures: List<u32>,
    pub statements: List<(u32, u16)>,
}

/// Code on the way.
#[derive(Drop)]
pub struct Assembly {
    pub bytes: List<u8>,
    pub relocs: List<Reloc>,
}

/// The relocation of a word at a place.
fn relocation(place: u32, target: Target) -> Reloc
    ensures { result ≡ relocation_of place target }
{
    let (sort, index, add) = match target {
        Target::Word { family, offset } => (1, family, offset),
        Target::Bytes { family, offset } => (2, family, offset),
        Target::Place(add) => (3, 0, add),
        Target::Definition(descriptor) => (4, descriptor, 0),
        Target::DefinitionAhead(descriptor) => (5, descriptor, 0),
        Target::Library(entry) => (6, entry, 0),
        Target::LibraryAhead(entry) => (7, entry, 0),
        Target::Limit(Limit::DataWords) => (8, 0, 0),
        Target::Limit(Limit::FrameWords) => (8, 1, 0),
        Target::Limit(Limit::Calls) => (8, 2, 0),
        Target::Limit(Limit::Segment) => (8, 3, 0),
        Target::NextSegment => (9, 0, 0),
    };
    Reloc {
        place,
        sort,
        index,
        add,
    }
}

/// The instruction of a piece, with 0 for the word that the linker fills; None for a word alone.
fn instruction_of(piece: &Coded) -> Option<Instr>
    ensures { result ≡ instruction_of piece.now }
{
    match *piece {
        Coded::Whole(instruction) => Some(instruction),
        Coded::Move { reg, .. } => Some(Instr::MovImm {
            reg,
            imm: Imm::Word(0),
        }),
        Coded::Sum { reg, .. } => Some(operate_number(0, reg, 0)),
        Coded::Fetch { reg, .. } => Some(load(reg, AT_ZERO)),
        Coded::Load(_) => Some(Instr::MovAcc {
            cs: false,
            wide: true,
            store: false,
            at: 0,
        }),
        Coded::Store(_) => Some(Instr::MovAcc {
            cs: false,
            wide: true,
            store: true,
            at: 0,
        }),
        Coded::PushCode(_) => Some(Instr::PushRm(CODE_AT_ZERO)),
        Coded::Operate { operation, reg, .. } => Some(operate(operation, reg, AT_ZERO)),
        Coded::Change { operation, reg, .. } => Some(change(operation, AT_ZERO, reg)),
        Coded::Call(_) => Some(Instr::Call(0)),
        Coded::Jump(_) => Some(Instr::Jump(0)),
        Coded::Way(_) => Some(Instr::JumpRm(entry_of_table(0))),
        Coded::Word(_) | Coded::Data(_) => None,
    }
}

/// The word of a piece that is a word alone, with 0 for one that the linker fills.
fn word_alone(piece: &Coded) -> u16
    ensures { result ≡ word_alone piece.now }
{
    match *piece {
        Coded::Data(word) => word,
        _ => 0,
    }
}

/// What the linker fills the word of a piece with.
fn target_of(piece: &Coded) -> Option<Target>
    ensures { result ≡ target_of piece.now }
{
    match *piece {
        Coded::Whole(_) | Coded::Data(_) => None,
        Coded::Move { target, .. }
        | Coded::Sum { target, .. }
        | Coded::Fetch { target, .. }
        | Coded::Operate { target, .. }
        | Coded::Change { target, .. }
        | Coded::Load(target)
        | Coded::Store(target)
        | Coded::PushCode(target)
        | Coded::Call(target)
        | Coded::Jump(target)
        | Coded::Word(target)
        | Coded::Way(target) => Some(target),
    }
}

impl Assembly {
    fn put_bytes(&mut self, bytes: &[u8]) -> Result<(), NoMemory>
        ensures bytes { OnOk result (self.new.bytes ≡ self.old.bytes ++ bytes.now) }
        ensures relocs { self.new.relocs ≡ self.old.relocs }
    {
        for byte in bytes {
            self.bytes.push(*byte)?;
        }
        Ok(())
    }

    fn put_instruction(&mut self, instruction: &Instr) -> Result<(), NoMemory>
        requires { IsInstr instruction.now }
        ensures bytes { OnOk result (self.new.bytes ≡ self.old.bytes ++ bytes_of instruction.now) }
        ensures relocs { self.new.relocs ≡ self.old.relocs }
    {
        let mut buffer = [0; 7];
        let size = encode(instruction, &mut buffer);
        self.put_bytes(&buffer[..size])
    }

    /// Adds the relocation of the word that ends the code so far.
    fn relocate(&mut self, target: Target) -> Result<(), NoMemory>
        requires { 2 ≤ length self.old.bytes }
        ensures bytes { self.new.bytes ≡ self.old.bytes }
        ensures relocs { OnOk result (self.new.relocs ≡ self.old.relocs ++ relocation_of (length self.old.bytes - 2) target ∷ []) }
    {
        match u32::try_from(self.bytes.as_slice().len() - 2) {
            Ok(place) => self.relocs.push(relocation(place, target)),
            Err(_) => Err(NoMemory),
        }
    }

    /// Adds a piece with 0 for the word that the linker fills.
    fn put_blank(&mut self, piece: &Coded) -> Result<(), NoMemory>
        requires { IsCoded piece.now }
        ensures bytes { OnOk result (self.new.bytes ≡ self.old.bytes ++ bytes_with 0 piece.now) }
        ensures relocs { self.new.relocs ≡ self.old.relocs }
    {
        match instruction_of(piece) {
            Some(instruction) => self.put_instruction(&instruction),
            None => self.put_bytes(&word_alone(piece).to_le_bytes()),
        }
    }

    /// Adds a piece. NoMemory comes for want of memory, and where a relocation would stand past 2^32 - 1.
    pub fn put(&mut self, piece: &Coded) -> Result<(), NoMemory>
        requires { IsCoded piece.now }
        ensures { OnOk result (Adds self.old (piece.now ∷ []) self.new) }
    {
        self.put_blank(piece)?;
        match target_of(piece) {
            Some(target) => self.relocate(target),
            None => Ok(()),
        }
    }

    /// Adds pieces, in their order.
    pub fn put_all(&mut self, pieces: &[Coded]) -> Result<(), NoMemory>
        requires { AllCoded pieces.now }
        ensures { OnOk result (Adds self.old pieces.now self.new) }
    {
        for piece in pieces {
            self.put(piece)?;
        }
        Ok(())
    }
}
