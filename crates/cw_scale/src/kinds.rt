//! What the names of a resolved text name.
ghost use Rattle.std.specs.Prelude.{◌≡◌, Some, option_copied};
ghost use Rattle.cw_scale.specs.Kinds.{kind_of, signature_of, fraction_of_sint, fraction_of, element_fraction};
ghost use Rattle.cw_scale.specs.Kinds.{answer_fraction, kind_fraction, fraction_of_kind};
ghost use Rattle.cw_scale.specs.Arguments.{is_word_item, is_word_item_if, is_whole_if};

use cw_amount::amount::{is_negative, place_amount};
use cw_facts::fact::{Kind, Signature};
use cw_scope::judge::is_part;
use cw_scope::resolve::Named;
use cw_tree::items::RawElem;
use cw_tree::leaf::{RawName, RawSint, RawType};

/// What a name names.
pub fn kind_of<'a>(named: &'a Named, name: &RawName) -> Option<&'a Kind>
    ensures { option_copied result ≡ kind_of named.now name.now }
{
    match named.uses.find(name.at.token) {
        Some(token) => match named.declarations.find(*token) {
            Some(declaration) => Some(&declaration.kind),
            None => None,
        },
        None => None,
    }
}

/// What the procedure is specified as that a name names.
pub fn signature_of<'a>(named: &'a Named, name: &RawName) -> Option<&'a Signature>
    ensures { option_copied result ≡ signature_of named.now name.now }
{
    match named.uses.find(name.at.token) {
        Some(token) => named.signatures.find(*token),
        None => None,
    }
}

pub fn fraction_of_sint(number: &RawSint) -> u8
    ensures { result ≡ fraction_of_sint number.now }
{
    match place_amount(&number.value) {
        None => 0,
        Some(value) => {
            if !is_negative(&number.sign) && value < 16 {
                value as u8
            } else {
                0
            }
        }
    }
}

/// The bits after the point of a type.
pub fn fraction_of(scale: &RawType) -> u8
    ensures { result ≡ fraction_of scale.now }
{
    match scale {
        RawType::Integer(_) => 0,
        RawType::Fixed(_, _, f) => fraction_of_sint(f),
    }
}

/// The bits after the point of an element.
pub fn element_fraction(element: &RawElem) -> u8
    ensures { result ≡ element_fraction element.now }
{
    match element {
        RawElem::Word(_, scale, _) => fraction_of(scale),
        RawElem::Part { scale, .. } => fraction_of_sint(scale),
    }
}

fn answer_fraction(answer: &Option<RawType>) -> u8
    ensures { result ≡ answer_fraction answer.now }
{
    match answer {
        None => 0,
        Some(scale) => fraction_of(scale),
    }
}

fn kind_fraction(kind: &Kind) -> u8
    ensures { result ≡ kind_fraction kind.now }
{
    match kind {
        Kind::Single(scale) => fraction_of(scale),
        Kind::Array(scale, _) => fraction_of(scale),
        Kind::Value(scale) => fraction_of(scale),
        Kind::Location(scale) => fraction_of(scale),
        Kind::ArrayParam(scale) => fraction_of(scale),
        Kind::Element(_, element) => element_fraction(element),
        Kind::Proc(answer) => answer_fraction(answer),
        Kind::ProcParam(answer) => answer_fraction(answer),
        Kind::Answer(scale) => fraction_of(scale),
        _ => 0,
    }
}

/// The bits after the point of what a name stands for, by its kind.
pub fn fraction_of_kind(kind: Option<&Kind>) -> u8
    ensures { result ≡ fraction_of_kind (option_copied kind.entry) }
{
    match kind {
        None => 0,
        Some(kind) => kind_fraction(kind),
    }
}

/// The bits after the point of what a name stands for.
pub fn name_fraction(named: &Named, name: &RawName) -> u8
    ensures { result ≡ fraction_of_kind (kind_of named.now name.now) }
{
    fraction_of_kind(kind_of(named, name))
}

fn is_word_item(kind: &Kind) -> bool
    ensures { result ≡ is_word_item kind.now }
{
    match kind {
        Kind::Single(_) | Kind::Value(_) | Kind::Location(_) => true,
        _ => false,
    }
}

/// Whether a name of a kind is by itself a reference of a whole word.
pub fn is_word_item_if(kind: Option<&Kind>) -> bool
    ensures { result ≡ is_word_item_if (option_copied kind.entry) }
{
    match kind {
        None => false,
        Some(kind) => is_word_item(kind),
    }
}

/// Whether a name of a kind is one with an index.
pub fn is_whole_if(kind: Option<&Kind>) -> bool
    ensures { result ≡ is_whole_if (option_copied kind.entry) }
{
    match kind {
        None => false,
        Some(kind) => !is_part(kind),
    }
}
