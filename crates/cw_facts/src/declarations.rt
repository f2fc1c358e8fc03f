//! The facts of declarations.
ghost use Rattle.std.specs.Prelude.{◌≡◌, ◌++◌, ◌∷◌, [], OnOk, codes};
ghost use Rattle.cw_facts.specs.Facts.{declares, specifies, procedure_parameter_facts, each_declares, each_uses, groups_facts, element_name, elements_facts, table_facts};
ghost use Rattle.cw_facts.specs.Facts.{data_facts, base_name, base_facts, parameter_facts, parameters_facts, answer_name, type_position, answer_facts};

use crate::boxed::{BoxedDeclaration, BoxedSignature};
use crate::expressions::note;
use crate::fact::{Declaration, Fact, Form, Kind, Signature};
use crate::signatures::plain;
use cw_tree::items::{RawBase, RawData, RawElem, RawGroup, RawTable};
use cw_tree::leaf::{Position, RawName, RawType};
use cw_tree::segment::{RawIps, RawPs};
use cw_tree::statement::RawParam;
use cw_word::{List, Name, NoMemory};
use std::alloc::Global;

pub(crate) fn declare(
    alloc: Global,
    name: RawName,
    kind: Kind,
    out: &mut List<Fact>,
) -> Result<(), NoMemory>
    ensures { OnOk result (out.new ≡ out.old ++ declares name kind ∷ []) }
{
    let declaration = BoxedDeclaration::new(alloc, Declaration { name, kind })?;
    out.push(Fact::Declares(declaration))
}

pub(crate) fn declare_each(
    alloc: Global,
    names: &[RawName],
    kind: &Kind,
    out: &mut List<Fact>,
) -> Result<(), NoMemory>
    ensures { OnOk result (out.new ≡ out.old ++ each_declares kind.now names.now) }
{
    for name in names {
        declare(alloc, *name, *kind, out)?;
    }
    Ok(())
}

pub(crate) fn use_each(names: &[RawName], out: &mut List<Fact>) -> Result<(), NoMemory>
    ensures { OnOk result (out.new ≡ out.old ++ each_uses names.now) }
{
    for name in names {
        note(*name, Form::Listed, out)?;
    }
    Ok(())
}

fn groups(
    alloc: Global,
    scale: &RawType,
    groups: &[RawGroup],
    out: &mut List<Fact>,
) -> Result<(), NoMemory>
    ensures { OnOk result (out.new ≡ out.old ++ groups_facts scale.now groups.now) }
{
    for group in groups {
        declare_each(
            alloc,
            group.names.as_slice(),
            &Kind::Array(*scale, group.bounds),
            out,
        )?;
    }
    Ok(())
}

fn element_name(element: &RawElem) -> RawName
    ensures { result ≡ element_name element.now }
{
    match element {
        RawElem::Word(name, _, _) => *name,
        RawElem::Part { name, .. } => *name,
    }
}

fn elements(
    alloc: Global,
    table: &RawName,
    elements: &[RawElem],
    out: &mut List<Fact>,
) -> Result<(), NoMemory>
    ensures { OnOk result (out.new ≡ out.old ++ elements_facts table.now elements.now) }
{
    for element in elements {
        declare(
            alloc,
            element_name(element),
            Kind::Element(*table, *element),
            out,
        )?;
    }
    Ok(())
}

pub(crate) fn table_facts(
    alloc: Global,
    kind: &Kind,
    table: &RawTable,
    out: &mut List<Fact>,
) -> Result<(), NoMemory>
    ensures { OnOk result (out.new ≡ out.old ++ table_facts kind.now table.now) }
{
    declare(alloc, table.name, *kind, out)?;
    elements(alloc, &table.name, table.elems.as_slice(), out)
}

/// Adds the facts of a declaration of data.
pub(crate) fn data_facts(
    alloc: Global,
    items: &RawData,
    out: &mut List<Fact>,
) -> Result<(), NoMemory>
    ensures { OnOk result (out.new ≡ out.old ++ data_facts items.now) }
{
    match items {
        RawData::Singles(scale, names, _) => declare_each(
            alloc,
            names.as_slice(),
            &Kind::Single(*scale),
            out,
        ),
        RawData::Arrays(scale, list, _) => groups(alloc, scale, list.as_slice(), out),
        RawData::Table(tree, _, _) => table_facts(alloc, &Kind::Table(tree.size), tree, out),
    }
}

fn base_name(base: &RawBase) -> RawName
    ensures { result ≡ base_name base.now }
{
    match base {
        RawBase::Name(name) => *name,
        RawBase::One(name, _) => *name,
        RawBase::Two(name, _, _) => *name,
    }
}

/// Adds the use of the base of an OVERLAY.
pub(crate) fn base_facts(base: &RawBase, out: &mut List<Fact>) -> Result<(), NoMemory>
    ensures { OnOk result (out.new ≡ out.old ++ base_facts base.now) }
{
    note(base_name(base), Form::Base, out)
}

/// The specification of the procedure with a name of this token.
pub(crate) fn specifies(
    alloc: Global,
    token: u32,
    answer: Option<RawType>,
    params: List<RawPs>,
    out: &mut List<Fact>,
) -> Result<(), NoMemory>
    ensures { OnOk result (out.new ≡ out.old ++ specifies token answer params ∷ []) }
{
    let signature = BoxedSignature::new(alloc, Signature { answer, params })?;
    out.push(Fact::Specifies(token, signature))
}

fn procedure_parameter(
    alloc: Global,
    answer: &Option<RawType>,
    name: &RawName,
    inner: &[RawIps],
    out: &mut List<Fact>,
) -> Result<(), NoMemory>
    ensures { OnOk result (out.new ≡ out.old ++ procedure_parameter_facts answer.now name.now inner.now) }
{
    declare(alloc, *name, Kind::ProcParam(*answer), out)?;
    let params = plain(alloc, inner)?;
    specifies(alloc, name.at.token, *answer, params, out)
}

fn parameter(alloc: Global, parameter: &RawParam, out: &mut List<Fact>) -> Result<(), NoMemory>
    ensures { OnOk result (out.new ≡ out.old ++ parameter_facts parameter.now) }
{
    match parameter {
        RawParam::Value(_, scale, names) => declare_each(
            alloc,
            names.as_slice(),
            &Kind::Value(*scale),
            out,
        ),
        RawParam::Location(_, scale, names) => declare_each(
            alloc,
            names.as_slice(),
            &Kind::Location(*scale),
            out,
        ),
        RawParam::Array(scale, names) => declare_each(
            alloc,
            names.as_slice(),
            &Kind::ArrayParam(*scale),
            out,
        ),
        RawParam::Table(tree) => table_facts(alloc, &Kind::TableParam(tree.size), tree, out),
        RawParam::Label(_, names) => declare_each(alloc, names.as_slice(), &Kind::LabelParam, out),
        RawParam::Switch(_, names) => declare_each(
            alloc,
            names.as_slice(),
            &Kind::SwitchParam,
            out,
        ),
        RawParam::Proc(answer, _, name, inner) => {
            procedure_parameter(alloc, answer, name, inner.as_slice(), out)
        }
    }
}

pub(crate) fn parameters(
    alloc: Global,
    parameters: &[RawParam],
    out: &mut List<Fact>,
) -> Result<(), NoMemory>
    ensures { OnOk result (out.new ≡ out.old ++ parameters_facts parameters.now) }
{
    for one in parameters {
        parameter(alloc, one, out)?;
    }
    Ok(())
}

/// ANSWER as a name, where it stands.
pub fn answer_name(at: Position) -> RawName
    ensures { result ≡ answer_name at }
{
    RawName {
        at,
        name: answer_word(),
    }
}

fn answer_word() -> Name
    ensures { result ≡ codes "ANSWER" }
{
    match Name::new(b"ANSWER") {
        Some(name) => name,
        None => unreachable!(),
    }
}

fn type_position(scale: &RawType) -> Position
    ensures { result ≡ type_position scale.now }
{
    match scale {
        RawType::Integer(at) => *at,
        RawType::Fixed(at, _, _) => *at,
    }
}

pub(crate) fn answer(
    alloc: Global,
    answer: &Option<RawType>,
    out: &mut List<Fact>,
) -> Result<(), NoMemory>
    ensures { OnOk result (out.new ≡ out.old ++ answer_facts answer.now) }
{
    match answer {
        None => Ok(()),
        Some(scale) => {
            let name = answer_name(type_position(scale));
            declare(alloc, name, Kind::Answer(*scale), out)
        }
    }
}
