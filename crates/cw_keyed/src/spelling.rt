//! Specifications spelled in numbers.
ghost use Rattle.std.specs.Prelude.{◌≡◌, ◌++◌, map, OnOk};
ghost use Rattle.cw_keyed.specs.Spelling.{spelled_scale, spelled_table, spelled_answer, spelled_taken, spelled, ended, taken_by, spec_of};

use cw_unit::descriptor::{Scale, Spec, SpecParam};
use cw_unit::unit::{Param, Proc};
use cw_word::{List, NoMemory};

fn add_scale(out: &mut List<u16>, number: u16, scale: Scale) -> Result<(), NoMemory>
    ensures { OnOk result (out.new ≡ out.old ++ spelled_scale number scale) }
{
    out.push(number)?;
    out.push(scale.t as u16)?;
    out.push(scale.f as u16)
}

fn add_answer(out: &mut List<u16>, answer: Option<Scale>) -> Result<(), NoMemory>
    ensures { OnOk result (out.new ≡ out.old ++ spelled_answer answer) }
{
    match answer {
        None => out.push(0),
        Some(scale) => add_scale(out, 1, scale),
    }
}

fn add_table(out: &mut List<u16>, width: u16) -> Result<(), NoMemory>
    ensures { OnOk result (out.new ≡ out.old ++ spelled_table width) }
{
    out.push(4)?;
    out.push(width)
}

/// Of a specification.
#[cycle(spelling)]
#[tactic(auto, using(crate::proofs::Layers::layers))]
pub(crate) fn add_spec(out: &mut List<u16>, spec: &Spec) -> Result<(), NoMemory>
    ensures { OnOk result (out.new ≡ out.old ++ spelled spec.now) }
{
    add_answer(out, spec.answer)?;
    add_all_taken(out, spec.params.as_slice())
}

#[cycle(spelling)]
fn add_all_taken(out: &mut List<u16>, all: &[SpecParam]) -> Result<(), NoMemory>
    ensures { OnOk result (out.new ≡ out.old ++ ended (map spelled_taken all.now)) }
{
    for taken in all {
        add_taken(out, taken)?;
    }
    out.push(0)
}

#[cycle(spelling)]
#[tactic(auto, using(crate::proofs::Layers::layers))]
fn add_taken(out: &mut List<u16>, taken: &SpecParam) -> Result<(), NoMemory>
    ensures { OnOk result (out.new ≡ out.old ++ spelled_taken taken.now) }
{
    match taken {
        SpecParam::Value(scale) => add_scale(out, 1, *scale),
        SpecParam::Location(scale) => add_scale(out, 2, *scale),
        SpecParam::Array(scale) => add_scale(out, 3, *scale),
        SpecParam::Table(width) => add_table(out, *width),
        SpecParam::Label => out.push(5),
        SpecParam::Switch => out.push(6),
        SpecParam::Proc(spec) => {
            out.push(7)?;
            add_spec(out, spec)
        }
    }
}

// Of what a parameter takes.
#[tactic(auto, using(crate::proofs::Layers::layers))]
fn add_parameter(out: &mut List<u16>, parameter: &Param) -> Result<(), NoMemory>
    ensures { OnOk result (out.new ≡ out.old ++ spelled_taken (taken_by parameter.now)) }
{
    match parameter {
        Param::Value(_, scale) => add_scale(out, 1, *scale),
        Param::Location(_, scale) => add_scale(out, 2, *scale),
        Param::Array(_, scale) => add_scale(out, 3, *scale),
        Param::Table(_, width) => add_table(out, *width),
        Param::Label(_) => out.push(5),
        Param::Switch(_) => out.push(6),
        Param::Proc(_, spec) => {
            out.push(7)?;
            add_spec(out, spec)
        }
    }
}

fn add_parameters(out: &mut List<u16>, parameters: &[Param]) -> Result<(), NoMemory>
    ensures { OnOk result (out.new ≡ out.old ++ ended (map spelled_taken (map taken_by parameters.now))) }
{
    for parameter in parameters {
        add_parameter(out, parameter)?;
    }
    out.push(0)
}

/// Of the specification that a procedure has.
#[tactic(auto, using(crate::proofs::Layers::layers))]
pub(crate) fn add_procedure(out: &mut List<u16>, procedure: &Proc) -> Result<(), NoMemory>
    ensures { OnOk result (out.new ≡ out.old ++ spelled (spec_of procedure.now)) }
{
    add_answer(out, procedure.answer)?;
    add_parameters(out, procedure.params.as_slice())
}
