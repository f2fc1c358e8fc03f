//! Procedures, and the specifications of procedure parameters.
ghost use Rattle.std.specs.Prelude.{◌≡◌, Some, None, MatchOption};
ghost use Rattle.cw_depth.specs.CallGraph.{spec_in, procedure_at, parameter_of};

use crate::node::Node;
use cw_unit::descriptor::Spec;
use cw_unit::unit::{Param, Proc, Unit};

/// A procedure of the program, if it is there.
pub(crate) fn procedure_at(units: &[Unit], segment: usize, number: usize) -> Option<&Proc>
    ensures { MatchOption result (procedure_at units.now segment number ≡ None) (λ p. procedure_at units.now segment number ≡ Some p.now) }
{
    match units.get(segment) {
        Some(unit) => unit.procs.as_slice().get(number),
        None => None,
    }
}

fn spec_in(control: u8, parameters: &[Param]) -> Option<&Spec>
    ensures { MatchOption result (spec_in control parameters.now ≡ None) (λ s. spec_in control parameters.now ≡ Some s.now) }
{
    for parameter in parameters {
        if let Param::Proc(number, spec) = parameter {
            if *number == control {
                return Some(spec);
            }
        }
    }
    None
}

/// The specification of a parameter of a node.
pub(crate) fn parameter_of(units: &[Unit], node: Node, control: u8) -> Option<&Spec>
    ensures { MatchOption result (parameter_of units.now node control ≡ None) (λ s. parameter_of units.now node control ≡ Some s.now) }
{
    match node {
        Node::Body(_) => None,
        Node::Procedure(segment, number) => {
            match procedure_at(units, segment as usize, number as usize) {
                Some(procedure) => spec_in(control, procedure.params.as_slice()),
                None => None,
            }
        }
    }
}
