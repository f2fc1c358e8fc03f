//! The nodes of a program by numbers.
ghost use Rattle.std.specs.Prelude.{◌≡◌, ℕ, ◌+◌, ◌<◌, ◌≤◌, ◌++◌, length, slice_index, IfOk, OnOk};
ghost use Rattle.cw_depth.specs.Numbering.{AreFew, bodies_from, procedures_in, procedures_from, nodes_of};
ghost use Rattle.cw_depth.specs.Building.{AreFirsts};

use crate::node::Node;
use cw_unit::unit::{Proc, Unit};
use cw_word::{List, NoMemory};
use std::alloc::Global;

fn add_bodies(nodes: &mut List<Node>, units: &[Unit]) -> Result<(), NoMemory>
    requires { length units.now ≤ 200 }
    ensures { OnOk result (nodes.new ≡ nodes.old ++ bodies_from 0 units.now) }
{
    for (segment, _) in units.iter().enumerate() {
        nodes.push(Node::Body(segment as u8))?;
    }
    Ok(())
}

fn add_segment(nodes: &mut List<Node>, segment: u8, procedures: &[Proc]) -> Result<(), NoMemory>
    requires { length procedures.now ≤ 65536 }
    ensures { OnOk result (nodes.new ≡ nodes.old ++ procedures_in segment 0 procedures.now) }
{
    for (number, _) in procedures.iter().enumerate() {
        nodes.push(Node::Procedure(segment, number as u16))?;
    }
    Ok(())
}

fn add_procedures(nodes: &mut List<Node>, units: &[Unit]) -> Result<(), NoMemory>
    requires { AreFew units.now }
    ensures { OnOk result (nodes.new ≡ nodes.old ++ procedures_from 0 units.now) }
{
    for (segment, unit) in units.iter().enumerate() {
        add_segment(nodes, segment as u8, unit.procs.as_slice())?;
    }
    Ok(())
}

/// All nodes in order of their numbers.
pub(crate) fn nodes_of(alloc: Global, units: &[Unit]) -> Result<List<Node>, NoMemory>
    requires { AreFew units.now }
    ensures { IfOk result (λ nodes. nodes ≡ nodes_of units.now) }
{
    let mut nodes = List::new(alloc);
    add_bodies(&mut nodes, units)?;
    add_procedures(&mut nodes, units)?;
    Ok(nodes)
}

/// The numbers of the first procedures of the segments.
pub(crate) fn first_numbers(alloc: Global, units: &[Unit]) -> Result<List<usize>, NoMemory>
    requires { AreFew units.now }
    ensures { IfOk result (λ firsts. AreFirsts units.now firsts) }
{
    let mut firsts = List::new(alloc);
    let mut next = units.len();
    for unit in units {
        firsts.push(next)?;
        next += unit.procs.as_slice().len();
    }
    Ok(firsts)
}
