//! From a unit to its object.
ghost use Rattle.std.specs.Prelude.{IfOk};
ghost use Rattle.cw_build.specs.Compiled.{IsCompilable};
ghost use Rattle.cw_build.specs.Building.{IsMadeOf};

use crate::made::Made;
use cw_assemble::assemble;
use cw_built::laws::{built_units, coded};
use cw_gen_unit::orders;
use cw_layout::layout;
use cw_need::unit_need;
use cw_obj::write_object;
use cw_unit::unit::Unit;
use cw_word::{List, NoMemory};
use std::alloc::Global;

/// Compiles a unit that can be compiled: layout, orders, code, object.
pub fn compile(alloc: Global, unit: &Unit) -> Result<Made, NoMemory>
    requires { IsCompilable unit.now }
    ensures { IfOk result (IsMadeOf unit.now) }
{
    built_units();
    coded();
    let layout = layout(alloc, unit)?;
    let orders = orders(alloc, unit, &layout)?;
    let code = assemble(alloc, &orders)?;
    let need = unit_need(unit);
    let statements = code.statements.as_slice();
    let bytes = write_object(alloc, unit, &layout, &code, need, statements)?;
    let object = List::of(bytes);
    Ok(Made { layout, object })
}
