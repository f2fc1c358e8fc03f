//! The relocatable code of units, made again: their objects hold it, as bytes.
ghost use Rattle.std.specs.Prelude.{◌≡◌, IfOk, map, All};
ghost use Rattle.cw_unit.specs.Storage.{layout_of};
ghost use Rattle.cw_list.specs.Rows.{layouts_of};
ghost use Rattle.cw_build.specs.Compiled.{IsCompilable, code_of};

use cw_assemble::assemble;
use cw_built::laws::coded;
use cw_gen_unit::orders;
use cw_tmpl::Code;
use cw_unit::layout::Layout;
use cw_unit::unit::Unit;
use cw_word::{List, NoMemory};
use std::alloc::Global;

// The code of a unit.
fn unit_code(alloc: Global, unit: &Unit, layout: &Layout) -> Result<Code, NoMemory>
    requires compiled { IsCompilable unit.now }
    requires layout { layout.now ≡ layout_of unit.now }
    ensures { IfOk result (λ code. code ≡ code_of unit.now) }
{
    coded();
    let orders = orders(alloc, unit, layout)?;
    assemble(alloc, &orders)
}

/// The code of each unit.
pub(crate) fn unit_codes(
    alloc: Global,
    units: &[Unit],
    layouts: &[Layout],
) -> Result<List<Code>, NoMemory>
    requires compiled { All IsCompilable units.now }
    requires layouts { layouts.now ≡ layouts_of units.now }
    ensures { IfOk result (λ codes. codes ≡ map code_of units.now) }
{
    let mut codes = List::new(alloc);
    for k in 0..units.len() {
        let code = unit_code(alloc, &units[k], &layouts[k])?;
        codes.push(code)?;
    }
    Ok(codes)
}
