//! The words of control stack that the bodies of a unit need.
ghost use Rattle.std.specs.Prelude.{◌≡◌, ◌<◌};
ghost use Rattle.cw_unit.specs.StackBound.{body_need, procedures_need, unit_need};
ghost use Rattle.cw_need.specs.Told.{told};

use crate::statements::body_depth;
use cw_unit::unit::{Proc, Stmt, Unit};

/// As many words as are told.
const MOST: u32 = 65_536;

/// The words of the activation record of a body with so many control parameters.
fn body_need(controls: u8, body: &Stmt) -> u32
    ensures { result ≡ told (body_need controls body.now) }
{
    let depth = body_depth(body).min(MOST);
    (8 + 3 * u32::from(controls) + 2 * depth).min(MOST)
}

/// The largest of those of procedures.
fn procedures_need(procedures: &[Proc]) -> u32
    ensures { result ≡ told (procedures_need procedures.now) }
{
    let mut most = 0;
    for procedure in procedures {
        most = body_need(procedure.specials, &procedure.body).max(most);
    }
    most
}

/// The words of the largest activation record of a unit's bodies, where they fit a word.
pub fn unit_need(unit: &Unit) -> u16
    requires { unit_need unit.now < 65536 }
    ensures { result ≡ unit_need unit.now }
{
    body_need(0, &unit.body).max(procedures_need(unit.procs.as_slice())) as u16
}
