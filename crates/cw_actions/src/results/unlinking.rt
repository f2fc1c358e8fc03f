// What does not link.
ghost use Rattle.std.specs.Prelude.{◌≡◌};
ghost use Rattle.cw_actions.specs.Resulting.Results.{unlinked_status};

use cw_say::{LinkFault, Status};

/// What the call comes to.
pub fn unlinked(fault: LinkFault) -> Status
    ensures { result ≡ unlinked_status fault }
{
    match fault {
        LinkFault::NoMemory => Status::NoMemory,
        _ => Status::Unlinked(fault),
    }
}
