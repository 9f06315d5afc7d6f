//! The file of a value.

ghost use Rattle.ports.specs.Causes.{HasCause, SameCounts, SameOtherCounts};
ghost use Rattle.ports.specs.Contents.{Tells, SameOtherFiles};
ghost use Rattle.ports.specs.declared.fault.PortFault.TheVariants as fault;
ghost use Rattle.evidence.specs.Spelling.{text};
ghost use Rattle.evidence.specs.Writing.{WritesFile};

use crate::Evidence;
use crate::sending::send_all;
use crate::unit::units_of;
use ports::{Desk, PortFault};
use std::alloc::Global;

/// Writes the text of a value to a file, in pieces of at most 65,536 bytes. After a fault the file is as before, or holds
/// a front of the text.
pub fn write_evidence<D: Desk>(
    alloc: Global,
    desk: &mut D,
    name: &str,
    e: &Evidence,
) -> Result<(), PortFault>
    ensures bytes { Tells (D.told desk.old) (D.told desk.new) (λ before now.
        SameOtherFiles name.now before now × WritesFile (text e.now) result (before name.now) (now name.now)) }
    ensures cause { HasCause fault.Failed (D.write_faults desk.old name.now) (D.write_faults desk.new name.now) result }
    ensures other_writes { SameOtherCounts name.now (D.write_faults desk.old) (D.write_faults desk.new) }
    ensures reads { SameCounts (D.read_faults desk.old) (D.read_faults desk.new) }
    ensures given { SameCounts (D.given desk.old) (D.given desk.new) }
{
    let units = units_of(alloc, e)?;
    desk.begin(name)?;
    send_all(alloc, desk, name, &units)
}
