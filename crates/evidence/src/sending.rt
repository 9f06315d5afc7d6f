//! Bytes on their way to a file, in pieces.

ghost use Rattle.std.specs.Prelude.{◌≡◌, ◌<◌, ◌≤◌, ◌++◌, [], length, take, codes, IfOk, OnOk};
ghost use Rattle.std.specs.List.{flat_map};
ghost use Rattle.ports.specs.Causes.{HasCause, SameCounts, SameOtherCounts};
ghost use Rattle.ports.specs.Contents.{Tells};
ghost use Rattle.ports.specs.declared.fault.PortFault.TheVariants as fault;
ghost use Rattle.evidence.specs.Spelling.{number_line, step_line, log_text};
ghost use Rattle.evidence.specs.Units.{unit_text};
ghost use Rattle.evidence.specs.Writing.{SendsTo};

use crate::lines::{put_number_line, put_step};
use crate::unit::Unit;
use ports::{Desk, PortFault, put_all};
use rup_checker::{Log, Step};
use std::alloc::{AllocError, Global};

/// How many bytes a piece has at most.
const PIECE: usize = 65_536;

/// Appends what is pending to the file.
pub(crate) fn flush<D: Desk>(
    desk: &mut D,
    name: &str,
    pending: &mut Vec<u8>,
) -> Result<(), PortFault>
    requires some { 0 < length pending.old.items }
    requires piece { length pending.old.items ≤ 65536 }
    ensures none { OnOk result (pending.new.items ≡ []) }
    ensures bytes { Tells (D.told desk.old) (D.told desk.new) (SendsTo name.now pending.old.items [] result pending.new.items) }
    ensures cause { HasCause fault.Failed (D.write_faults desk.old name.now) (D.write_faults desk.new name.now) result }
    ensures other_writes { SameOtherCounts name.now (D.write_faults desk.old) (D.write_faults desk.new) }
    ensures reads { SameCounts (D.read_faults desk.old) (D.read_faults desk.new) }
    ensures given { SameCounts (D.given desk.old) (D.given desk.new) }
{
    put_all(desk, name, pending)?;
    pending.clear();
    Ok(())
}

/// Appends what is pending to the file where it is a whole piece.
fn make_room<D: Desk>(desk: &mut D, name: &str, pending: &mut Vec<u8>) -> Result<(), PortFault>
    requires piece { length pending.old.items ≤ 65536 }
    ensures room { OnOk result (length pending.new.items < 65536) }
    ensures bytes { Tells (D.told desk.old) (D.told desk.new) (SendsTo name.now pending.old.items [] result pending.new.items) }
    ensures cause { HasCause fault.Failed (D.write_faults desk.old name.now) (D.write_faults desk.new name.now) result }
    ensures other_writes { SameOtherCounts name.now (D.write_faults desk.old) (D.write_faults desk.new) }
    ensures reads { SameCounts (D.read_faults desk.old) (D.read_faults desk.new) }
    ensures given { SameCounts (D.given desk.old) (D.given desk.new) }
{
    if pending.len() < PIECE {
        return Ok(());
    }
    flush(desk, name, pending)
}

/// Takes bytes into the piece, from the first on, as many as there is room for, and answers how many.
fn fill(pending: &mut Vec<u8>, bytes: &[u8]) -> Result<usize, AllocError>
    requires room { length pending.old.items < 65536 }
    ensures within { IfOk result (λ n. n ≤ length bytes.now) }
    ensures some { IfOk result (λ n. 0 < length bytes.now → 0 < n) }
    ensures items { IfOk result (λ n. pending.new.items ≡ pending.old.items ++ take n bytes.now) }
    ensures piece { OnOk result (length pending.new.items ≤ 65536) }
{
    let count = bytes.len().min(PIECE - pending.len());
    pending.extend_from_slice(&bytes[..count])?;
    Ok(count)
}

/// Sends bytes to the file: they join those that are pending, and whole pieces are appended to the file.
pub(crate) fn send<D: Desk>(
    desk: &mut D,
    name: &str,
    pending: &mut Vec<u8>,
    bytes: &[u8],
) -> Result<(), PortFault>
    requires piece { length pending.old.items ≤ 65536 }
    ensures piece { OnOk result (length pending.new.items ≤ 65536) }
    ensures bytes { Tells (D.told desk.old) (D.told desk.new) (SendsTo name.now pending.old.items bytes.now result pending.new.items) }
    ensures cause { HasCause fault.Failed (D.write_faults desk.old name.now) (D.write_faults desk.new name.now) result }
    ensures other_writes { SameOtherCounts name.now (D.write_faults desk.old) (D.write_faults desk.new) }
    ensures reads { SameCounts (D.read_faults desk.old) (D.read_faults desk.new) }
    ensures given { SameCounts (D.given desk.old) (D.given desk.new) }
{
    let mut rest = bytes;
    while !rest.is_empty() {
        make_room(desk, name, pending)?;
        let count = fill(pending, rest)?;
        rest = &rest[count..];
    }
    Ok(())
}

/// Sends the line of a step, which is made in `line`.
fn send_step<D: Desk>(
    desk: &mut D,
    name: &str,
    pending: &mut Vec<u8>,
    line: &mut Vec<u8>,
    step: &Step,
) -> Result<(), PortFault>
    requires piece { length pending.old.items ≤ 65536 }
    ensures piece { OnOk result (length pending.new.items ≤ 65536) }
    ensures bytes { Tells (D.told desk.old) (D.told desk.new) (SendsTo name.now pending.old.items (step_line step.now) result pending.new.items) }
    ensures cause { HasCause fault.Failed (D.write_faults desk.old name.now) (D.write_faults desk.new name.now) result }
    ensures other_writes { SameOtherCounts name.now (D.write_faults desk.old) (D.write_faults desk.new) }
    ensures reads { SameCounts (D.read_faults desk.old) (D.read_faults desk.new) }
    ensures given { SameCounts (D.given desk.old) (D.given desk.new) }
{
    line.clear();
    put_step(line, step)?;
    send(desk, name, pending, line)
}

/// Sends the lines of steps.
fn send_steps<D: Desk>(
    alloc: Global,
    desk: &mut D,
    name: &str,
    pending: &mut Vec<u8>,
    steps: &[Step],
) -> Result<(), PortFault>
    requires piece { length pending.old.items ≤ 65536 }
    ensures piece { OnOk result (length pending.new.items ≤ 65536) }
    ensures bytes { Tells (D.told desk.old) (D.told desk.new) (SendsTo name.now pending.old.items (flat_map step_line steps.now) result pending.new.items) }
    ensures cause { HasCause fault.Failed (D.write_faults desk.old name.now) (D.write_faults desk.new name.now) result }
    ensures other_writes { SameOtherCounts name.now (D.write_faults desk.old) (D.write_faults desk.new) }
    ensures reads { SameCounts (D.read_faults desk.old) (D.read_faults desk.new) }
    ensures given { SameCounts (D.given desk.old) (D.given desk.new) }
{
    let mut line = Vec::new(alloc);
    for step in steps {
        send_step(desk, name, pending, &mut line, step)?;
    }
    Ok(())
}

/// Sends the line before the steps of a log.
fn send_log_line<D: Desk>(
    alloc: Global,
    desk: &mut D,
    name: &str,
    pending: &mut Vec<u8>,
    steps: usize,
) -> Result<(), PortFault>
    requires piece { length pending.old.items ≤ 65536 }
    ensures piece { OnOk result (length pending.new.items ≤ 65536) }
    ensures bytes { Tells (D.told desk.old) (D.told desk.new) (SendsTo name.now pending.old.items (number_line (codes "log") steps) result pending.new.items) }
    ensures cause { HasCause fault.Failed (D.write_faults desk.old name.now) (D.write_faults desk.new name.now) result }
    ensures other_writes { SameOtherCounts name.now (D.write_faults desk.old) (D.write_faults desk.new) }
    ensures reads { SameCounts (D.read_faults desk.old) (D.read_faults desk.new) }
    ensures given { SameCounts (D.given desk.old) (D.given desk.new) }
{
    let mut line = Vec::new(alloc);
    put_number_line(&mut line, b"log", steps)?;
    send(desk, name, pending, &line)
}

/// Sends the lines of a log.
fn send_log<D: Desk>(
    alloc: Global,
    desk: &mut D,
    name: &str,
    pending: &mut Vec<u8>,
    log: &Log,
) -> Result<(), PortFault>
    requires piece { length pending.old.items ≤ 65536 }
    ensures piece { OnOk result (length pending.new.items ≤ 65536) }
    ensures bytes { Tells (D.told desk.old) (D.told desk.new) (SendsTo name.now pending.old.items (log_text log.now) result pending.new.items) }
    ensures cause { HasCause fault.Failed (D.write_faults desk.old name.now) (D.write_faults desk.new name.now) result }
    ensures other_writes { SameOtherCounts name.now (D.write_faults desk.old) (D.write_faults desk.new) }
    ensures reads { SameCounts (D.read_faults desk.old) (D.read_faults desk.new) }
    ensures given { SameCounts (D.given desk.old) (D.given desk.new) }
{
    send_log_line(alloc, desk, name, pending, log.steps.len())?;
    send_steps(alloc, desk, name, pending, log.steps.as_slice())
}

/// Sends the lines of a unit.
fn send_unit<D: Desk>(
    alloc: Global,
    desk: &mut D,
    name: &str,
    pending: &mut Vec<u8>,
    unit: &Unit<'_>,
) -> Result<(), PortFault>
    requires piece { length pending.old.items ≤ 65536 }
    ensures piece { OnOk result (length pending.new.items ≤ 65536) }
    ensures bytes { Tells (D.told desk.old) (D.told desk.new) (SendsTo name.now pending.old.items (unit_text unit.now) result pending.new.items) }
    ensures cause { HasCause fault.Failed (D.write_faults desk.old name.now) (D.write_faults desk.new name.now) result }
    ensures other_writes { SameOtherCounts name.now (D.write_faults desk.old) (D.write_faults desk.new) }
    ensures reads { SameCounts (D.read_faults desk.old) (D.read_faults desk.new) }
    ensures given { SameCounts (D.given desk.old) (D.given desk.new) }
{
    match unit {
        Unit::Text(bytes) => send(desk, name, pending, bytes),
        Unit::Log(log) => send_log(alloc, desk, name, pending, log),
    }
}

/// Sends the lines of units.
fn send_units<D: Desk>(
    alloc: Global,
    desk: &mut D,
    name: &str,
    pending: &mut Vec<u8>,
    units: &[Unit<'_>],
) -> Result<(), PortFault>
    requires piece { length pending.old.items ≤ 65536 }
    ensures piece { OnOk result (length pending.new.items ≤ 65536) }
    ensures bytes { Tells (D.told desk.old) (D.told desk.new) (SendsTo name.now pending.old.items (flat_map unit_text units.now) result pending.new.items) }
    ensures cause { HasCause fault.Failed (D.write_faults desk.old name.now) (D.write_faults desk.new name.now) result }
    ensures other_writes { SameOtherCounts name.now (D.write_faults desk.old) (D.write_faults desk.new) }
    ensures reads { SameCounts (D.read_faults desk.old) (D.read_faults desk.new) }
    ensures given { SameCounts (D.given desk.old) (D.given desk.new) }
{
    for unit in units {
        send_unit(alloc, desk, name, pending, unit)?;
    }
    Ok(())
}

/// Sends the lines of units, and then what is pending.
pub(crate) fn send_all<D: Desk>(
    alloc: Global,
    desk: &mut D,
    name: &str,
    units: &[Unit<'_>],
) -> Result<(), PortFault>
    ensures bytes { Tells (D.told desk.old) (D.told desk.new) (SendsTo name.now [] (flat_map unit_text units.now) result []) }
    ensures cause { HasCause fault.Failed (D.write_faults desk.old name.now) (D.write_faults desk.new name.now) result }
    ensures other_writes { SameOtherCounts name.now (D.write_faults desk.old) (D.write_faults desk.new) }
    ensures reads { SameCounts (D.read_faults desk.old) (D.read_faults desk.new) }
    ensures given { SameCounts (D.given desk.old) (D.given desk.new) }
{
    let mut pending = Vec::new(alloc);
    send_units(alloc, desk, name, &mut pending, units)?;
    if pending.is_empty() {
        return Ok(());
    }
    flush(desk, name, &mut pending)
}
