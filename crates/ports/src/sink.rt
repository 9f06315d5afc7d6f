ghost use Rattle.std.specs.Prelude.{ℕ, List, Option, IfOk};
ghost use Rattle.ports.specs.Causes.{HasCause};
ghost use Rattle.ports.specs.Contents.{Tells, TakesSome, Appends, AppendsAll};
ghost use Rattle.ports.specs.declared.fault.PortFault.TheVariants as fault;

use crate::fault::PortFault;

/// Where bytes go out, one after another.
pub trait Sink {
    /// The bytes that it holds, where it tells them.
    ghost told: { Self → Option (List ℕ) };

    /// How many faults it has had.
    ghost faults: { Self → ℕ };

    /// Appends the front of a piece, and answers how many bytes of it.
    fn write(&mut self, piece: &[u8]) -> Result<usize, PortFault>
        ensures taken { IfOk result (TakesSome piece.now) }
        ensures bytes { Tells (told self.old) (told self.new) (Appends piece.now result) }
        ensures cause { HasCause fault.Failed (faults self.old) (faults self.new) result };
}

/// Appends all the bytes. After a fault a front of them was appended, and not all.
pub fn write_all<S: Sink>(sink: &mut S, bytes: &[u8]) -> Result<(), PortFault>
    ensures bytes { Tells (S.told sink.old) (S.told sink.new) (AppendsAll bytes.now result) }
    ensures cause { HasCause fault.Failed (S.faults sink.old) (S.faults sink.new) result }
{
    let mut rest = bytes;
    while !rest.is_empty() {
        let count = sink.write(rest)?;
        rest = &rest[count..];
    }
    Ok(())
}
