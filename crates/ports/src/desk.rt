ghost use Rattle.std.specs.Prelude.{ℕ, ◌^◌, ◌<◌, ◌≤◌, List, Option, length, IfOk};
ghost use Rattle.ports.specs.Causes.{Counts, HasCause, SameCounts, SameOtherCounts};
ghost use Rattle.ports.specs.Contents.{Files, Tells, TakesSome, Reads, Gives, Puts, PutsAll, Begins, ReadsText, GotText, SameFiles, SameOtherFiles};
ghost use Rattle.ports.specs.declared.fault.PortFault.TheVariants as fault;
ghost use Rattle.ports.specs.declared.fault.ReadFault.TheVariants as reading;

use crate::fault::{PortFault, ReadFault};
use std::alloc::Global;

/// Files by name.
pub trait Desk {
    /// The files that it holds, where it tells them.
    ghost told: { Self → Option Files };

    /// How many reads of a file have failed.
    ghost read_faults: { Self → Counts };

    /// How many writes to a file have failed.
    ghost write_faults: { Self → Counts };

    /// How many bytes of a file it has given.
    ghost given: { Self → Counts };

    /// Reads a file's bytes from a place on to the front of the buffer, and answers how many.
    /// A file that isn't there is a fault.
    fn get(&mut self, name: &str, at: u64, into: &mut [u8]) -> Result<usize, PortFault>
        ensures within { IfOk result (λ n. n ≤ length into.new) }
        ensures bytes { Tells (told self.old) (told self.new) (λ before now.
            SameFiles before now × IfOk result (Reads (before name.now) at into.new)) }
        ensures given { Gives result (given self.old name.now) (given self.new name.now) }
        ensures other_given { SameOtherCounts name.now (given self.old) (given self.new) }
        ensures cause { HasCause fault.Failed (read_faults self.old name.now) (read_faults self.new name.now) result }
        ensures other_reads { SameOtherCounts name.now (read_faults self.old) (read_faults self.new) }
        ensures writes { SameCounts (write_faults self.old) (write_faults self.new) };

    /// Makes the named file empty.
    fn begin(&mut self, name: &str) -> Result<(), PortFault>
        ensures bytes { Tells (told self.old) (told self.new) (λ before now.
            SameOtherFiles name.now before now × Begins result (before name.now) (now name.now)) }
        ensures cause { HasCause fault.Failed (write_faults self.old name.now) (write_faults self.new name.now) result }
        ensures other_writes { SameOtherCounts name.now (write_faults self.old) (write_faults self.new) }
        ensures reads { SameCounts (read_faults self.old) (read_faults self.new) }
        ensures given { SameCounts (given self.old) (given self.new) };

    /// Appends the front of a piece to a file, and answers how many bytes of it. A file that isn't there is made.
    fn put(&mut self, name: &str, piece: &[u8]) -> Result<usize, PortFault>
        ensures taken { IfOk result (TakesSome piece.now) }
        ensures bytes { Tells (told self.old) (told self.new) (λ before now.
            SameOtherFiles name.now before now × Puts piece.now result (before name.now) (now name.now)) }
        ensures cause { HasCause fault.Failed (write_faults self.old name.now) (write_faults self.new name.now) result }
        ensures other_writes { SameOtherCounts name.now (write_faults self.old) (write_faults self.new) }
        ensures reads { SameCounts (read_faults self.old) (read_faults self.new) }
        ensures given { SameCounts (given self.old) (given self.new) };
}

/// How many bytes `read_text` asks for at a time.
const CHUNK: usize = 4096;

/// Reads the whole file, of at most `limit` bytes. It asks for at most 4,096 bytes at a time, and for none
/// past the first `limit + 1`; it stops at these, or at the first `get` that gives nothing.
pub fn read_text<D: Desk>(
    alloc: Global,
    desk: &mut D,
    name: &str,
    limit: u64,
) -> Result<Vec<u8>, ReadFault>
    requires { limit < 2 ^ 63 }
    ensures within { IfOk result (λ text. length text.items ≤ limit) }
    ensures bytes { Tells (D.told desk.old) (D.told desk.new) (λ before now.
        SameFiles before now × ReadsText (before name.now) limit result) }
    ensures given { GotText limit result (D.given desk.old name.now) (D.given desk.new name.now) }
    ensures other_given { SameOtherCounts name.now (D.given desk.old) (D.given desk.new) }
    ensures cause { HasCause reading.Failed (D.read_faults desk.old name.now) (D.read_faults desk.new name.now) result }
    ensures other_reads { SameOtherCounts name.now (D.read_faults desk.old) (D.read_faults desk.new) }
    ensures writes { SameCounts (D.write_faults desk.old) (D.write_faults desk.new) }
{
    let mut text = Vec::new(alloc);
    let mut chunk = [0; CHUNK];
    while text.len() as u64 <= limit {
        let at = text.len() as u64;
        let room = (limit + 1 - at).min(CHUNK as u64);
        let buffer = &mut chunk[..room as usize];
        text.reserve(room as usize)?;
        let count = desk.get(name, at, buffer)?;
        if count == 0 {
            return Ok(text);
        }
        text.extend_from_slice(&buffer[..count])?;
    }
    Err(ReadFault::Long)
}

/// Appends all the bytes to a file, by one `put` at least, so that the file is there afterwards.
pub fn put_all<D: Desk>(desk: &mut D, name: &str, bytes: &[u8]) -> Result<(), PortFault>
    ensures bytes { Tells (D.told desk.old) (D.told desk.new) (λ before now.
        SameOtherFiles name.now before now × PutsAll bytes.now result (before name.now) (now name.now)) }
    ensures cause { HasCause fault.Failed (D.write_faults desk.old name.now) (D.write_faults desk.new name.now) result }
    ensures other_writes { SameOtherCounts name.now (D.write_faults desk.old) (D.write_faults desk.new) }
    ensures reads { SameCounts (D.read_faults desk.old) (D.read_faults desk.new) }
    ensures given { SameCounts (D.given desk.old) (D.given desk.new) }
{
    let first = desk.put(name, bytes)?;
    let mut rest = &bytes[first..];
    while !rest.is_empty() {
        let count = desk.put(name, rest)?;
        rest = &rest[count..];
    }
    Ok(())
}
