//! A file that is read and checked.

ghost use Rattle.std.specs.Prelude.{[], option_map};
ghost use Rattle.ports.specs.Causes.{HasCause, SameCounts, SameOtherCounts};
ghost use Rattle.ports.specs.Contents.{Tells, SameFiles};
ghost use Rattle.evidence.specs.Checking.{ChecksFile};
ghost use Rattle.evidence.specs.Stands.{Stands, FeedsFile};
ghost use Rattle.evidence.specs.declared.fault.EvidenceFault.TheVariants as fault;

use crate::reader_feed::{Feed, LIMIT};
use crate::{EvidenceFault, Summary};
use ports::Desk;
use std::alloc::Global;

/// How many bytes are asked for at a time.
const CHUNK: usize = 4096;

/// Reads a file to its end, of at most 2^30 bytes, or one byte more than that.
fn feed_file<D: Desk>(
    alloc: Global,
    desk: &mut D,
    name: &str,
    feed: &mut Feed,
) -> Result<(), EvidenceFault>
    requires { Stands feed.old [] }
    ensures answer { FeedsFile feed.new (option_map (λ files. files name.now) (D.told desk.old)) (D.given desk.old name.now) (D.given desk.new name.now) result }
    ensures files { Tells (D.told desk.old) (D.told desk.new) SameFiles }
    ensures other_given { SameOtherCounts name.now (D.given desk.old) (D.given desk.new) }
    ensures cause { HasCause fault.Failed (D.read_faults desk.old name.now) (D.read_faults desk.new name.now) result }
    ensures other_reads { SameOtherCounts name.now (D.read_faults desk.old) (D.read_faults desk.new) }
    ensures writes { SameCounts (D.write_faults desk.old) (D.write_faults desk.new) }
{
    let mut chunk = [0; CHUNK];
    let mut at: u64 = 0;
    while at <= LIMIT {
        let room = (LIMIT + 1 - at).min(CHUNK as u64);
        let buffer = &mut chunk[..room as usize];
        let count = desk.get(name, at, buffer)?;
        if count == 0 {
            return Ok(());
        }
        feed.feed(alloc, &buffer[..count])?;
        at += count as u64;
    }
    Err(EvidenceFault::Long)
}

/// Reads a file of at most 2^30 bytes, at most 4,096 of them at a time, and checks its claims as their lines come. Of a
/// file that is longer it reads one byte more than that.
pub fn read_and_check<D: Desk>(
    alloc: Global,
    desk: &mut D,
    name: &str,
) -> Result<Summary, EvidenceFault>
    ensures answer { ChecksFile (option_map (λ files. files name.now) (D.told desk.old)) (D.given desk.old name.now) (D.given desk.new name.now) result }
    ensures files { Tells (D.told desk.old) (D.told desk.new) SameFiles }
    ensures other_given { SameOtherCounts name.now (D.given desk.old) (D.given desk.new) }
    ensures cause { HasCause fault.Failed (D.read_faults desk.old name.now) (D.read_faults desk.new name.now) result }
    ensures other_reads { SameOtherCounts name.now (D.read_faults desk.old) (D.read_faults desk.new) }
    ensures writes { SameCounts (D.write_faults desk.old) (D.write_faults desk.new) }
{
    let mut feed = Feed::new(alloc);
    feed_file(alloc, desk, name, &mut feed)?;
    feed.end(alloc)
}
