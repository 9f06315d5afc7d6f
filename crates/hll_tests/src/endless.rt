//! A file without an end.

ghost use Rattle.std.specs.Prelude.{None, codes, if◌then◌else◌};
ghost use Rattle.std.specs.Str.{bytes_eq};

use ports::{Desk, PortFault, ReadFault, read_text};
use std::test::Fail;

/// It gives what it is asked for of the file `m`, and counts it.
#[derive(Drop)]
struct EndlessDesk {
    given: u64,
    most: usize,
    end: u64,
}

impl Desk for EndlessDesk {
    ghost told = { λ _. None };

    ghost read_faults = { λ _ _. 0 };

    ghost write_faults = { λ _ _. 0 };

    ghost given = { λ d name. if bytes_eq name (codes "m") then d.given else 0 };

    fn get(&mut self, name: &str, at: u64, into: &mut [u8]) -> Result<usize, PortFault> {
        if name != "m" {
            return Err(PortFault::Memory);
        }
        self.given = self.given.saturating_add(into.len() as u64);
        self.most = self.most.max(into.len());
        self.end = self.end.max(at.saturating_add(into.len() as u64));
        Ok(into.len())
    }

    fn begin(&mut self, _name: &str) -> Result<(), PortFault> {
        Ok(())
    }

    fn put(&mut self, _name: &str, piece: &[u8]) -> Result<usize, PortFault> {
        Ok(piece.len())
    }
}

#[test]
fn a_file_without_end_is_left(rt: HostRuntime) -> Result<(), Fail> {
    for limit in [0, 4_095, 4_096, 10_000] {
        let mut desk = EndlessDesk {
            given: 0,
            most: 0,
            end: 0,
        };
        let read = read_text(rt.alloc(), &mut desk, "m", limit);
        assert!(rt; matches!(read, Err(ReadFault::Long)));
        assert_eq!(rt; desk.given, limit + 1);
        assert_eq!(rt; desk.end, limit + 1);
        assert!(rt; desk.most <= 4_096);
    }
    Ok(())
}
