ghost use Rattle.std.specs.Prelude.{◌≡◌};
ghost use Rattle.ports.specs.Faults.{read_fault_of};
ghost use Rattle.ports.specs.declared.fault.PortFault.TheVariants as port;
ghost use Rattle.ports.specs.declared.fault.ReadFault.TheVariants as reading;

use std::alloc::AllocError;
use thiserror::Error;

/// Why a port did not do what it was asked.
#[derive(Clone, Copy, Debug, PartialEq, Eq, Error)]
pub enum PortFault {
    /// The device failed, and the port counted it.
    #[error("the device failed")]
    Failed,
    #[error("out of memory")]
    Memory,
}

impl From<AllocError> for PortFault {
    ghost from_gives = { λ _ fault. fault ≡ port.Memory };

    fn from(_error: AllocError) -> PortFault {
        PortFault::Memory
    }
}

/// Why a file could not be read whole.
#[derive(Clone, Copy, Debug, PartialEq, Eq, Error)]
pub enum ReadFault {
    /// A read failed, and the desk counted it for this file.
    #[error("the file could not be read")]
    Failed,
    /// The file has more bytes than the caller takes.
    #[error("the file is too long")]
    Long,
    #[error("out of memory")]
    Memory,
}

impl From<PortFault> for ReadFault {
    ghost from_gives = { λ fault read. read ≡ read_fault_of fault };

    fn from(fault: PortFault) -> ReadFault {
        match fault {
            PortFault::Failed => ReadFault::Failed,
            PortFault::Memory => ReadFault::Memory,
        }
    }
}

impl From<AllocError> for ReadFault {
    ghost from_gives = { λ _ fault. fault ≡ reading.Memory };

    fn from(_error: AllocError) -> ReadFault {
        ReadFault::Memory
    }
}
