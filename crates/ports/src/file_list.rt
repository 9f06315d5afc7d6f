ghost use Rattle.std.specs.Prelude.{◌≡◌, ◌≤◌, [], ◌∷◌, ◌++◌, map, Some, IsSome, OnOk, OnErr};
ghost use Rattle.std.specs.Option.{option_copied};
ghost use Rattle.std.specs.String.{string_bytes};
ghost use Rattle.ports.specs.Contents.{SameOtherFiles};
ghost use Rattle.ports.specs.DeskState.{named, files_in, room_in};
ghost use Rattle.ports.specs.DeskSteps.{Extends};

use crate::file_text::FileText;
use crate::named::position_of;
use std::alloc::{AllocError, Global};

/// The bytes of a file, where it is there.
pub(crate) fn bytes_of<'a>(files: &'a [FileText], name: &str) -> Option<&'a [u8]>
    ensures { option_copied result ≡ files_in files.now name.now }
{
    let place = position_of(files, name)?;
    Some(files[place].bytes.as_slice())
}

/// Makes a file empty, or adds an empty one.
pub(crate) fn empty_file(
    files: &mut Vec<FileText>,
    alloc: Global,
    name: &str,
) -> Result<(), AllocError>
    ensures others { SameOtherFiles name.now (files_in files.old.items) (files_in files.new.items) }
    ensures emptied { OnOk result (files_in files.new.items name.now ≡ Some []) }
    ensures err { OnErr result (files.new.items ≡ files.old.items) }
{
    match position_of(files.as_slice(), name) {
        Some(place) => files[place].bytes.clear(),
        None => add_file(files, alloc, name, Vec::new(alloc))?,
    }
    Ok(())
}

/// Adds bytes to the end of a file, or adds a file of them.
pub(crate) fn extend_file(
    files: &mut Vec<FileText>,
    alloc: Global,
    name: &str,
    piece: &[u8],
) -> Result<(), AllocError>
    ensures { Extends files.old.items files.new.items name.now piece.now result }
{
    match position_of(files.as_slice(), name) {
        Some(place) => files[place].bytes.extend_from_slice(piece)?,
        None => {
            let bytes = Vec::from_slice(alloc, piece)?;
            add_file(files, alloc, name, bytes)?;
        }
    }
    Ok(())
}

/// Makes room for more bytes in a file.
pub(crate) fn reserve_in(
    files: &mut Vec<FileText>,
    name: &str,
    more: usize,
) -> Result<(), AllocError>
    requires { IsSome (files_in files.old.items name.now) }
    ensures room { OnOk result (more ≤ room_in files.new.items name.now) }
    ensures kept { room_in files.old.items name.now ≤ room_in files.new.items name.now }
    ensures same { map named files.new.items ≡ map named files.old.items }
{
    match position_of(files.as_slice(), name) {
        Some(place) => files[place].bytes.reserve(more),
        None => unreachable!(),
    }
}

/// Adds a file at the end.
fn add_file(
    files: &mut Vec<FileText>,
    alloc: Global,
    name: &str,
    bytes: Vec<u8>,
) -> Result<(), AllocError>
    ensures ok { OnOk result ((f : _) × (files.new.items ≡ files.old.items ++ f ∷ [])
        × (string_bytes f.name ≡ name.now) × (f.bytes ≡ bytes)) }
    ensures err { OnErr result (files.new.items ≡ files.old.items) }
{
    let name = String::from_str(alloc, name)?;
    files.push(FileText { name, bytes })?;
    Ok(())
}
