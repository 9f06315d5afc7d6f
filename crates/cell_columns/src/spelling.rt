//! How numbers and names are written.

ghost use Rattle.std.specs.Prelude.{◌≡◌, ◌++◌, decimal, OnOk};
ghost use Rattle.hll_tree.specs.Printing.{name_text};

use hll_lexer::is_plain_name;
use itoa::Buffer;
use std::alloc::AllocError;

pub(crate) fn push_number(out: &mut Vec<u8>, number: u64) -> Result<(), AllocError>
    ensures { OnOk result (out.new.items ≡ out.old.items ++ decimal number) }
{
    let mut buffer = Buffer::new();
    out.extend_from_slice(buffer.format(number).as_bytes())
}

/// Appends a name, in quotes where it isn't plain.
pub(crate) fn push_name(out: &mut Vec<u8>, name: &[u8]) -> Result<(), AllocError>
    ensures { OnOk result (out.new.items ≡ out.old.items ++ name_text name.now) }
{
    if is_plain_name(name) {
        out.extend_from_slice(name)
    } else {
        out.extend_from_slice(b"'")?;
        out.extend_from_slice(name)?;
        out.extend_from_slice(b"'")
    }
}
