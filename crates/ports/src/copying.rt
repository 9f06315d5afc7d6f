ghost use Rattle.std.specs.Prelude.{◌≡◌, ◌-◌, length, min, take, drop};

/// Copies bytes from a place on to the front of a buffer, as many as both have, and answers how many.
pub(crate) fn copy_from(bytes: &[u8], at: u64, into: &mut [u8]) -> usize
    ensures count { result ≡ min (length (drop at bytes.now)) (length into.old) }
    ensures copied { take result into.new ≡ take result (drop at bytes.now) }
{
    let start = bytes.len().min(at as usize);
    let rest = &bytes[start..];
    let count = rest.len().min(into.len());
    into[..count].copy_from_slice(&rest[..count]);
    count
}
