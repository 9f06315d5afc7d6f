ghost use Rattle.std.specs.Prelude.{◌≡◌, ◌≤◌, length};
ghost use Rattle.hll_lexer.specs.Place.{place_of};

/// Where a byte stands: its line, and its column in bytes, both counted from 1.
#[derive(Clone, Copy, Debug, PartialEq, Eq)]
pub struct LineColumn {
    pub line: u64,
    pub column: u64,
}

/// The line and column of a byte offset.
pub fn place(text: &[u8], at: usize) -> LineColumn
    requires { at ≤ length text.now }
    ensures { result ≡ place_of text.now at }
{
    place_from(text, 0, LineColumn { line: 1, column: 1 }, at)
}

/// The line and column of a byte offset, from those of an earlier one: it reads only the bytes between the two.
pub fn place_from(text: &[u8], from: usize, start: LineColumn, at: usize) -> LineColumn
    requires order { from ≤ at }
    requires within { at ≤ length text.now }
    requires start { start ≡ place_of text.now from }
    ensures { result ≡ place_of text.now at }
{
    let mut here = start;
    for byte in &text[from..at] {
        if *byte == b'\n' {
            here.line += 1;
            here.column = 1;
        } else {
            here.column += 1;
        }
    }
    here
}
