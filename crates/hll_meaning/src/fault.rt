/// What a static rule finds wrong with a text.
#[derive(Clone, Copy, Debug, PartialEq, Eq)]
pub enum StaticKind {
    /// A name isn't declared, or a struct has no such field.
    Unknown,
    /// A name is declared, or a part is defined, a second time.
    Twice,
    /// A name of another kind stands there.
    Kind,
    /// An expression has the wrong type.
    Mismatch,
    /// Bounds out of order, a dimension or size out of range, or a division by zero in a constant.
    Range,
    /// A constant is needed.
    Constant,
    /// A range is wide.
    Wide,
    /// Too many index names, or lists of different lengths.
    Shape,
    /// Too many cells or levels.
    Cells,
    /// A variable isn't defined.
    Undefined,
    /// A memory has no first value.
    FirstMissing,
}
