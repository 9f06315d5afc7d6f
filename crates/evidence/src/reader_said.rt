//! What a line says of the claims.

use crate::reader_due::Statement;
use crate::reader_lines::EqualLine;

/// What a line says of the claims.
#[derive(Debug, Drop)]
pub(crate) enum Said {
    /// Nothing yet.
    Nothing,
    /// It is the last line of the second model.
    Models,
    /// It is the line of the parts.
    Parts(EqualLine),
    /// It is a line after that.
    Line(Statement),
}
