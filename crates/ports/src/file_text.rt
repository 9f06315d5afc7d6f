ghost use Rattle.std.specs.Prelude.{List, ℕ};
ghost use Rattle.std.specs.String.{string_bytes};

use crate::named::Named;

/// A file by its name and its bytes.
#[derive(Debug, PartialEq, Eq, Drop)]
pub struct FileText {
    pub name: String,
    pub bytes: Vec<u8>,
}

impl Named for FileText {
    ghost key = { λ f. string_bytes f.name };

    fn name(&self) -> &str {
        self.name.as_str()
    }
}
