//! How values and lines are printed.

ghost use Rattle.std.specs.Prelude.{◌≡◌, ◌++◌, List, ℕ, decimal, OnOk};
ghost use Rattle.std.specs.Fmt.{signed_decimal};
ghost use Rattle.hll_cli.specs.Lines.{truth_text, place_text, heading_text, totals_text};

use hll_lexer::LineColumn;
use itoa::Buffer;
use std::alloc::AllocError;

/// A value or a line that has a text.
pub(crate) trait Printed {
    ghost text: { Self → List ℕ };

    /// Appends its text.
    fn print(&self, out: &mut Vec<u8>) -> Result<(), AllocError>
        ensures { OnOk result (out.new.items ≡ out.old.items ++ text self.now) };
}

impl Printed for u64 {
    ghost text = { λ number. decimal number };

    fn print(&self, out: &mut Vec<u8>) -> Result<(), AllocError> {
        let mut buffer = Buffer::new();
        out.extend_from_slice(buffer.format(*self).as_bytes())
    }
}

impl Printed for i32 {
    ghost text = { λ number. signed_decimal number };

    fn print(&self, out: &mut Vec<u8>) -> Result<(), AllocError> {
        let mut buffer = Buffer::new();
        out.extend_from_slice(buffer.format(*self).as_bytes())
    }
}

impl Printed for bool {
    ghost text = { λ value. truth_text value };

    fn print(&self, out: &mut Vec<u8>) -> Result<(), AllocError> {
        let text = if *self { "true" } else { "false" };
        out.extend_from_slice(text.as_bytes())
    }
}

impl Printed for LineColumn {
    ghost text = { λ place. place_text place };

    #[tactic(auto, unfolding(crate::specs::Lines::place_text))]
    fn print(&self, out: &mut Vec<u8>) -> Result<(), AllocError> {
        self.line.print(out)?;
        out.extend_from_slice(b":")?;
        self.column.print(out)
    }
}

/// What stands before the verdict on an obligation.
#[derive(Clone, Copy, Debug)]
pub(crate) struct Heading {
    pub number: u64,
    pub place: LineColumn,
}

impl Printed for Heading {
    ghost text = { λ heading. heading_text heading.number heading.place };

    fn print(&self, out: &mut Vec<u8>) -> Result<(), AllocError> {
        out.extend_from_slice(b"obligation ")?;
        self.number.print(out)?;
        out.extend_from_slice(b" at ")?;
        self.place.print(out)?;
        out.extend_from_slice(b": ")?;
        Ok(())
    }
}

/// The last line of a report: how many obligations have each verdict.
#[derive(Clone, Copy, Debug)]
pub(crate) struct Totals {
    pub proved: u64,
    pub falsified: u64,
    pub undecided: u64,
}

impl Printed for Totals {
    ghost text = { λ totals. totals_text totals.proved totals.falsified totals.undecided };

    fn print(&self, out: &mut Vec<u8>) -> Result<(), AllocError> {
        out.extend_from_slice(b"proved ")?;
        self.proved.print(out)?;
        out.extend_from_slice(b" falsified ")?;
        self.falsified.print(out)?;
        out.extend_from_slice(b" undecided ")?;
        self.undecided.print(out)?;
        out.extend_from_slice(b"\n")?;
        Ok(())
    }
}
