ghost use Rattle.std.specs.Prelude.{IsTrue};

/// A place that each of two sides passes before it works. What it answers has no meaning for results.
pub trait Gate {
    fn meet(&self, who: u8) -> bool;
}

/// A gate at which nobody waits.
#[derive(Clone, Copy, Debug, PartialEq, Eq)]
pub struct OpenGate;

impl Gate for OpenGate {
    /// Answers true at once.
    fn meet(&self, _who: u8) -> bool
        ensures { IsTrue result }
    {
        true
    }
}
