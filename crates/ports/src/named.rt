ghost use Rattle.std.specs.Prelude.{◌≡◌, ◌<◌, ℕ, List, length, IfSome};
ghost use Rattle.ports.specs.Named.{IsPlaceOf};

/// An entry of a list that has a name.
pub(crate) trait Named {
    /// The bytes of its name.
    ghost key: { Self → List ℕ };

    fn name(&self) -> &str
        ensures { result.now ≡ key self.now };
}

/// The place of the first entry of a name.
pub(crate) fn position_of<E: Named>(entries: &[E], name: &str) -> Option<usize>
    ensures place { IsPlaceOf E.key entries.now name.now result }
    ensures within { IfSome result (λ place. place < length entries.now) }
{
    for (place, entry) in entries.iter().enumerate() {
        if entry.name() == name {
            return Some(place);
        }
    }
    None
}
