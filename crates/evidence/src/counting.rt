//! How many instants a formula has.

ghost use Rattle.std.specs.Prelude.{◌≡◌, ◌+◌, ◌^◌, ◌<◌, ◌≤◌};
ghost use Rattle.evidence.specs.Accepted.{place_instants};

use kinduction::Spot;

/// The instants of the formula at a place.
pub(crate) fn instants_of_place(place: Spot) -> u32
    requires { place_instants place < 2 ^ 32 }
    ensures { result ≡ place_instants place }
{
    match place {
        Spot::Base(instant) => instant + 1,
        Spot::Step(round) => round + 1,
    }
}
