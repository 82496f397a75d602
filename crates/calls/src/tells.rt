// What the contract of pack_after tells, as a theorem; it has no code.
ghost use Rattle.calls.specs.Tells.{ListsTell};

use skyline::skylines::Skyline;

// Lists out of turn by their first call at fault, and a list that leaves the walk records of loads.
pub fn lists_tell<S: Skyline>(_skyline: &S)
    ensures { ListsTell S.Skyline.meaning }
{}
