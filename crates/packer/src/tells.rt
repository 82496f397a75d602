// What the contract of pack tells, as a theorem; it has no code.
ghost use Rattle.packer.specs.Tells.{PackTells};

use skyline::skylines::Skyline;

// A plan with a present block, packed with no walk memory, is refused with 18, and nothing is altered.
pub fn pack_tells<S: Skyline>(_skyline: &S)
    ensures { PackTells S.Skyline.meaning }
{}
