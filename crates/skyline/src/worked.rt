// Code that is proved once for every skyline.
ghost use Rattle.skyline.specs.Worked.{Worked, WorkedFurther};

use crate::skylines::Skyline;
use rules::refusals::Refusal;

// The answers of the three calls below.
#[derive(Clone, Copy)]
pub struct Answers {
    pub over_edge: Result<u32, Refusal>,
    pub beside: Result<u32, Refusal>,
    pub too_low: Result<(), Refusal>,
}

// Clears a skyline, raises it from 2 to 4 to 5, asks the highest from 0 to 3 and from 0 to 2, and raises 3 to 5 to 4.
pub fn worked_case<S: Skyline>(skyline: &mut S) -> Answers
    ensures worked { Worked (S.Skyline.meaning skyline.old) (S.Skyline.meaning skyline.new) result }
    ensures further { WorkedFurther (S.Skyline.meaning skyline.old) (S.Skyline.meaning skyline.new) result }
{
    skyline.clear();
    let _ = skyline.raise(2, 4, 5);
    let over_edge = skyline.highest(0, 3);
    let beside = skyline.highest(0, 2);
    let too_low = skyline.raise(3, 5, 4);
    Answers {
        over_edge,
        beside,
        too_low,
    }
}
