// What a call answered, or why it has no answer.
use packer::Extent;
use plan::Report;
use rules::placements::Placement;
use rules::refusals::Refusal;

#[derive(Clone, Copy)]
pub enum Answer {
    Loaded(usize),
    Allowed,
    Begun,
    BegunEmpty,
    Kept(u32),
    Undone(u32),
    Reported(Report),
    // C, R and r
    Skyline {
        columns: u32,
        raises: u32,
        left: u32,
    },
    Highest(u32),
    Packed(Extent),
    // a block's number and its record
    At(usize, Placement),
}

#[derive(Clone, Copy)]
pub enum Denial {
    Refused(Refusal),
    // the state of the plan does not allow the call
    NotAllowed,
}

impl From<Refusal> for Denial {
    ghost use Rattle.std.specs.Prelude.{◌≡◌};
    ghost use Rattle.session.specs.declared.answers.Denial.TheVariants.{Refused};

    ghost from_gives = { λ refusal denial. denial ≡ Refused refusal };

    fn from(refusal: Refusal) -> Denial {
        Denial::Refused(refusal)
    }
}

pub type Outcome = Result<Answer, Denial>;
