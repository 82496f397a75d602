// Calls on a plan, each with its arguments, and why a list of them is refused.
use rules::blocks::Lists;
use rules::edits::Edit;
use rules::refusals::Refusal;

// The lists and the root of a load, and how many walk records it may use.
#[derive(Clone, Copy)]
pub struct Loading<'a> {
    pub lists: Lists<'a>,
    pub walk: usize,
}

#[derive(Clone, Copy)]
pub enum Call<'a> {
    Load(Loading<'a>),
    Test(Edit),
    Begin(Edit),
    Keep,
    Undo,
    Pack,
}

// Why there is no packing behind a list of calls.
#[derive(Clone, Copy, PartialEq, Eq, Debug)]
pub enum Stop {
    // the state does not allow this call of the list, counted from 0
    OutOfTurn(usize),
    // the packing is refused
    Refused(Refusal),
}

impl From<Refusal> for Stop {
    ghost use Rattle.std.specs.Prelude.{◌≡◌};
    ghost use Rattle.calls.specs.declared.call.Stop.TheVariants.{Refused};

    ghost from_gives = { λ refusal stop. stop ≡ Refused refusal };

    fn from(refusal: Refusal) -> Stop {
        Stop::Refused(refusal)
    }
}
