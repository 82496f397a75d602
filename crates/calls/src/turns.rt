// Which calls the state of a plan allows.
ghost use Rattle.std.specs.Prelude.{◌≡◌, ℕ, map, Some};
ghost use Rattle.rules.specs.Book.{next, settled};
ghost use Rattle.calls.specs.Turns.{first_out, turned};
ghost use Rattle.calls.specs.Said.{said, as_state};

use crate::call::{Call, Stop};

#[derive(Clone, Copy)]
enum Turn {
    Settled,
    Tried,
}

impl Turn {
    // The state after the call, or none where this state does not allow it.
    fn after(self, call: &Call) -> Option<Turn>
        ensures { (records : ℕ) → as_state result ≡ next (as_state (Some self)) (said records call.now) }
    {
        match (self, call) {
            (Turn::Settled, Call::Load(_) | Call::Test(_) | Call::Pack) => Some(Turn::Settled),
            (Turn::Settled, Call::Begin(_)) => Some(Turn::Tried),
            (Turn::Tried, Call::Keep | Call::Undo) => Some(Turn::Settled),
            (Turn::Tried, Call::Pack) => Some(Turn::Tried),
            _ => None,
        }
    }
}

// Refuses a list in which the state before a call does not allow it, from a new plan on, by the first such call.
pub(crate) fn in_turn(calls: &[Call]) -> Result<(), Stop>
    ensures { (records : ℕ) → result ≡ turned (first_out settled 0 (map (said records) calls.now)) }
{
    let mut state = Turn::Settled;
    for (i, call) in calls.iter().enumerate() {
        state = state.after(call).ok_or(Stop::OutOfTurn(i))?;
    }
    Ok(())
}
