// The calls of a skyline as data, and what they answer.
use rules::refusals::Refusal;
use skyline::skylines::Skyline;

#[derive(Clone, Copy, Debug)]
pub enum Call {
    Clear,
    Highest(u32, u32),
    Raise(u32, u32, u32),
    // raises the first column to its own height, which alters no height, until no raise is left
    UseUp,
}

// What a call that is not refused tells.
#[derive(Clone, Copy, PartialEq, Eq, Debug)]
pub enum Told {
    Done,
    Height(u32),
}

// A refusal's number and place.
#[derive(Clone, Copy, PartialEq, Eq, Debug)]
pub struct Refused(pub u8, pub u32);

impl From<Refusal> for Refused {
    fn from(refusal: Refusal) -> Refused {
        Refused(refusal.number(), refusal.place())
    }
}

pub type Answer = Result<Told, Refused>;

fn use_up<S: Skyline>(skyline: &mut S) {
    let Ok(height) = skyline.highest(0, 1) else {
        return;
    };
    for _ in 0..skyline.raises_left() {
        let _ = skyline.raise(0, 1, height);
    }
}

// Makes the call.
pub fn make<S: Skyline>(skyline: &mut S, call: Call) -> Answer {
    match call {
        Call::Clear => skyline.clear(),
        Call::Highest(a, b) => return Ok(Told::Height(skyline.highest(a, b)?)),
        Call::Raise(a, b, h) => skyline.raise(a, b, h)?,
        Call::UseUp => use_up(skyline),
    }
    Ok(Told::Done)
}
