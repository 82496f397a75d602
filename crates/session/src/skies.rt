// Calls on the skyline in hand.
use crate::answers::{Answer, Denial, Outcome};
use script::line::Line;
use skyline::skylines::Skyline;

// C, R and r.
pub fn told<S: Skyline>(skyline: &S) -> Answer {
    Answer::Skyline {
        columns: skyline.columns(),
        raises: skyline.raises(),
        left: skyline.raises_left(),
    }
}

fn raised<S: Skyline>(skyline: &mut S, from: u32, to: u32, height: u32) -> Outcome {
    skyline.raise(from, to, height)?;
    Ok(told(skyline))
}

// What a call on the skyline answers; none where the line is no such call.
pub fn call<S: Skyline>(skyline: &mut S, line: Line) -> Option<Outcome> {
    match line {
        Line::Clear => {
            skyline.clear();
            Some(Ok(told(skyline)))
        }
        Line::Highest { from, to } => Some(
            skyline
                .highest(from, to)
                .map(Answer::Highest)
                .map_err(Denial::from),
        ),
        Line::Raise { from, to, height } => Some(raised(skyline, from, to, height)),
        _ => None,
    }
}
