// A skyline as a plain array of heights, painted by the test itself: what the rules say, and nothing of the skylines' code.
use crate::calls::{Answer, Call, Refused, Told};

// The number of columns of the skylines in these tests.
pub const WIDTH: u32 = 24;

#[derive(Clone, Copy)]
pub struct Painting {
    pub heights: [u32; 24],
    pub raises: u32,
    pub left: u32,
}

impl Painting {
    pub fn new(raises: u32) -> Painting {
        Painting {
            heights: [0; 24],
            raises,
            left: raises,
        }
    }

    // The largest of the heights a to b - 1.
    pub fn largest(&self, a: u32, b: u32) -> u32 {
        let until_b = self.heights.iter().take(b as usize);
        until_b.skip(a as usize).copied().max().unwrap_or(0)
    }

    fn paint(&mut self, a: u32, b: u32, h: u32) {
        for height in self.heights.iter_mut().take(b as usize).skip(a as usize) {
            *height = h;
        }
        self.left = self.left.saturating_sub(1);
    }

    // Refuses a wrong span.
    fn test(a: u32, b: u32) -> Result<(), Refused> {
        if a >= b || b > WIDTH {
            return Err(Refused(11, 0));
        }
        Ok(())
    }

    // Refuses a raise by its number.
    fn test_raise(&self, a: u32, b: u32, h: u32) -> Result<(), Refused> {
        Painting::test(a, b)?;
        if h > 134_217_728 {
            Err(Refused(12, 0))
        } else if h < self.largest(a, b) {
            Err(Refused(23, 0))
        } else if self.left == 0 {
            Err(Refused(24, 0))
        } else {
            Ok(())
        }
    }

    // Makes the call.
    pub fn make(&mut self, call: Call) -> Answer {
        match call {
            Call::Clear => *self = Painting::new(self.raises),
            Call::Highest(a, b) => {
                Painting::test(a, b)?;
                return Ok(Told::Height(self.largest(a, b)));
            }
            Call::Raise(a, b, h) => {
                self.test_raise(a, b, h)?;
                self.paint(a, b, h);
            }
            Call::UseUp => self.left = 0,
        }
        Ok(Told::Done)
    }
}
