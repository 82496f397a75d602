// The lines of a script that are still to come.
ghost use Rattle.std.specs.Prelude.{length};
ghost use Rattle.std.specs.Iterator.{at_most};
ghost use Rattle.session.specs.Pending.{Stepped};

use words::split::next_line;

// What is left of the script, and how many lines were taken.
#[derive(Drop)]
pub struct Pending<'a> {
    pub rest: &'a [u8],
    pub number: usize,
}

impl<'a> Iterator for Pending<'a> {
    type Item = &'a [u8];

    ghost next_gives = { λ s r t. Stepped s.rest.now s.number r t.rest.now t.number };

    ghost remaining = { λ s. at_most (length s.rest.now) };

    fn next(&mut self) -> Option<&'a [u8]> {
        let (line, behind) = next_line(self.rest)?;
        self.rest = behind;
        self.number = self.number.saturating_add(1);
        Some(line)
    }
}
