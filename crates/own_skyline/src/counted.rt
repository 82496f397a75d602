// A skyline of one's own, around any other: it counts the raises that it has taken, over all packings.
use rules::refusals::Refusal;
use skyline::skylines::Skyline;

#[derive(Drop)]
pub struct Counted<S> {
    pub inner: S,
    pub taken: u64,
}

impl<S: Skyline> Skyline for Counted<S> {
    ghost meaning = { λ s. S.Skyline.meaning s.inner };

    fn columns(&self) -> u32 {
        self.inner.columns()
    }

    fn raises(&self) -> u32 {
        self.inner.raises()
    }

    fn raises_left(&self) -> u32 {
        self.inner.raises_left()
    }

    fn clear(&mut self) {
        self.inner.clear();
    }

    fn highest(&self, a: u32, b: u32) -> Result<u32, Refusal> {
        self.inner.highest(a, b)
    }

    fn raise(&mut self, a: u32, b: u32, h: u32) -> Result<(), Refusal> {
        self.inner.raise(a, b, h)?;
        self.taken = self.taken.saturating_add(1);
        Ok(())
    }
}
