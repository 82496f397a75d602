// Spans of columns, records with a half-open span and a top, and the search for the highest top over a span.
ghost use Rattle.std.specs.Prelude.{◌≡◌, ◌<◌};
ghost use Rattle.skyline.specs.Spans.{Extent, run_extent, part, highest_top};

// The columns from start to end - 1, of which there is at least one.
#[derive(Clone, Copy)]
pub struct Span {
    pub start: u32,
    pub end: u32,
    ghost nonempty: { start < end },
}

pub trait Spanned {
    ghost extent: { Self → Extent };

    fn start(&self) -> u32
        ensures { result ≡ (extent self.now).start };

    fn end(&self) -> u32
        ensures { result ≡ (extent self.now).end };

    fn top(&self) -> u32
        ensures { result ≡ (extent self.now).top };
}

// A run of columns of one height: those from start to end - 1, and their top.
#[derive(Clone, Copy, PartialEq, Eq, Debug, Default)]
pub struct Run {
    pub start: u32,
    pub end: u32,
    pub top: u32,
}

impl Spanned for Run {
    ghost extent = { run_extent };

    fn start(&self) -> u32 {
        self.start
    }

    fn end(&self) -> u32 {
        self.end
    }

    fn top(&self) -> u32 {
        self.top
    }
}

// The top of a record whose span meets that from a to b, else 0.
fn top_over<T: Spanned>(raised: &T, a: u32, b: u32) -> u32
    ensures { result ≡ part (T.Spanned.extent raised.now) a b }
{
    let from = raised.start().max(a);
    let to = raised.end().min(b);
    if from < to { raised.top() } else { 0 }
}

// The largest top of the records whose span meets that from a to b, or 0. That span is two numbers, since it may have no column.
pub fn highest_top<T: Spanned>(records: &[T], a: u32, b: u32) -> u32
    ensures { result ≡ highest_top T.Spanned.extent records.now a b }
{
    records
        .iter()
        .fold(0, |highest, raised| top_over(raised, a, b).max(highest))
}
