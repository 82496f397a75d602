// What is written.
use names::entries::Entry;
use rules::placements::Placement;

// A text, the blocks that have their names in it, and the place of each.
#[derive(Clone, Copy)]
pub(crate) struct Sheet<'a> {
    pub(crate) text: &'a [u8],
    pub(crate) entries: &'a [Entry],
    pub(crate) places: &'a [Placement],
}
