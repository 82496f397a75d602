// Why a call is refused, with the place of the fault where it has one: a block, or a line of a text.
#[derive(Clone, Copy, PartialEq, Eq, Debug)]
pub enum Refusal {
    // over 512 blocks: in a text the line, for load 0
    TooManyBlocks(u32),
    // the lists differ in length
    LengthsDiffer,
    // a side is not 1 to 131,072: the block, or the line of a text
    SideOutOfRange(u32),
    // a letter is none of the five: the block
    UnknownLetter(u16),
    // a child number is neither a block nor NONE: the parent
    WrongChild(u16),
    // the root is no block, or not NONE in a plan of no blocks
    WrongRoot,
    // the block is child twice, or is the root and a child
    ChildTwice(u16),
    // no path of links leads from the root to the block
    Unreached(u16),
    // no such block: the number given
    NoSuchBlock(u16),
    // the two blocks of an edit are one
    SameBlock(u16),
    // a span is empty, or ends behind the last column
    WrongSpan,
    // a height to raise to is over 134,217,728
    RaisedTooHigh,
    // the first line used is not the header: the line, or 0 if none is used
    NoHeader(u32),
    // the line breaks its form, or is not the count line due
    WrongForm(u32),
    // the line's four vertices are not those of a rectangle at the origin
    WrongVertices(u32),
    // the line repeats a block's name
    RepeatedName(u32),
    // the text ends before its third count line, or a count differs from its lines
    WrongCount,
    // the caller's memory is too short
    MemoryTooShort,
    // the text is over 65,536 bytes
    TextTooLong,
    // the block's record marks no name in the text
    NoName(u32),
    // the block is absent
    Absent(u16),
    // the block to put in is present
    Present(u16),
    // a height to raise to is below the span's highest
    BelowHighest,
    // no raises are left
    NoRaiseLeft,
    // a top would be over 134,217,728
    TopTooHigh,
    // the plan reaches past the last column
    ReachTooWide,
    // more blocks are present than the skyline has raises
    TooFewRaises,
}
