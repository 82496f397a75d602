// What a line of a script says.
use rules::blocks::{Children, Size};
use rules::edits::Edit;

// A kind of skyline, with its number of columns and, for the last two, of records.
#[derive(Clone, Copy)]
pub enum Kind {
    Columns(u32),
    Steps { columns: u32, records: u32 },
    Placed { columns: u32, records: u32 },
}

#[derive(Clone, Copy)]
pub enum Line {
    // what one block puts behind the lists
    Block {
        size: Size,
        letter: u8,
        children: Children,
    },
    Size(Size),
    Letter(u8),
    Pair(Children),
    // with so many walk records
    Load {
        root: u16,
        walk: u32,
    },
    Test(Edit),
    Begin(Edit),
    Keep,
    Undo,
    Report(u16),
    // with so many walk records and placement records
    Pack {
        walk: u32,
        places: u32,
    },
    // a new skyline
    Make(Kind),
    Clear,
    Highest {
        from: u32,
        to: u32,
    },
    Raise {
        from: u32,
        to: u32,
        height: u32,
    },
}

// A line that says none of these, and is no comment and not blank.
#[derive(Clone, Copy, PartialEq, Eq, Debug)]
pub struct NotUnderstood;
