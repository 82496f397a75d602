// Texts read, and the answer held to what is expected.
use names::entries::Entry;
use reader::read_blocks;
use rules::blocks::Size;
use std::alloc::{AllocError, Global};
use std::process::Abort;
use std::test::Fail;

pub fn entry(start: u32, len: u32, width: u32, height: u32) -> Entry {
    Entry {
        start,
        len,
        size: Size { width, height },
    }
}

// What each record holds before a text is read.
const BEFORE: Entry = Entry {
    start: 7,
    len: 7,
    size: Size {
        width: 7,
        height: 7,
    },
};

// The text is refused with this number and place, and alters no record.
pub fn check_refusal(rt: &impl Abort, text: &[u8], number: u8, place: u32) -> Result<(), Fail> {
    let mut records = [BEFORE; 4];
    match read_blocks(text, &mut records) {
        Ok(_) => return Err(Fail::new("not refused")),
        Err(refusal) => assert_eq!(rt; (refusal.number(), refusal.place()), (number, place)),
    }
    for record in records.iter() {
        assert_eq!(rt; *record, BEFORE);
    }
    Ok(())
}

// Each text is refused with the number and at the place beside it.
pub fn check_refused(rt: &impl Abort, cases: &[(&str, u8, u32)]) -> Result<(), Fail> {
    for (text, number, place) in cases.iter() {
        check_refusal(rt, text.as_bytes(), *number, *place)?;
    }
    Ok(())
}

// The text has blocks with these records, and no later record is altered.
pub fn check_read(rt: &impl Abort, text: &[u8], entries: &[Entry]) -> Result<(), Fail> {
    let mut records = [BEFORE; 4];
    match read_blocks(text, &mut records) {
        Ok(count) => assert_eq!(rt; count, entries.len()),
        Err(refusal) => assert_eq!(rt; (refusal.number(), refusal.place()), (0, 0)),
    }
    for (i, record) in records.iter().enumerate() {
        let expected = entries.get(i).copied().unwrap_or(BEFORE);
        assert_eq!(rt; *record, expected);
    }
    Ok(())
}

// A text with these counts and this body, which begins in line 5.
pub fn text_of(heap: Global, hard: u32, terminals: u32, body: &str) -> Result<String, AllocError> {
    let soft = "NumSoftRectangularBlocks : 0";
    let named = "NumHardRectilinearBlocks";
    format!(in heap;
        "UCSC blocks 1.0\n{soft}\n{named} : {hard}\nNumTerminals : {terminals}\n{body}"
    )
}

// The text with these counts and each body is refused with the number and at the place beside it.
pub fn check_bodies_refused(
    rt: &impl Abort,
    heap: Global,
    hard: u32,
    terminals: u32,
    cases: &[(&str, u8, u32)],
) -> Result<(), Fail> {
    for (body, number, place) in cases.iter() {
        let text = text_of(heap, hard, terminals, body)?;
        check_refusal(rt, text.as_bytes(), *number, *place)?;
    }
    Ok(())
}

// The text with these counts and this body is read.
pub fn check_body(
    rt: &impl Abort,
    heap: Global,
    hard: u32,
    terminals: u32,
    body: &str,
    entries: &[Entry],
) -> Result<(), Fail> {
    let text = text_of(heap, hard, terminals, body)?;
    check_read(rt, text.as_bytes(), entries)
}
