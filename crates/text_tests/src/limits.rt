// Texts at their limits.
use crate::reading::{check_refusal, text_of};
use names::entries::Entry;
use reader::read_blocks;
use rules::blocks::Size;
use std::alloc::{AllocError, Global};
use std::test::Fail;

// A text with so many blocks, each 1 by 1, from line 5 on.
fn many_blocks(heap: Global, count: u32) -> Result<String, AllocError> {
    let mut text = text_of(heap, count, 0, "")?;
    for i in 0..count {
        let line = format!(in heap; "b{i} hardrectilinear 4 (0,0)(0,1)(1,1)(1,0)\n")?;
        text.push_str(&line)?;
    }
    Ok(text)
}

// The text with spaces behind it, up to so many bytes.
fn padded(mut text: String, length: usize) -> Result<String, AllocError> {
    for _ in text.len()..length {
        text.push(' ')?;
    }
    Ok(text)
}

const BEFORE: Entry = Entry {
    start: 0,
    len: 0,
    size: Size {
        width: 9,
        height: 9,
    },
};

#[test]
fn as_many_blocks_as_there_may_be(rt: HostRuntime) -> Result<(), Fail> {
    let text = many_blocks(rt.alloc(), 512)?;
    let mut records = vec![in rt.alloc(); BEFORE; 513]?;
    assert_eq!(rt; read_blocks(text.as_bytes(), &mut records), Ok(512));
    assert!(rt; records.len() == 513);
    assert_eq!(rt;
        records[511],
        Entry {
            start: 22467,
            len: 4,
            size: Size {
                width: 1,
                height: 1,
            },
        }
    );
    assert_eq!(rt; records[512], BEFORE);
    Ok(())
}

#[test]
fn one_block_too_many(rt: HostRuntime) -> Result<(), Fail> {
    let text = many_blocks(rt.alloc(), 513)?;
    check_refusal(&rt, text.as_bytes(), 1, 517)
}

// The name is tested before the number of blocks.
#[test]
fn one_block_too_many_with_a_name_repeated(rt: HostRuntime) -> Result<(), Fail> {
    let mut text = many_blocks(rt.alloc(), 512)?;
    text.push_str("\nb7 hardrectilinear 4 (0,0)(0,1)(1,1)(1,0)")?;
    check_refusal(&rt, text.as_bytes(), 16, 518)
}

// The counts are tested before the room for records.
#[test]
fn one_record_too_few_and_a_wrong_count(rt: HostRuntime) -> Result<(), Fail> {
    let mut text = many_blocks(rt.alloc(), 5)?;
    text.push_str("p terminal")?;
    check_refusal(&rt, text.as_bytes(), 17, 0)
}

#[test]
fn one_record_too_few(rt: HostRuntime) -> Result<(), Fail> {
    let text = many_blocks(rt.alloc(), 5)?;
    check_refusal(&rt, text.as_bytes(), 18, 0)
}

#[test]
fn as_many_records_as_blocks(rt: HostRuntime) -> Result<(), Fail> {
    let text = many_blocks(rt.alloc(), 4)?;
    let mut records = [BEFORE; 4];
    assert_eq!(rt; read_blocks(text.as_bytes(), &mut records), Ok(4));
    Ok(())
}

#[test]
fn as_many_bytes_as_there_may_be(rt: HostRuntime) -> Result<(), Fail> {
    let text = padded(many_blocks(rt.alloc(), 4)?, 65536)?;
    let mut records = [BEFORE; 4];
    assert_eq!(rt; read_blocks(text.as_bytes(), &mut records), Ok(4));
    Ok(())
}

#[test]
fn one_byte_too_many(rt: HostRuntime) -> Result<(), Fail> {
    let text = padded(many_blocks(rt.alloc(), 4)?, 65537)?;
    check_refusal(&rt, text.as_bytes(), 19, 0)?;
    check_refusal(
        &rt,
        padded(String::new(rt.alloc()), 65537)?.as_bytes(),
        19,
        0,
    )
}
