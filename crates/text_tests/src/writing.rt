// The .pl text of two or three blocks, and the refusals of the writer, also where two hold at once.
use crate::reading::entry;
use names::entries::Entry;
use rules::placements::Placement;
use std::process::Abort;
use std::test::Fail;
use writer::write_placements;

// The names ab and c stand at 0 and 3.
const TEXT: &[u8] = b"ab c (";

fn place(x: u32, y: u32, width: u32) -> Placement {
    Placement {
        x,
        y,
        width,
        height: width,
    }
}

// The writer answers the length of these bytes and writes them; the bytes behind them stay.
fn check_written(rt: &impl Abort, entries: &[Entry], places: &[Placement], bytes: &[u8]) {
    let mut out = [b'?'; 64];
    match write_placements(TEXT, entries, places, &mut out) {
        Ok(n) => assert_eq!(rt; n, bytes.len()),
        Err(refusal) => assert_eq!(rt; (refusal.number(), refusal.place()), (0, 0)),
    }
    for (i, byte) in out.iter().enumerate() {
        let expected = bytes.get(i).copied().unwrap_or(b'?');
        assert_eq!(rt; *byte, expected);
    }
}

// The writer refuses with this number and place, and writes nothing.
fn check_refused(
    rt: &impl Abort,
    text: &[u8],
    entries: &[Entry],
    places: &[Placement],
    room: usize,
    refusal: (u8, u32),
) -> Result<(), Fail> {
    let mut out = [b'?'; 64];
    let room = room.min(64);
    match write_placements(text, entries, places, &mut out[0..room]) {
        Ok(_) => return Err(Fail::new("not refused")),
        Err(why) => assert_eq!(rt; (why.number(), why.place()), refusal),
    }
    for byte in out.iter() {
        assert_eq!(rt; *byte, b'?');
    }
    Ok(())
}

#[test]
fn written(rt: HostRuntime) {
    let (ab, c) = (entry(0, 2, 9, 9), entry(3, 1, 9, 9));
    check_written(&rt, &[], &[], b"UCLA pl 1.0\n\n");
    let both = [place(0, 10, 4), place(67_108_863, 0, 1)];
    check_written(
        &rt,
        &[ab, c],
        &both,
        b"UCLA pl 1.0\n\nab 0 10\nc 67108863 0\n",
    );
    let last = [place(5, 5, 0), place(7, 8, 1)];
    check_written(&rt, &[ab, c], &last, b"UCLA pl 1.0\n\nc 7 8\n");
    let none = [place(5, 5, 0), place(7, 8, 0)];
    check_written(&rt, &[ab, c], &none, b"UCLA pl 1.0\n\n");
}

#[test]
fn refused(rt: HostRuntime) -> Result<(), Fail> {
    let (ab, c) = (entry(0, 2, 9, 9), entry(3, 1, 9, 9));
    let (bracket, blank) = (entry(5, 1, 9, 9), entry(1, 2, 9, 9));
    let (nothing, past) = (entry(3, 0, 9, 9), entry(5, 2, 9, 9));
    let here = place(1, 2, 3);
    let absent = place(0, 0, 0);
    // 13 bytes of header, and 7 of the line `ab 1 2`
    check_refused(&rt, TEXT, &[ab], &[here], 19, (18, 0))?;
    check_refused(&rt, TEXT, &[ab], &[], 64, (2, 0))?;
    check_refused(&rt, TEXT, &[], &[here], 0, (2, 0))?;
    check_refused(
        &rt,
        TEXT,
        &[ab, bracket, blank],
        &[here, here, here],
        64,
        (20, 1),
    )?;
    check_refused(&rt, TEXT, &[ab, c, blank], &[here, here, here], 0, (20, 2))?;
    check_refused(&rt, TEXT, &[nothing], &[absent], 64, (20, 0))?;
    check_refused(&rt, TEXT, &[past], &[here], 0, (20, 0))?;
    check_refused(&rt, TEXT, &[past], &[here, here], 64, (2, 0))
}

#[test]
fn long_texts(rt: HostRuntime) -> Result<(), Fail> {
    let longest = vec![in rt.alloc(); b'x'; 65_536]?;
    check_refused(
        &rt,
        &longest,
        &[entry(65_535, 2, 1, 1)],
        &[place(0, 0, 1)],
        64,
        (20, 0),
    )?;
    let longer = vec![in rt.alloc(); b'x'; 65_537]?;
    check_refused(&rt, &longer, &[entry(0, 1, 1, 1)], &[], 0, (19, 0))
}
