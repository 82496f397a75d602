// From text to text: the .pl text, the line of a refusal, and bytes that do not fit.
use crate::reading::text_of;
use plan::Settled;
use plotter::plot;
use std::alloc::Global;
use std::process::Abort;
use std::test::Fail;

// The body of three blocks: b stands beside a, and c on it.
const THREE: &str = "\
a hardrectilinear 4 (0, 0) (0, 3) (4, 3) (4, 0)
b hardrectilinear 4 (0, 0) (0, 2) (3, 2) (3, 0)
c hardrectilinear 4 (0, 0) (0, 5) (2, 5) (2, 0)
";

// With so much room, plot writes these bytes at the front of the room; none means that it refuses with 18 and writes nothing.
fn check_plot(
    rt: &impl Abort,
    heap: Global,
    text: &[u8],
    room: usize,
    bytes: Option<&str>,
) -> Result<(), Fail> {
    let mut out = [b'?'; 64];
    let plan = Settled::new(heap)?;
    let room = room.min(64);
    let bytes = bytes.unwrap_or("").as_bytes();
    match plot(plan, text, &mut out[0..room]) {
        Ok(n) => assert_eq!(rt; n, bytes.len()),
        Err(refusal) => assert_eq!(rt;
            (refusal.number(), refusal.place(), bytes.len()),
            (18, 0, 0)
        ),
    }
    for (i, byte) in out.iter().enumerate() {
        let expected = bytes.get(i).copied().unwrap_or(b'?');
        assert_eq!(rt; *byte, expected);
    }
    Ok(())
}

#[test]
fn plotted(rt: HostRuntime) -> Result<(), Fail> {
    let heap = rt.alloc();
    let text = text_of(heap, 3, 0, THREE)?;
    let placed = "UCLA pl 1.0\n\na 0 0\nb 4 0\nc 0 3\n";
    check_plot(&rt, heap, text.as_bytes(), 64, Some(placed))?;
    check_plot(&rt, heap, text.as_bytes(), 31, Some(placed))?;
    check_plot(&rt, heap, text.as_bytes(), 30, None)?;
    let empty = text_of(heap, 0, 0, "")?;
    check_plot(&rt, heap, empty.as_bytes(), 13, Some("UCLA pl 1.0\n\n"))?;
    check_plot(&rt, heap, empty.as_bytes(), 12, None)
}

#[test]
fn refusals_plotted(rt: HostRuntime) -> Result<(), Fail> {
    let heap = rt.alloc();
    check_plot(&rt, heap, b"", 16, Some("refused 13 at 0\n"))?;
    check_plot(&rt, heap, b"", 15, None)?;
    let text = text_of(heap, 4, 0, THREE)?;
    check_plot(&rt, heap, text.as_bytes(), 64, Some("refused 17 at 0\n"))?;
    let text = text_of(heap, 1, 0, "\n\nlonely\n")?;
    check_plot(&rt, heap, text.as_bytes(), 64, Some("refused 14 at 7\n"))
}
