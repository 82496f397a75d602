// The counts against the lines.
use crate::reading::{check_bodies_refused, check_body, check_refused, entry};
use std::test::Fail;

#[test]
fn counts_differ(rt: HostRuntime) -> Result<(), Fail> {
    let heap = rt.alloc();
    check_refused(
        &rt,
        &[(
            "UCSC blocks 1.0\nNumSoftRectangularBlocks : 1\nNumHardRectilinearBlocks : 0\nNumTerminals : 0\n",
            17,
            0,
        )],
    )?;
    check_bodies_refused(&rt, heap, 1, 0, &[("", 17, 0)])?;
    check_bodies_refused(&rt, heap, 0, 1, &[("", 17, 0)])?;
    check_bodies_refused(
        &rt,
        heap,
        0,
        0,
        &[
            ("a hardrectilinear 4 (0, 0) (0, 3) (4, 3) (4, 0)", 17, 0),
            ("p terminal", 17, 0),
        ],
    )?;
    check_bodies_refused(
        &rt,
        heap,
        2,
        0,
        &[("a hardrectilinear 4 (0, 0) (0, 3) (4, 3) (4, 0)", 17, 0)],
    )?;
    check_bodies_refused(
        &rt,
        heap,
        1,
        1,
        &[("a hardrectilinear 4 (0, 0) (0, 3) (4, 3) (4, 0)", 17, 0)],
    )?;
    check_bodies_refused(
        &rt,
        heap,
        999999999,
        0,
        &[("a hardrectilinear 4 (0, 0) (0, 3) (4, 3) (4, 0)", 17, 0)],
    )
}

#[test]
fn counts_agree(rt: HostRuntime) -> Result<(), Fail> {
    let heap = rt.alloc();
    check_body(&rt, heap, 0, 0, "", &[])?;
    check_body(
        &rt,
        heap,
        1,
        1,
        "a hardrectilinear 4 (0, 0) (0, 3) (4, 3) (4, 0)\np terminal\n",
        &[entry(91, 1, 4, 3)],
    )?;
    check_body(&rt, heap, 0, 2, "p terminal\np terminal", &[])?;
    check_body(
        &rt,
        heap,
        1,
        1,
        "a terminal\na hardrectilinear 4 (0, 0) (0, 3) (4, 3) (4, 0)",
        &[entry(102, 1, 4, 3)],
    )
}
