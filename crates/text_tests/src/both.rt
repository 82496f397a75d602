// Texts in which two tests hold: the first line decides, and in a line the first test.
use crate::reading::{check_bodies_refused, check_refused};
use std::test::Fail;

#[test]
fn two_refusals_at_once(rt: HostRuntime) -> Result<(), Fail> {
    let heap = rt.alloc();
    check_bodies_refused(
        &rt,
        heap,
        0,
        0,
        &[("a hardrectilinear 4 (0, 0) (0, 0) (0, 1) (0, 0)", 15, 5)],
    )?;
    check_bodies_refused(
        &rt,
        heap,
        5,
        0,
        &[
            (
                "a hardrectilinear 4 (0, 0) (0, 3) (4, 3) (4, 0)\na hardrectilinear 4 (0, 0) (0, 0) (5, 0) (5, 0)",
                3,
                6,
            ),
            (
                "a hardrectilinear 4 (0, 0) (0, 3) (4, 3) (4, 0)\na hardrectilinear 4 (0, 0) (1, 0) (5, 0) (5, 0)",
                15,
                6,
            ),
            (
                "a hardrectilinear 4 (0, 0) (0, 3) (4, 3) (4, 0)\nb\na hardrectilinear 4 (0, 0) (0, 3) (4, 3) (4, 0)",
                14,
                6,
            ),
            (
                "a hardrectilinear 4 (0, 0) (0, 3) (4, 3) (4, 0)\na hardrectilinear 4 (0, 0) (0, 3) (4, 3) (4, 0)\nb",
                16,
                6,
            ),
            ("0 hardrectilinear 4 (1, 0) (0, 3) (4, 3) (4, 0, )", 14, 5),
        ],
    )?;
    check_refused(
        &rt,
        &[
            ("x\nUCSC blocks 1.0\n", 13, 1),
            ("UCSC blocks 1.0\nx\n\0", 14, 2),
            ("UCSC blocks 1.0\nNumSoftRectangularBlocks : 1\nx\n", 14, 3),
        ],
    )
}
