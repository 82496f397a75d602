// The forms of lines in the body.
use crate::reading::{check_bodies_refused, check_body, entry};
use std::test::Fail;

#[test]
fn lines_that_break_their_form(rt: HostRuntime) -> Result<(), Fail> {
    let heap = rt.alloc();
    check_bodies_refused(
        &rt,
        heap,
        1,
        0,
        &[
            ("a", 14, 5),
            ("a terminal terminal", 14, 5),
            ("a Terminal", 14, 5),
            ("a- terminal", 14, 5),
            ("abcdefghijklmnopqrstuvwxyz0123456 terminal", 14, 5),
            ("a softrectangular 4", 14, 5),
            ("a hardrectilinear 3 (0, 0) (0, 3) (4, 3)", 14, 5),
            ("a hardrectilinear 5 (0, 0) (0, 3) (4, 3) (4, 0)", 14, 5),
            ("a hardrectilinear 4 (0, 0) (0, 3) (4, 3)", 14, 5),
            (
                "a hardrectilinear 4 (0, 0) (0, 3) (4, 3) (4, 0) (4, 0)",
                14,
                5,
            ),
            ("a hardrectilinear 4 (0, 0) (0, 3) (4, 3) (4, 0) #", 14, 5),
            (
                "a hardrectilinear 4 (0, 0) (0, 3) (4, 3) (4, 0)\r\r\n",
                14,
                5,
            ),
            ("a hardrectilinear 4 (0 0) (0, 3) (4, 3) (4, 0)", 14, 5),
            ("a hardrectilinear 4 (0, 0), (0, 3) (4, 3) (4, 0)", 14, 5),
            (
                "a hardrectilinear 4 (0, 0) (0, 3) (4, 3) (4, 0000000000)",
                14,
                5,
            ),
            ("a hardrectilinear 4 (0, 0) (0, 3) (4., 3) (4, 0)", 14, 5),
            ("a : hardrectilinear 4 (0, 0) (0, 3) (4, 3) (4, 0)", 14, 5),
            ("hardrectilinear 4 (0, 0) (0, 3) (4, 3) (4, 0)", 14, 5),
            (" #", 14, 5),
        ],
    )
}

#[test]
fn lines_in_other_layouts(rt: HostRuntime) -> Result<(), Fail> {
    let heap = rt.alloc();
    check_body(
        &rt,
        heap,
        1,
        0,
        "a hardrectilinear 4(0,0)(0,3)(4,3)(4,0)",
        &[entry(91, 1, 4, 3)],
    )?;
    check_body(
        &rt,
        heap,
        1,
        0,
        "\t a\thardrectilinear 4 ( 0 , 0 ) (0,3)(4,3)(4,0) \t",
        &[entry(93, 1, 4, 3)],
    )?;
    check_body(
        &rt,
        heap,
        1,
        0,
        "a hardrectilinear 4 (0, 00) (000000000, 3) (4, 03) (0004, 0)",
        &[entry(91, 1, 4, 3)],
    )?;
    check_body(
        &rt,
        heap,
        1,
        0,
        "_9 hardrectilinear 4 (0, 0) (0, 131072) (131072, 131072) (131072, 0)",
        &[entry(91, 2, 131072, 131072)],
    )?;
    check_body(
        &rt,
        heap,
        1,
        0,
        "abcdefghijklmnopqrstuvwxyz012345 hardrectilinear 4 (0, 0) (0, 3) (4, 3) (4, 0)",
        &[entry(91, 32, 4, 3)],
    )?;
    check_body(
        &rt,
        heap,
        1,
        0,
        "\n#\n \na hardrectilinear 4 (0, 0) (0, 3) (4, 3) (4, 0)",
        &[entry(96, 1, 4, 3)],
    )
}
