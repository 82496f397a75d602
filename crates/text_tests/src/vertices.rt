// Vertices, sides and names.
use crate::reading::{check_bodies_refused, check_body, entry};
use std::test::Fail;

#[test]
fn vertices_of_no_rectangle(rt: HostRuntime) -> Result<(), Fail> {
    let heap = rt.alloc();
    check_bodies_refused(
        &rt,
        heap,
        1,
        0,
        &[
            ("a hardrectilinear 4 (0, 0) (4, 0) (4, 3) (0, 3)", 15, 5),
            ("a hardrectilinear 4 (0, 1) (0, 3) (4, 3) (4, 0)", 15, 5),
            ("a hardrectilinear 4 (1, 0) (0, 3) (4, 3) (4, 0)", 15, 5),
            ("a hardrectilinear 4 (0, 0) (1, 3) (4, 3) (4, 0)", 15, 5),
            ("a hardrectilinear 4 (0, 0) (0, 2) (4, 3) (4, 0)", 15, 5),
            ("a hardrectilinear 4 (0, 0) (0, 3) (4, 3) (3, 0)", 15, 5),
            ("a hardrectilinear 4 (0, 0) (0, 3) (4, 3) (4, 1)", 15, 5),
            ("a hardrectilinear 4 (0, 0) (0, 3) (3, 4) (4, 0)", 15, 5),
            ("a hardrectilinear 4 (4, 3) (4, 0) (0, 0) (0, 3)", 15, 5),
        ],
    )
}

#[test]
fn sides_out_of_range(rt: HostRuntime) -> Result<(), Fail> {
    let heap = rt.alloc();
    check_bodies_refused(
        &rt,
        heap,
        1,
        0,
        &[
            ("a hardrectilinear 4 (0, 0) (0, 0) (0, 0) (0, 0)", 3, 5),
            ("a hardrectilinear 4 (0, 0) (0, 1) (0, 1) (0, 0)", 3, 5),
            ("a hardrectilinear 4 (0, 0) (0, 0) (1, 0) (1, 0)", 3, 5),
            (
                "a hardrectilinear 4 (0, 0) (0, 1) (131073, 1) (131073, 0)",
                3,
                5,
            ),
            (
                "a hardrectilinear 4 (0, 0) (0, 131073) (1, 131073) (1, 0)",
                3,
                5,
            ),
            (
                "a hardrectilinear 4 (0, 0) (0, 999999999) (999999999, 999999999) (999999999, 0)",
                3,
                5,
            ),
        ],
    )
}

#[test]
fn names_repeated(rt: HostRuntime) -> Result<(), Fail> {
    let heap = rt.alloc();
    check_bodies_refused(
        &rt,
        heap,
        2,
        0,
        &[
            (
                "a hardrectilinear 4 (0, 0) (0, 3) (4, 3) (4, 0)\n\na hardrectilinear 4 (0, 0) (0, 3) (4, 3) (4, 0)",
                16,
                7,
            ),
            (
                "a hardrectilinear 4 (0, 0) (0, 3) (4, 3) (4, 0)\nb hardrectilinear 4 (0, 0) (0, 2) (3, 2) (3, 0)\n# a\na hardrectilinear 4 (0, 0) (0, 1) (1, 1) (1, 0)",
                16,
                8,
            ),
        ],
    )
}

#[test]
fn names_alike(rt: HostRuntime) -> Result<(), Fail> {
    let heap = rt.alloc();
    check_body(
        &rt,
        heap,
        2,
        0,
        "a hardrectilinear 4 (0, 0) (0, 3) (4, 3) (4, 0)\nA hardrectilinear 4 (0, 0) (0, 3) (4, 3) (4, 0)",
        &[entry(91, 1, 4, 3), entry(139, 1, 4, 3)],
    )?;
    check_body(
        &rt,
        heap,
        2,
        0,
        "a hardrectilinear 4 (0, 0) (0, 3) (4, 3) (4, 0)\naa hardrectilinear 4 (0, 0) (0, 3) (4, 3) (4, 0)",
        &[entry(91, 1, 4, 3), entry(139, 2, 4, 3)],
    )?;
    check_body(
        &rt,
        heap,
        2,
        0,
        "b hardrectilinear 4 (0, 0) (0, 2) (3, 2) (3, 0)\na hardrectilinear 4 (0, 0) (0, 3) (4, 3) (4, 0)",
        &[entry(91, 1, 3, 2), entry(139, 1, 4, 3)],
    )
}
