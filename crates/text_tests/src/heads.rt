// The header, and the count lines.
use crate::reading::check_refused;
use std::test::Fail;

#[test]
fn no_line_is_used(rt: HostRuntime) -> Result<(), Fail> {
    check_refused(
        &rt,
        &[
            ("", 13, 0),
            ("\n", 13, 0),
            (" \t \n\r\n\t", 13, 0),
            ("#", 13, 0),
            ("# UCSC blocks 1.0\n\n#", 13, 0),
        ],
    )
}

#[test]
fn first_line_is_no_header(rt: HostRuntime) -> Result<(), Fail> {
    check_refused(
        &rt,
        &[
            ("UCSC blocks 1.1", 13, 1),
            ("\n# a\nUCSC blocks\n", 13, 3),
            (" #\n", 13, 1),
            ("UCSC blocks 1.0 1\n", 13, 1),
            ("UCSC blocks 1.0\r", 13, 1),
            ("UCSCblocks 1.0\n", 13, 1),
            ("ucsc blocks 1.0\n", 13, 1),
            ("NumSoftRectangularBlocks : 0\n", 13, 1),
            ("\0\n", 13, 1),
            ("UCSC\rblocks 1.0\n", 13, 1),
        ],
    )
}

#[test]
fn counts_are_due(rt: HostRuntime) -> Result<(), Fail> {
    check_refused(
        &rt,
        &[
            ("UCSC blocks 1.0\nNumHardRectilinearBlocks : 0\n", 14, 2),
            ("UCSC blocks 1.0\n\n#\nNumTerminals : 0\n", 14, 4),
            (
                "UCSC blocks 1.0\nNumSoftRectangularBlocks : 0\nNumSoftRectangularBlocks : 0\n",
                14,
                3,
            ),
            (
                "UCSC blocks 1.0\nNumSoftRectangularBlocks : 0\nNumHardRectilinearBlocks : 0\nNumHardRectilinearBlocks : 0\n",
                14,
                4,
            ),
            (
                "UCSC blocks 1.0\nNumSoftRectangularBlocks : 0\nNumHardRectilinearBlocks : 0\na hardrectilinear 4 (0, 0) (0, 3) (4, 3) (4, 0)\n",
                14,
                4,
            ),
            ("UCSC blocks 1.0\nNumSoftRectangularBlocks 0\n", 14, 2),
            ("UCSC blocks 1.0\nNumSoftRectangularBlocks : 0 0\n", 14, 2),
            ("UCSC blocks 1.0\nNumSoftRectangularBlocks :\n", 14, 2),
            (
                "UCSC blocks 1.0\nNumSoftRectangularBlocks : 1234567890\n",
                14,
                2,
            ),
            ("UCSC blocks 1.0\nNumSoftRectangularBlocks : -1\n", 14, 2),
            (
                "UCSC blocks 1.0\nNumSoftRectangularBlocks : 0\n\nNumHardRectilinearBlocks : 1a\n",
                14,
                4,
            ),
            ("UCSC blocks 1.0\nUCSC blocks 1.0\n", 14, 2),
        ],
    )
}

#[test]
fn text_ends_before_its_third_count(rt: HostRuntime) -> Result<(), Fail> {
    check_refused(
        &rt,
        &[
            ("UCSC blocks 1.0\n", 17, 0),
            ("UCSC blocks 1.0", 17, 0),
            ("UCSC blocks 1.0\nNumSoftRectangularBlocks : 0\n", 17, 0),
            (
                "UCSC blocks 1.0\nNumSoftRectangularBlocks : 0\nNumHardRectilinearBlocks : 0\n",
                17,
                0,
            ),
            (
                "UCSC blocks 1.0\nNumSoftRectangularBlocks : 0\nNumHardRectilinearBlocks : 0\n#NumTerminals : 0\n",
                17,
                0,
            ),
        ],
    )
}
