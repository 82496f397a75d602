// The ends of lines.
use crate::reading::{check_read, entry};
use std::test::Fail;

#[test]
fn lines_end(rt: HostRuntime) -> Result<(), Fail> {
    check_read(
        &rt,
        "UCSC blocks 1.0\nNumSoftRectangularBlocks : 0\nNumHardRectilinearBlocks : 1\nNumTerminals : 0\na hardrectilinear 4 (0, 0) (0, 3) (4, 3) (4, 0)".as_bytes(),
        &[entry(91, 1, 4, 3)],
    )?;
    check_read(
        &rt,
        "UCSC blocks 1.0\nNumSoftRectangularBlocks : 0\nNumHardRectilinearBlocks : 1\nNumTerminals : 0\na hardrectilinear 4 (0, 0) (0, 3) (4, 3) (4, 0)\n".as_bytes(),
        &[entry(91, 1, 4, 3)],
    )?;
    check_read(
        &rt,
        "UCSC blocks 1.0\r\nNumSoftRectangularBlocks : 0\r\nNumHardRectilinearBlocks : 1\r\nNumTerminals : 0\r\na hardrectilinear 4 (0, 0) (0, 3) (4, 3) (4, 0)".as_bytes(),
        &[entry(95, 1, 4, 3)],
    )?;
    check_read(
        &rt,
        "UCSC blocks 1.0\r\nNumSoftRectangularBlocks : 0\r\nNumHardRectilinearBlocks : 1\r\nNumTerminals : 0\r\na hardrectilinear 4 (0, 0) (0, 3) (4, 3) (4, 0)\r\n".as_bytes(),
        &[entry(95, 1, 4, 3)],
    )?;
    check_read(
        &rt,
        "UCSC blocks 1.0\nNumSoftRectangularBlocks : 0\nNumHardRectilinearBlocks : 1\r\nNumTerminals : 0\na hardrectilinear 4 (0, 0) (0, 3) (4, 3) (4, 0)\r\n\n\r\n \t".as_bytes(),
        &[entry(92, 1, 4, 3)],
    )
}
