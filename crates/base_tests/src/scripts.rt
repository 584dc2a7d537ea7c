use load_gen::script_of;
use std::alloc::Global;
use std::test::*;

// The script of one unit.
const ONE: &[u8] = b"S1 LOGON U1\n\
S2 LOGON U2\n\
S3 LOGON U3\n\
S4 LOGON U4\n\
S1 ENQ EZORDER E 2 MANDT=100 ORDNR=0000000001\n\
S1 NUM ZORDNR 01 N\n\
S1 V1 INS VBAK $N ORDER 1\n\
S1 V1 INS VBAP $N-10 ITEM 1\n\
S1 V2 ADD STAT ORDERS 1\n\
S1 COMMIT\n\
@1 TAKE1\n\
@1 DO1\n\
@1 TAKE2\n\
@1 DO2\n";

// How many units, how many lines of their script stand before a line, and its text.
const LINES: [(u32, usize, &[u8]); 8] = [
    (0, 3, b"S4 LOGON U4"),
    (1, 13, b"@1 DO2"),
    (2, 14, b"S2 ENQ EZORDER E 2 MANDT=100 ORDNR=0000000002"),
    (4, 35, b"S4 NUM ZORDNR 01 N"),
    (5, 44, b"S1 ENQ EZORDER E 2 MANDT=100 ORDNR=0000000005"),
    (10, 97, b"S2 V1 INS VBAP $N-10 ITEM 10"),
    (
        10_000,
        99_994,
        b"S4 ENQ EZORDER E 2 MANDT=100 ORDNR=0000010000",
    ),
    (10_000, 100_003, b"@1 DO2"),
];

fn has_line(text: &[u8], before: usize, line: &[u8]) -> bool {
    text.split(|byte| *byte == b'\n').nth(before) == Some(line)
}

/// Whether the script of so many units has this line behind so many.
fn is_line(alloc: Global, count: u32, before: usize, line: &[u8]) -> Result<bool, Fail> {
    let text = script_of(alloc, count)?;
    Ok(has_line(text.as_slice(), before, line))
}

/// The first of these lines that isn't there.
fn no_line(
    alloc: Global,
    lines: &[(u32, usize, &'static [u8])],
) -> Result<Option<&'static [u8]>, Fail> {
    for (count, before, line) in lines {
        if !is_line(alloc, *count, *before, *line)? {
            return Ok(Some(*line));
        }
    }
    Ok(None)
}

fn is_script(alloc: Global, count: u32, script: &[u8]) -> Result<bool, Fail> {
    let text = script_of(alloc, count)?;
    Ok(text.as_slice() == script)
}

#[test]
fn a_unit_takes_ten_lines(rt: HostRuntime) -> Result<(), Fail> {
    assert!(rt; is_script(rt.alloc(), 1, ONE)?);
    assert_eq!(rt; no_line(rt.alloc(), &LINES)?, None);
    Ok(())
}
