// Texts that a read takes or refuses.
use crate::calls::{Tables, expected, padded, told};
use crate::notations::{MinMaxCube, PositionalCube};
use cube::notation::CubeNotation;
use std::alloc::Global;
use std::process::Abort;
use std::test::Fail;

// A text for three variables and four places, and its refusal with the offset; 0 where it is taken.
static SHEETS: [(&str, u8, usize); 79] = [
    ("3\n2\n2 1 2\n2 -1 3\n", 0, 0),
    ("3\n2\n2 1 2\n2 -1 3", 0, 0),
    ("3\n0", 0, 0),
    ("3\n-0\n", 0, 0),
    ("3\n1\n0", 0, 0),
    ("3\n1\n-0\n", 0, 0),
    ("3\n4\n0\n0\n0\n0\n", 0, 0),
    ("3\n2\n1 1\n1 1\n", 0, 0),
    ("3\n1\n3 -1 2 -3\n", 0, 0),
    ("00003\n00001\n00001 -00003", 0, 0),
    ("3\r\n1\r\n1 2\r\n", 0, 0),
    ("\t3\t\n1 \r\n\t 1\t\t-2\r", 0, 0),
    ("\n \n3\n\n\r\n1\n\t\n1 3\n\n ", 0, 0),
    // 20: a byte that is not allowed
    ("x", 20, 0),
    ("12-3", 20, 2),
    ("12-", 20, 2),
    ("-1-", 20, 2),
    ("123456x", 20, 6),
    ("4x", 20, 1),
    ("3\n+1", 20, 2),
    ("3,0", 20, 1),
    ("3\n\x0b0", 20, 2),
    ("3\n\x00", 20, 2),
    ("3\n1\n1 1\nx", 20, 8),
    ("3\n1\n1 4x", 20, 7),
    // 21: a sixth digit
    ("000003", 21, 0),
    (" 123456 ", 21, 1),
    ("-123456", 21, 0),
    ("3 123456", 21, 2),
    ("3\n1\n1 000001\n", 21, 6),
    // 22: a minus that no digit follows
    (" -x", 22, 1),
    ("-", 22, 0),
    ("--3", 22, 0),
    ("3\n- 1", 22, 2),
    ("3\n-\n", 22, 2),
    ("3\n1\n2 2 -", 22, 8),
    // 30: line 1 is not n
    ("4", 30, 0),
    ("2\n0\n", 30, 0),
    ("-3\n0\n", 30, 0),
    ("\n 99999 x", 30, 2),
    // 31: line 2 is negative or above M
    ("3\n5", 31, 2),
    ("3\n-1\n", 31, 2),
    ("3\n\n 99999", 31, 4),
    ("3\n5 x", 31, 2),
    // 32: a count of literals is negative or above n
    ("3\n1\n4", 32, 4),
    ("3\n1\n-1 1", 32, 4),
    ("3\n2\n0\n 4 x", 32, 7),
    // 33: a literal is 0 or above n
    ("3\n1\n1 0", 33, 6),
    ("3\n1\n1 -0", 33, 6),
    ("3\n1\n1 4", 33, 6),
    ("3\n1\n1 -4", 33, 6),
    ("3\n1\n2 2 0", 33, 8),
    ("3\n1\n2 2 -00", 33, 8),
    // 34: a variable is not above the one before it
    ("3\n1\n2 2 -1", 34, 8),
    ("3\n1\n2 2 2", 34, 8),
    ("3\n1\n2 2 -2", 34, 8),
    ("3\n1\n3 1 3 2 x", 34, 10),
    // 35: a number too many, whatever its value, or a line too many
    ("3 3", 35, 2),
    ("3 -99999", 35, 2),
    ("3\n0 0", 35, 4),
    ("3\n0\n0", 35, 4),
    ("3\n0\n\n 99999", 35, 6),
    ("3\n1\n0 0", 35, 6),
    ("3\n1\n1 2 3", 35, 8),
    ("3\n1\n1 2 1", 35, 8),
    ("3\n1\n1 2 0", 35, 8),
    ("3\n1\n1 1\n-1", 35, 8),
    // 36: a line or the text ends too early
    ("", 36, 0),
    ("\n", 36, 1),
    (" \r", 36, 2),
    ("3", 36, 1),
    ("3\n", 36, 2),
    ("3\n1", 36, 3),
    ("3\n1\n \n", 36, 6),
    ("3\n2\n0\n", 36, 6),
    ("3\n1\n2 1\n", 36, 7),
    ("3\n1\n2 1\r\n2", 36, 8),
    ("3\n1\n2 1  ", 36, 9),
    ("3\n2\n1\n1 1", 36, 5),
];

// The same of bytes that are no text.
static BYTES: [(&[u8], u8, usize); 3] = [
    (b"\x80", 20, 0),
    (b"3\n1\xff", 20, 3),
    (b"3\n0\n\xfe", 20, 4),
];

// Cubes of the register table and of the working table, a text and the length that spaces before it make it up to, and its refusal with the offset.
static LENGTHS: [(usize, usize, &str, usize, u8, usize); 11] = [
    (128, 256, "3\n0\n", 65535, 0, 0),
    (128, 256, "3\n0\n", 65536, 23, 0),
    (128, 256, "", 65535, 36, 65535),
    (128, 256, "x", 65535, 20, 65534),
    (128, 256, "x", 65536, 23, 0),
    (127, 256, "x", 65536, 4, 0),
    (128, 255, "x", 65536, 4, 0),
    (127, 256, "x", 0, 4, 0),
    (128, 255, "x", 0, 4, 0),
    (128, 256, "x", 0, 20, 0),
    (0, 0, "3\n0\n", 0, 4, 0),
];

// Checks what is said of a text that is read into register 2; a failure names the row.
fn check_text<C: CubeNotation>(
    rt: &impl Abort,
    tables: &mut Tables<C>,
    text: &[u8],
    number: u8,
    offset: usize,
    row: &str,
) {
    let said = told(tables.read(3, 2, text)).map(|_| ());
    assert_eq!(rt; said, expected((), number, offset), "{}", row);
}

fn check_sheets<C: CubeNotation>(rt: &impl Abort, heap: Global) -> Result<(), Fail> {
    let mut tables = Tables::new(heap, C::blank(), 128, 256)?;
    for &(text, number, offset) in &SHEETS {
        check_text(rt, &mut tables, text.as_bytes(), number, offset, text);
    }
    for &(bytes, number, offset) in &BYTES {
        check_text(rt, &mut tables, bytes, number, offset, "no text");
    }
    Ok(())
}

#[test]
fn positional_sheets_are_taken_or_refused(rt: HostRuntime) -> Result<(), Fail> {
    check_sheets::<PositionalCube>(&rt, rt.alloc())
}

#[test]
fn min_max_sheets_are_taken_or_refused(rt: HostRuntime) -> Result<(), Fail> {
    check_sheets::<MinMaxCube>(&rt, rt.alloc())
}

#[test]
fn lengths_are_judged_before_the_text(rt: HostRuntime) -> Result<(), Fail> {
    let heap = rt.alloc();
    for &(cubes, room, row, length, number, offset) in &LENGTHS {
        let text = padded(heap, b' ', row.as_bytes(), length)?;
        let mut tables = Tables::new(heap, PositionalCube::blank(), cubes, room)?;
        check_text(&rt, &mut tables, &text, number, offset, row);
    }
    Ok(())
}
