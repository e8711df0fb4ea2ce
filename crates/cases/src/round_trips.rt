// Sheets that are read and written again.
use crate::calls::{Tables, write};
use crate::notations::{MinMaxCube, PositionalCube};
use cube::notation::CubeNotation;
use std::alloc::Global;
use std::process::Abort;
use std::test::Fail;

// Variables, a register, a sheet that is read into it, and the sheet that is written of it.
static SHEETS: [(i32, i32, &str, &str); 10] = [
    (3, 0, "3\n2\n2 1 2\n2 -1 3\n", "3\n2\n2 1 2\n2 -1 3\n"),
    (3, 31, "3\n2\n2 -1 3\n2 1 2", "3\n2\n2 -1 3\n2 1 2\n"),
    (3, 7, "3\n0", "3\n0\n"),
    (3, 1, "\n00003\r\n\t-0\r\n\n", "3\n0\n"),
    (3, 2, "3\n1\n-0", "3\n1\n0\n"),
    (3, 3, "3\n1\n 2 -00001\t00003 ", "3\n1\n2 -1 3\n"),
    (
        3,
        4,
        "3\n4\n1 2\n0\n1 2\n3 -1 -2 -3",
        "3\n4\n1 2\n0\n1 2\n3 -1 -2 -3\n",
    ),
    (1, 5, "1\n2\n1 1\n1 -1\n", "1\n2\n1 1\n1 -1\n"),
    (20, 6, "20\n1\n4 -9 10 -11 20\n", "20\n1\n4 -9 10 -11 20\n"),
    (
        20,
        8,
        "20\n1\n20 1 2 3 4 5 6 7 8 9 10 -11 -12 -13 -14 -15 -16 -17 -18 -19 -20",
        "20\n1\n20 1 2 3 4 5 6 7 8 9 10 -11 -12 -13 -14 -15 -16 -17 -18 -19 -20\n",
    ),
];

// What the bytes hold before a write.
const OLD: u8 = 7;

const MOST: usize = 160;

// The length of what is written of a register once it has read a sheet, or the refusal's number.
fn copied<C: CubeNotation>(
    tables: &mut Tables<C>,
    n: i32,
    k: i32,
    sheet: &str,
    out: &mut [u8],
) -> Result<usize, u8> {
    let mut calculator = tables.read(n, k, sheet.as_bytes()).map_err(|f| f.number())?;
    write(&mut calculator, k, &tables.registers, out).map_err(|f| f.number())
}

// With `room` bytes: the sheet in front of what they held, or 8 where they are too few, and then they keep it.
fn check_room<C: CubeNotation>(
    rt: &impl Abort,
    tables: &mut Tables<C>,
    row: &(i32, i32, &str, &str),
    room: usize,
) {
    let &(n, k, sheet, written) = row;
    let mut out = [OLD; MOST];
    let mut want = [OLD; MOST];
    assert!(rt; room <= MOST);
    let answer = if written.len() <= room {
        want[0..written.len()].copy_from_slice(written.as_bytes());
        Ok(written.len())
    } else {
        Err(8)
    };
    let seen = copied(tables, n, k, sheet, &mut out[0..room]);
    assert_eq!(rt; seen, answer, "{}", sheet);
    assert_eq!(rt; out, want, "{}", sheet);
}

// One byte too few, just enough, and more.
fn check_sheets<C: CubeNotation>(rt: &impl Abort, heap: Global) -> Result<(), Fail> {
    let mut tables = Tables::new(heap, C::blank(), 128, 256)?;
    for row in &SHEETS {
        let length = row.3.len();
        for room in [length.saturating_sub(1), length, MOST] {
            check_room(rt, &mut tables, row, room);
        }
    }
    Ok(())
}

#[test]
fn positional_sheets_come_back(rt: HostRuntime) -> Result<(), Fail> {
    check_sheets::<PositionalCube>(&rt, rt.alloc())
}

#[test]
fn min_max_sheets_come_back(rt: HostRuntime) -> Result<(), Fail> {
    check_sheets::<MinMaxCube>(&rt, rt.alloc())
}
