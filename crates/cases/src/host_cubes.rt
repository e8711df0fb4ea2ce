// What a host puts into the register table between two calls, and what a read leaves there.
use crate::calls::{Tables, write};
use crate::notations::{MinMaxCube, PositionalCube};
use calculator::calculator::Calculator;
use calculator::register::RegisterNumber;
use cube::notation::CubeNotation;
use cube::refusal::Refusal;
use std::alloc::Global;
use std::process::Abort;
use std::test::Fail;

// A word at the place of a register of three variables, and the sheet that is written of it.
static WORDS: [(u64, &str); 10] = [
    (0xff_ffff_ffff, "3\n1\n0\n"),
    // Yes in slot 4, which is above n
    (0xff_ffff_ff7f, "3\n1\n0\n"),
    (0xff_ffff_ff7d, "3\n1\n1 1\n"),
    // Yes in every slot above n
    (0x55_5555_556a, "3\n1\n3 -1 -2 -3\n"),
    // No in every slot above n
    (0xaa_aaaa_aa95, "3\n1\n3 1 2 3\n"),
    // 00 in every slot
    (0, "3\n1\n0\n"),
    // 00 in slot 1, No, Yes
    (0xff_ffff_ff98, "3\n1\n2 -2 3\n"),
    (0xff_ffff_ffcd, "3\n1\n1 1\n"),
    // bits beyond the twentieth slot
    (u64::MAX, "3\n1\n0\n"),
    (0x5555_5500_0000_0001, "3\n1\n1 1\n"),
];

// The same of a pair, the least and the greatest.
static PAIRS: [(u32, u32, &str); 9] = [
    (0, 0xfffff, "3\n1\n0\n"),
    // Yes in slot 4
    (0x8, 0xfffff, "3\n1\n0\n"),
    (0x9, 0xfffff, "3\n1\n1 1\n"),
    (0xfffff, 0xfffff, "3\n1\n3 1 2 3\n"),
    (0, 0, "3\n1\n3 -1 -2 -3\n"),
    // min 1 and max 0 in slot 1
    (0x1, 0xffffe, "3\n1\n0\n"),
    (0xfffff, 0, "3\n1\n0\n"),
    (0x5, 0x4, "3\n1\n2 -2 3\n"),
    // bits beyond the twentieth slot
    (0xfff0_0000, 0xffff_ffff, "3\n1\n0\n"),
];

// Two texts that are read into register 3, the first place of the table that changed and how many did, and the sheet of the register then.
static READS: [(&str, &str, usize, usize, &str); 12] = [
    ("3\n0", "3\n1\n1 1\n", 12, 1, "3\n1\n1 1\n"),
    ("3\n0", "3\n2\n1 1\n0\n", 12, 2, "3\n2\n1 1\n0\n"),
    ("3\n0", "3\n4\n0\n0\n0\n1 3", 12, 4, "3\n4\n0\n0\n0\n1 3\n"),
    ("3\n0", "3\n0\n", 0, 0, "3\n0\n"),
    ("3\n0", "3\n4\n1 1\n1 2\n1 3\n1 -1\nx", 0, 0, "3\n0\n"),
    ("3\n2\n1 2\n1 -2\n", "3\n1\n1 1\n", 12, 2, "3\n1\n1 1\n"),
    (
        "3\n2\n1 2\n1 -2\n",
        "3\n4\n1 1\n1 2\n1 3\n1 -1\nx",
        12,
        2,
        "3\n2\n1 2\n1 -2\n",
    ),
    (
        "3\n2\n1 2\n1 -2\n",
        "3\n4\n1 1\n1 2\n1 3\n1 -4\n",
        12,
        2,
        "3\n2\n1 2\n1 -2\n",
    ),
    (
        "3\n2\n1 2\n1 -2\n",
        "3\n4\n1 1\n1 2\n1 3\n",
        12,
        2,
        "3\n2\n1 2\n1 -2\n",
    ),
    (
        "3\n2\n1 2\n1 -2\n",
        "3\n1\n1 1\n0\n",
        12,
        2,
        "3\n2\n1 2\n1 -2\n",
    ),
    (
        "3\n2\n1 2\n1 -2\n",
        "4\n1\n1 1\n",
        12,
        2,
        "3\n2\n1 2\n1 -2\n",
    ),
    ("3\n2\n1 2\n1 -2\n", "", 12, 2, "3\n2\n1 2\n1 -2\n"),
];

// Register 3 is written as this sheet; a failure names the row.
fn check_written<C: CubeNotation>(
    rt: &impl Abort,
    calculator: &mut Calculator,
    table: &[C],
    written: &str,
    row: &str,
) {
    let mut out = [0; 64];
    match write(calculator, 3, table, &mut out) {
        Ok(length) => {
            assert_eq!(rt; &out[..length.min(64)], written.as_bytes(), "{}", row);
        }
        Err(_) => panic!(rt; "the write was refused: {}", row),
    }
}

// A calculator whose register 3 holds one cube.
fn calculator_of_a_cube<C: CubeNotation>(heap: Global) -> Result<Calculator, Fail> {
    let mut tables = Tables::new(heap, C::blank(), 128, 256)?;
    tables
        .read(3, 3, b"3\n1\n0")
        .map_err(|_| Fail::new("the read was refused"))
}

// Each row says a cube, put at the first place of register 3, and the sheet that is written of it.
fn check_cubes<'a, R: Copy, C: CubeNotation, F: Fn(R) -> (C, &'a str)>(
    rt: &impl Abort,
    heap: Global,
    rows: &[R],
    case: F,
) -> Result<(), Fail>
    requires { F.IsAlwaysCallable case }
{
    let mut calculator = calculator_of_a_cube::<C>(heap)?;
    for row in rows {
        let (cube, written) = case(*row);
        let mut table = vec![in heap; C::blank(); 128]?;
        table[12] = cube;
        check_written(rt, &mut calculator, &table, written, written);
    }
    Ok(())
}

#[test]
fn any_word_is_a_cube(rt: HostRuntime) -> Result<(), Fail> {
    check_cubes(&rt, rt.alloc(), &WORDS, |(word, written)| {
        (PositionalCube::from(word), written)
    })
}

#[test]
fn any_pair_is_a_cube(rt: HostRuntime) -> Result<(), Fail> {
    check_cubes(&rt, rt.alloc(), &PAIRS, |(min, max, written)| {
        (MinMaxCube::from_bounds(min, max), written)
    })
}

// No read makes this word.
const MARK: u64 = u64::MAX;

// The first place without the mark, and how many places are without it.
fn unmarked(table: &[PositionalCube]) -> (Option<usize>, usize) {
    let first = table.iter().position(|cube| u64::from(*cube) != MARK);
    let count = table
        .iter()
        .filter(|cube| u64::from(**cube) != MARK)
        .count();
    (first, count)
}

// What a row says: its first place stands for none where it counts no place.
fn changed(first: usize, count: usize) -> (Option<usize>, usize) {
    match count {
        0 => (None, 0),
        _ => (Some(first), count),
    }
}

// Reads one text and then another into register 3.
fn read_both(
    before: &str,
    text: &str,
    tables: &mut Tables<PositionalCube>,
) -> Result<Calculator, Refusal> {
    let mut calculator = tables.read(3, 3, before.as_bytes())?;
    let k = RegisterNumber::try_from(3)?;
    let _ = calculator.read(
        k,
        text.as_bytes(),
        &mut tables.registers,
        &mut tables.working,
    );
    Ok(calculator)
}

#[test]
fn reads_change_their_own_places_alone(rt: HostRuntime) -> Result<(), Fail> {
    for &(before, text, first, count, after) in &READS {
        let mut tables = Tables::new(rt.alloc(), PositionalCube::from(MARK), 128, 256)?;
        let Ok(mut calculator) = read_both(before, text, &mut tables) else {
            return Err(Fail::new("the read was refused"));
        };
        assert_eq!(rt;
            unmarked(&tables.registers),
            changed(first, count),
            "{}",
            text
        );
        check_written(&rt, &mut calculator, &tables.registers, after, text);
    }
    Ok(())
}
