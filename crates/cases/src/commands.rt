// Whole command texts, and all that they print.
use crate::calls::{Tables, padded};
use crate::notations::{MinMaxCube, PositionalCube};
use command::files::Files;
use cube::notation::CubeNotation;
use session::run::run_text;
use std::alloc::{AllocError, Global};
use std::process::Abort;
use std::test::Fail;

// The files of registers 0 to 8: a text, and the length that spaces make it up to; none where there is no such file.
static FOLDER: [Option<(&str, usize)>; 9] = [
    Some(("3\n2\n2 1 2\n2 -1 3\n", 0)),
    Some(("3\n1\n1 -2", 0)),
    Some(("4\n0\n", 0)),
    Some(("3\n0\n", 8193)),
    Some(("3\n1\n1 3\n", 8192)),
    Some(("", 0)),
    Some(("3\n\x00", 0)),
    None,
    Some(("3\n65\n", 0)),
];

// A command text, and what it prints.
static TEXTS: [(&str, &str); 57] = [
    ("", ""),
    ("\n \t\r\n", ""),
    ("v 3\n", ""),
    ("v 3", ""),
    ("v 3\np 0\n", "3\n0\n"),
    ("v 20\np 31", "20\n0\n"),
    ("v 3\nr 0\np 0\n", "3\n2\n2 1 2\n2 -1 3\n"),
    ("v3\nr0\np0", "3\n2\n2 1 2\n2 -1 3\n"),
    (
        "\t v\t3 \r\n\r\n r -0\r\n p 00000 \r",
        "3\n2\n2 1 2\n2 -1 3\n",
    ),
    (
        "v 3\nr 0\nr 1\np 1\np 0\np 2\n",
        "3\n1\n1 -2\n3\n2\n2 1 2\n2 -1 3\n3\n0\n",
    ),
    ("v 3\nr 4\np 4\n", "3\n1\n1 3\n"),
    // a first command that is refused ends the run
    ("r 0\nv 3\np 0\n", "line 1 command 50 at 0\n"),
    ("q\nv 3\np 0\n", "line 1 command 50 at 0\n"),
    ("\n V 3\nv 3\np 0\n", "line 2 command 50 at 2\n"),
    ("v x\nv 3\np 0\n", "line 1 command 20 at 2\n"),
    ("vv 3\n", "line 1 command 20 at 1\n"),
    ("v 000003\np 0\n", "line 1 command 21 at 2\n"),
    ("v -\np 0\n", "line 1 command 22 at 2\n"),
    ("v\nv 3\np 0\n", "line 1 command 51 at 0\n"),
    ("v 3 3\np 0\n", "line 1 command 51 at 0\n"),
    ("v 0\nv 3\np 0\n", "line 1 calculator 3 at 0\n"),
    ("v 21\np 0\n", "line 1 calculator 3 at 0\n"),
    ("v -3\np 0\n", "line 1 calculator 3 at 0\n"),
    // any other refused line does not; lines are counted, blank ones too
    (
        "\n\n  v 3\r\n\n x\np 0\n",
        "line 5 command 50 at 11\n3\n0\n",
    ),
    ("v 3\nv 3\np 0\n", "line 2 command 50 at 4\n3\n0\n"),
    ("v 3\nR 0\n", "line 2 command 50 at 4\n"),
    ("v 3\n0 r\n", "line 2 command 50 at 4\n"),
    ("v 3\nr 0x\np 0\n", "line 2 command 20 at 7\n3\n0\n"),
    ("v 3\nr 0 p 0\n", "line 2 command 20 at 8\n"),
    ("v 3\np 123456\n", "line 2 command 21 at 6\n"),
    ("v 3\nr - 1\n", "line 2 command 22 at 6\n"),
    ("v 3\nr\np 0\n", "line 2 command 51 at 0\n3\n0\n"),
    ("v 3\np 0 1\n", "line 2 command 51 at 0\n"),
    ("v 3\nq 1\np 0\n", "line 2 command 51 at 0\n3\n0\n"),
    (
        "v 3\nr 32\nr -1\np 32\n",
        "line 2 command 1 at 0\nline 3 command 1 at 0\nline 4 command 1 at 0\n",
    ),
    (
        "v 3\nr 7\nr 31\np 7\n",
        "line 2 command 52 at 0\nline 3 command 52 at 0\n3\n0\n",
    ),
    ("v 3\np 31\n", "3\n0\n"),
    // which one, where several apply
    ("v 3\nz x 123456 99\n", "line 2 command 50 at 4\n"),
    ("v 3\nr 1 x 123456\n", "line 2 command 20 at 8\n"),
    ("v 3\nr 123456 x -\n", "line 2 command 21 at 6\n"),
    ("v 3\nr 1 2 -\n", "line 2 command 22 at 10\n"),
    ("v 3\nq x\np 0\n", "line 2 command 20 at 6\n3\n0\n"),
    ("v 3\nr 99 99\n", "line 2 command 51 at 0\n"),
    ("v 3\nr 99\n", "line 2 command 1 at 0\n"),
    // faults of a sheet
    ("v 3\nr 2\n", "line 2 sheet 30 at 0\n"),
    ("v 4\nr 2\np 2\nr 0\n", "4\n0\nline 4 sheet 30 at 0\n"),
    ("v 3\nr 3\np 3\n", "line 2 sheet 23 at 0\n3\n0\n"),
    ("v 3\nr 5\n", "line 2 sheet 36 at 0\n"),
    ("v 3\nr 6\n", "line 2 sheet 20 at 2\n"),
    ("v 3\nr 8\n", "line 2 sheet 31 at 2\n"),
    ("v 3\nr 1\nr 2\np 1\n", "line 3 sheet 30 at 0\n3\n1\n1 -2\n"),
    // everything after q is ignored
    ("v 3\nq\np 0\nx\n", ""),
    ("v 3\np 0\n q \r\nx", "3\n0\n"),
    ("v 3\nq", ""),
    // bytes that no command has
    ("\x00", "line 1 command 50 at 0\n"),
    ("v 3\n\x0cp 0\n", "line 2 command 50 at 4\n"),
    ("v 3\nr\x00\np 0\n", "line 2 command 20 at 5\n3\n0\n"),
];

// The same of bytes that are no text.
static BYTES: [(&[u8], &str); 4] = [
    (b"\xff\nv 3\n", "line 1 command 50 at 0\n"),
    (b"v\xff3\n", "line 1 command 20 at 1\n"),
    (b"v 3\n\xff\np 0\n", "line 2 command 50 at 4\n3\n0\n"),
    (b"v 3\np 0\x80\n", "line 2 command 20 at 7\n"),
];

// A text and the length that line feeds before it make it up to, the cubes of the register table and of the working table, the bytes of the page, and what is printed.
static LENGTHS: [(&str, usize, usize, usize, usize, &str); 18] = [
    ("v 3\np 0\n", 4096, 2048, 4096, 99, "3\n0\n"),
    (
        "v 3\np 0\n",
        4097,
        2048,
        4096,
        99,
        "line 0 command 23 at 0\n",
    ),
    (
        "v 3\nx",
        4096,
        2048,
        4096,
        99,
        "line 4093 command 50 at 4095\n",
    ),
    ("x", 4096, 2048, 4096, 99, "line 4096 command 50 at 4095\n"),
    ("x", 4097, 2048, 4096, 99, "line 0 command 23 at 0\n"),
    ("", 4096, 2048, 4096, 99, ""),
    ("", 4097, 2048, 4096, 99, "line 0 command 23 at 0\n"),
    // a page that is too small
    (
        "v 3\nr 0\np 0\n",
        0,
        2048,
        4096,
        17,
        "3\n2\n2 1 2\n2 -1 3\n",
    ),
    (
        "v 3\nr 0\np 0\np 1\n",
        0,
        2048,
        4096,
        16,
        "line 3 calculator 8 at 0\n3\n0\n",
    ),
    (
        "v 3\np 0\nq\n",
        0,
        2048,
        4096,
        3,
        "line 2 calculator 8 at 0\n",
    ),
    (
        "v 3\nx\np 0\n",
        0,
        2048,
        4096,
        23,
        "line 2 command 50 at 4\n3\n0\n",
    ),
    (
        "v 3\nx\np 0\n",
        0,
        2048,
        4096,
        22,
        "line 2 calculator 8 at 0\n3\n0\n",
    ),
    (
        "x\nv 3\np 0\n",
        0,
        2048,
        4096,
        22,
        "line 1 calculator 8 at 0\n",
    ),
    (
        "v 0\nv 3\np 0\n",
        0,
        2048,
        4096,
        0,
        "line 1 calculator 8 at 0\n",
    ),
    ("v 3\nr 2\n", 0, 2048, 4096, 0, "line 2 calculator 8 at 0\n"),
    // tables that are too short
    (
        "v 3\nr 0\np 0\n",
        0,
        2047,
        4096,
        99,
        "line 2 calculator 4 at 0\nline 3 calculator 4 at 0\n",
    ),
    (
        "v 3\nr 0\np 0\n",
        0,
        2048,
        4095,
        99,
        "line 2 calculator 4 at 0\n3\n0\n",
    ),
    (
        "v 3\nr 7\nr 2\n",
        0,
        0,
        0,
        99,
        "line 2 command 52 at 0\nline 3 calculator 4 at 0\n",
    ),
];

fn sheet(heap: Global, file: Option<(&str, usize)>) -> Result<Option<Vec<u8>>, AllocError> {
    match file {
        Some((text, length)) => Ok(Some(padded(heap, b' ', text.as_bytes(), length)?)),
        None => Ok(None),
    }
}

fn folder(heap: Global) -> Result<Files, AllocError> {
    let sheets = FOLDER
        .iter()
        .map(|file| sheet(heap, *file))
        .try_collect(heap)?;
    Ok(Files { sheets })
}

fn check_text<C: CubeNotation>(
    rt: &impl Abort,
    heap: Global,
    files: &Files,
    tables: &mut Tables<C>,
    page: &mut [u8],
    text: &[u8],
    output: &str,
) -> Result<(), Fail> {
    let run = run_text(
        heap,
        text,
        files,
        &mut tables.registers,
        &mut tables.working,
        page,
    )?;
    assert_eq!(rt; &run.output[..], output.as_bytes(), "{}", output);
    Ok(())
}

fn check_texts<C: CubeNotation>(rt: &impl Abort, heap: Global) -> Result<(), Fail> {
    let files = folder(heap)?;
    let mut tables = Tables::new(heap, C::blank(), 2048, 4096)?;
    let mut check = |text: &[u8], output: &str| {
        check_text(rt, heap, &files, &mut tables, &mut [0; 99], text, output)
    };
    for &(text, output) in &TEXTS {
        check(text.as_bytes(), output)?;
    }
    for &(bytes, output) in &BYTES {
        check(bytes, output)?;
    }
    Ok(())
}

#[test]
fn texts_print(rt: HostRuntime) -> Result<(), Fail> {
    check_texts::<PositionalCube>(&rt, rt.alloc())
}

#[test]
fn texts_print_the_same_in_min_max(rt: HostRuntime) -> Result<(), Fail> {
    check_texts::<MinMaxCube>(&rt, rt.alloc())
}

#[test]
fn texts_tables_and_pages_have_lengths(rt: HostRuntime) -> Result<(), Fail> {
    let heap = rt.alloc();
    let files = folder(heap)?;
    for &(text, length, cubes, room, bytes, output) in &LENGTHS {
        let text = padded(heap, b'\n', text.as_bytes(), length)?;
        let mut tables = Tables::new(heap, PositionalCube::blank(), cubes, room)?;
        let mut page = vec![in heap; 0; bytes]?;
        check_text(&rt, heap, &files, &mut tables, &mut page, &text, output)?;
    }
    Ok(())
}
