// The console: a command text from standard input, sheets from the working folder, and what is printed to standard output.
#![tactic(auto)]

use calculator::registers::REGISTERS;
use command::files::Files;
use cube::notation::CubeNotation;
use positional::PositionalCube;
use session::line::MOST_SHEET_BYTES;
use session::page::PAGE_BYTES;
use session::run::{MOST_COMMAND_BYTES, PLACES, run_text};
use std::alloc::Global;
use std::fs;
use std::io::{self, Read, Write};

const REGISTER_CUBES: usize = REGISTERS * PLACES as usize;

// A read works on twice as many.
const WORKING_CUBES: usize = 2 * REGISTER_CUBES;

// What a source holds, up to one part more than `most` bytes; none where it cannot be read.
// A loop over parts, and no `read_to_end`: that one reads again for ever where each read is interrupted, takes a failed read for a failed
// allocation where the system names it so, and may leave twice the room that the bytes need.
fn read_some<R: Read>(heap: Global, source: &mut R, most: usize) -> io::Result<Option<Vec<u8>>> {
    let mut bytes = Vec::new(heap);
    for _ in 0..=most {
        let mut part = [0u8; 512];
        match source.read(&mut part) {
            Ok(0) => break,
            Ok(count) => bytes.extend_from_slice(&part[0..count])?,
            Err(_) => return Ok(None),
        }
        if bytes.len() > most {
            break;
        }
    }
    Ok(Some(bytes))
}

// The file of register k, if there is one that can be read.
fn read_sheet_file(rt: &HostRuntime, k: usize) -> io::Result<Option<Vec<u8>>> {
    let name = format!(in rt.alloc(); "{k}.pcn")?;
    match fs::open(rt, name.as_str()) {
        Ok(mut file) => read_some(rt.alloc(), &mut file, MOST_SHEET_BYTES),
        Err(_) => Ok(None),
    }
}

fn read_files(rt: &HostRuntime) -> io::Result<Files> {
    let sheets = (0..REGISTERS)
        .map(|k| read_sheet_file(rt, k))
        .try_collect(rt.alloc())?;
    Ok(Files { sheets })
}

fn main(rt: HostRuntime) -> io::Result<()> {
    let heap = rt.alloc();
    let text = read_some(heap, &mut rt.stdin(), MOST_COMMAND_BYTES)?.unwrap_or(Vec::new(heap));
    let files = read_files(&rt)?;
    let mut table = vec![in heap; PositionalCube::blank(); REGISTER_CUBES]?;
    let mut working = vec![in heap; PositionalCube::blank(); WORKING_CUBES]?;
    let mut page = vec![in heap; 0u8; PAGE_BYTES]?;
    let run = run_text::<PositionalCube>(heap, &text, &files, &mut table, &mut working, &mut page)?;
    rt.stdout().write_all(&run.output)?;
    Ok(())
}
