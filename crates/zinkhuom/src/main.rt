// The program: reads plan.dpn and table.run from the folder it is started in, and prints one line
// on the pair. What the line says is decided in the crate judge; here files are only read.
#![tactic(auto)]

use anyhow::bail;
use judge::interim::write_headers_line;
use std::io::{ErrorKind, Read, Write};
use std::{fs, io};

// How many bytes of a file are read.
const MOST: u64 = 32_768;

// The first bytes of a file; a missing file counts as empty.
fn read_front(rt: &HostRuntime, path: &str) -> io::Result<Vec<u8>> {
    let mut bytes = Vec::new(rt.alloc());
    match fs::open(rt, path) {
        Ok(file) => {
            file.take(MOST).read_to_end(&mut bytes)?;
        }
        Err(error) if error.kind() == ErrorKind::NotFound => {}
        Err(error) => return Err(error),
    }
    Ok(bytes)
}

fn main(rt: HostRuntime) -> anyhow::Result<()> {
    let plan = read_front(&rt, "plan.dpn")?;
    let table = read_front(&rt, "table.run")?;
    // An array with a length: the call writes into memory that is lent to it.
    let mut line = [0; 64];
    let Ok(length) = write_headers_line(&plan, &table, &mut line) else {
        bail!("no room for the line");
    };
    rt.stdout().write_all(&line[0..length])?;
    Ok(())
}
