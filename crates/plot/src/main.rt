#![tactic(auto)]
// Reads a .blocks text from standard input, and writes the .pl text of its blocks, packed, or the line of a refusal.
use plan::Settled;
use plotter::plot;
use std::io;
use std::io::{Read, Write};

// One byte more than a text may have: as much as decides the answer.
const MOST_BYTES: u64 = 65_537;

// More than the header and 512 lines of 51 bytes: a name of 32, two numbers of 8 digits, two spaces and LF.
const ROOM: usize = 32_768;

fn main(rt: HostRuntime) -> io::Result<()> {
    let mut text = Vec::new(rt.alloc());
    rt.stdin().take(MOST_BYTES).read_to_end(&mut text)?;
    let plan = Settled::new(rt.alloc())?;
    let mut out = vec![in rt.alloc(); 0u8; ROOM]?;
    match plot(plan, &text, &mut out) {
        Ok(n) => {
            out.truncate(n);
            rt.stdout().write_all(&out)
        }
        Err(refusal) => rt.println(refusal),
    }
}
