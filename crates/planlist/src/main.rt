// Prints what a plan block on standard input holds, or why it is refused.
#![tactic(auto)]

use std::io;

// Reads up to 4,096 bytes: no block is longer than 1,192, and what follows one changes nothing that is printed.
fn main(rt: HostRuntime) -> io::Result<()> {
    let mut input = [0u8; 4096];
    let n = program_io::read_full(&rt, &mut input)?;
    let mut text = [0u8; 1024];
    let size = block_text::list(&input[..n], &mut text);
    rt.write_all(&text[..size])
}
