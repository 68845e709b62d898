// What the programs say on standard error, and how they read. A refusal also puts a byte on descriptor 3, where one is open, and the program's
// own status stays 0.
ghost use Rattle.std.specs.Prelude.{◌≡◌, ◌≤◌, IfOk, length};

use std::fs::OpenOptions;
use std::io::{Read, Write};
use std::os::unix::fs::MetadataExt;
use std::rt::Files;
use std::{fs, io};

const STATUS: &str = "/proc/self/fd/3";

pub fn least(a: usize, b: usize) -> usize
    ensures { (result ≤ a) × (result ≤ b) }
{
    a.min(b)
}

// Writes the bytes between two places, those of them that there are: no slice, since a place may lie behind the end.
pub fn write_part(out: &impl Print, bytes: &[u8], from: usize, to: usize) -> io::Result<()> {
    let end = least(to, bytes.len());
    let start = least(from, end);
    out.write_all(&bytes[start..end])
}

// Reads until the room is full or the input ends; how many bytes came.
pub fn read_full(rt: &impl Input, room: &mut [u8]) -> io::Result<usize>
    ensures { IfOk result (λ n. n ≤ length room.new) }
{
    let mut input = rt.reader();
    let mut done: usize = 0;
    while done < room.len() {
        let n = input.read(&mut room[done..])?;
        if n == 0 {
            break;
        }
        done += n;
    }
    Ok(done)
}

// The link to a descriptor may be written by its owner where the descriptor was opened for writing: one for reading alone is not for this.
// A pipe that nobody reads is opened for both ways without waiting.
fn mark(rt: &impl Files) -> io::Result<()> {
    if fs::symlink_metadata(rt, STATUS)?.mode() & 0o200 == 0 {
        return Ok(());
    }
    let mut status = OpenOptions::new().read(true).append(true).open(rt, STATUS)?;
    status.write_all(b"1")
}

// How a refusal begins. The program is told by its name: a struct of the runtime and a name would be made at each refusal. Where descriptor 3 isn't open, no byte is put there.
pub fn begin(rt: &(impl Eprint + Files), program: &str) -> io::Result<()> {
    let _ = mark(rt);
    eprint!(rt; "{program}: ")
}

// A refusal in words.
pub fn refuse(rt: &(impl Eprint + Files), program: &str, words: &str) -> io::Result<()> {
    begin(rt, program)?;
    eprintln!(rt; "{words}")
}

// The same, where nothing comes of it.
pub fn refused<T>(rt: &(impl Eprint + Files), program: &str, words: &str) -> io::Result<Option<T>>
    ensures { IfOk result (λ o. o ≡ None) }
{
    refuse(rt, program, words)?;
    Ok(None)
}

// What a refusal's number says, in 01's words. By number: planmake has its refusals from the C door, and no error of ours.
fn words_of(number: u64) -> &'static str {
    match number {
        1 => ": a side is an ICC profile",
        2 => ": a coordinate or g lies outside its range",
        3 => ": the source is Unknown, or the target Xyb or Unknown",
        4 => ": lengths are unequal",
        5 => ": an op needs another width",
        6 => ": an op is not carried",
        7 => ": the block ends early",
        8 => ": wrong mark or version",
        9 => ": unknown op kind or bad field",
        10 => ": start width not 1 or 3, count above 32, or a false end width",
        11 => ": no run is open",
        12 => ": the buffer is too short",
        15 => ": the Unknown curve is retired",
        _ => "",
    }
}

// A refusal by number, and its position where that says more.
pub fn refuse_by(
    rt: &(impl Eprint + Files),
    program: &str,
    number: u64,
    position: u64,
) -> io::Result<()> {
    begin(rt, program)?;
    eprint!(rt; "refused {number}")?;
    if (number == 5) | (number == 6) {
        eprint!(rt; " at {position}")?;
    }
    let words = words_of(number);
    eprintln!(rt; "{words}")
}
