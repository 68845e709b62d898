// The lines of a file from the last to the first: a float map's first line is the lowest, a pixmap's the highest.
// A place stays a number, and each function asks that the file can have it: a type for it would be opened at each call.
ghost use Rattle.std.specs.Prelude.{◌+◌, ◌≤◌, ◌<◌};

use std::fs::File;
use std::io;
use std::io::ErrorKind;
use std::os::unix::fs::FileExt;

// No file has more pixels: an offset is below 2^63.
const MOST: u64 = 3_074_457_345_618_258_602;

// This part of a file, from this place on, by way of the room for it.
fn copied(rt: &HostRuntime, file: &File, at: u64, part: &mut [u8]) -> io::Result<()>
    requires { at ≤ 9223372036854775807 }
{
    file.read_exact_at(part, at)?;
    rt.write_all(part)
}

fn put_piece(rt: &HostRuntime, file: &File, at: u64, n: usize) -> io::Result<()>
    requires { (n ≤ 65536) × (at ≤ 9223372036854775807) }
{
    let mut piece = program_io::channel_bytes();
    copied(rt, file, at, &mut piece[..n])
}

// So many bytes of a file from a place on, piece by piece.
fn put_part(rt: &HostRuntime, file: &File, from: u64, count: u64) -> io::Result<()>
    requires { from + count ≤ 9223372036854775807 }
{
    let end = from + count;
    for at in (from..end).step_by(65_536) {
        put_piece(rt, file, at, (end - at).min(65_536) as usize)?;
    }
    Ok(())
}

pub(crate) fn put_lines(rt: &HostRuntime, width: u32, height: u32, file: &File) -> io::Result<()> {
    if MOST < program_io::pixels_of(width, height) {
        return Err(io::Error::from(ErrorKind::FileTooLarge));
    }
    let line = 3 * (width as u64);
    for row in (0..height).rev() {
        put_part(rt, file, row as u64 * line, line)?;
    }
    Ok(())
}
