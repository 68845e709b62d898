// What the programs share: what they say and how they read (said.rt), and of pictures how large a strip is, how it is read (ahead.rt), what is said of a
// header, and where a picture ends.
#![tactic(auto)]

mod ahead;
mod said;

ghost use Rattle.std.specs.Prelude.{◌≡◌, ◌+◌, ◌*◌, ◌≤◌, ◌<◌, ◌⊎◌, IfOk, IsTrue, length, take};

pub use ahead::Ahead;
use pfm::Stage;
pub use said::{begin, least, read_full, refuse, refuse_by, refused, write_part};
use std::io;
use std::rt::Files;

pub fn pixels_of(width: u32, height: u32) -> u64
    ensures { result ≡ width * height }
{
    width as u64 * height as u64
}

// The pixels of a strip: sixteen lines, at least 1,024 pixels, and at most 65,536 where lines are long.
fn strip_by(width: u32) -> u64
    ensures { (0 < result) × (result ≤ 65536) }
{
    (16 * (width as u64)).clamp(1_024, 65_536)
}

// The pixels of the next strip, where so many are left.
pub fn strip_of(width: u32, left: u64) -> usize
    requires { 0 < left }
    ensures { (0 < result) × (result ≤ left) × (result ≤ 65536) }
{
    strip_by(width).min(left) as usize
}

// Zeros, for the samples of a channel of a strip. Of these four the `ensures` gives only the length, which lending a part needs.
// Kept as four: they differ in what they are zeros of too, and each name says what it is room for.
pub fn samples() -> [f32; 65536]
    ensures { 65536 ≡ length result }
{
    [0.0; 65536]
}

// Zeros, for the bytes of a channel of a strip on a screen.
pub fn channel_bytes() -> [u8; 65536]
    ensures { 65536 ≡ length result }
{
    [0; 65536]
}

// Room for the bytes of a strip.
pub fn strip_bytes() -> [u8; 786432]
    ensures { 786432 ≡ length result }
{
    [0; 786432]
}

// Room for a block and a header, which are in the first 4,096 bytes, and behind them for a strip's bytes.
pub fn room() -> [u8; 790528]
    ensures { 790528 ≡ length result }
{
    [0; 790528]
}

// The bytes of a strip's pixels, of so many channels. A number of pixels stays a number: each caller takes it to the lengths of several rooms, and a
// type for it would be opened at each.
pub fn bytes_of(channels: u8, pixels: usize) -> usize
    requires { pixels ≤ 65536 }
    ensures { result ≤ 786432 }
{
    if channels == 3 {
        return 12 * pixels;
    }
    4 * pixels
}

// Reads on until the input has so many bytes at its front, of which it holds some, or until there are no more; how many it then holds.
// Those that it holds stay, where reading fails too.
pub fn filled(rt: &impl Input, input: &mut [u8], held: usize, want: usize) -> io::Result<usize>
    requires { want ≤ length input.old }
    ensures whole { IfOk result (λ n. n ≤ held + want) }
    ensures one { IfOk result (λ n. (n ≤ held) ⊎ (n ≤ want)) }
    ensures more { IfOk result (λ n. held ≤ n) }
    ensures front { take held input.new ≡ take held input.old }
{
    if want <= held {
        return Ok(held);
    }
    let came = read_full(rt, &mut input[held..want])?;
    Ok(held + came)
}

pub fn is_done(stage: Stage) -> bool {
    stage == Stage::Done
}

pub fn header_refused(rt: &(impl Eprint + Files), program: &str, stage: Stage) -> io::Result<()> {
    match stage {
        Stage::NotPfm => refuse(rt, program, "this is no portable float map"),
        Stage::BadSize => refuse(
            rt,
            program,
            "width and height are not two numbers from 1 to 2147483647",
        ),
        Stage::BadScale => { refuse(rt, program, "the scale is no decimal number, or it is 0") }
        _ => refuse(rt, program, "the header of the picture does not end"),
    }
}

// Whether nothing comes behind the picture; `extra` bytes were read already.
pub fn at_end(rt: &impl Input, extra: usize) -> io::Result<bool>
    ensures { IfOk result (λ yes. IsTrue yes → extra ≡ 0) }
{
    let mut more = [0u8; 1];
    Ok(extra == 0 && read_full(rt, &mut more)? == 0)
}
