// A strip of a picture: bytes in, samples, the list run on them, bytes out.
// Three slices, as `channels` says; `n` stays a number, as `program_io` says.
ghost use Rattle.std.specs.Prelude.{◌≤◌};

use pfm::{Numbers, Unfit};
use run_strips::State;
use std::io;
use std::io::IsTerminal;

fn put(
    end: u8,
    little: bool,
    a: &[f32],
    b: &[f32],
    c: &[f32],
    out: &mut [u8],
) -> Result<(), Unfit> {
    if end == 3 {
        return pfm::three_to(a, b, c, little, out);
    }
    pfm::one_to(a, little, out)
}

// A run that is open, the width that it ends at, and what the picture's header says.
#[derive(Clone, Copy)]
pub(crate) struct Run {
    pub(crate) state: State,
    pub(crate) end: u8,
    pub(crate) numbers: Numbers,
}

// The samples of these bytes, the list run on them, and their bytes to standard output by way of the room for them; the run after them.
// The lengths fit: each is that of the strip's pixels.
fn on_samples(
    rt: &HostRuntime,
    run: Run,
    bytes: &[u8],
    a: &mut [f32],
    b: &mut [f32],
    c: &mut [f32],
    out: &mut [u8],
) -> io::Result<Run> {
    let numbers = run.numbers;
    let _ = pfm::channels_from(numbers.channels, bytes, numbers.little, a, b, c);
    let state = run_strips::strip(run.state, a, b, c).state;
    let _ = put(run.end, numbers.little, a, b, c, out);
    rt.write_all(out)?;
    let mut next = run;
    next.state = state;
    Ok(next)
}

// So many pixels. Not inlined: a picture that is refused would touch the rooms of a strip.
#[inline(never)]
pub(crate) fn strip(rt: &HostRuntime, run: Run, n: usize, bytes: &[u8]) -> io::Result<Run>
    requires { n ≤ 65536 }
{
    let mut a = program_io::samples();
    let mut b = program_io::samples();
    let mut c = program_io::samples();
    let mut out = program_io::strip_bytes();
    let size = program_io::bytes_of(run.end, n);
    on_samples(
        rt,
        run,
        bytes,
        &mut a[..n],
        &mut b[..n],
        &mut c[..n],
        &mut out[..size],
    )
}

// The header that came, with the letter for the width that the run ends at.
pub(crate) fn put_header(rt: &HostRuntime, end: u8, header: &[u8], used: usize) -> io::Result<()> {
    let mark = if end == 3 { b'F' } else { b'f' };
    rt.write_all(&[b'P', mark])?;
    program_io::write_part(rt, header, 2, used)
}

// How far it is, where standard error is a terminal and the picture is large; what is said next stands over it.
pub(crate) fn show_progress(rt: &HostRuntime, left: u64, all: u64) -> io::Result<()> {
    if (left == 0) | (all < 4_194_304) {
        return Ok(());
    }
    if !rt.stderr().is_terminal() {
        return Ok(());
    }
    let percent = left / (all / 100 + 1);
    eprint!(rt; "planrun: {percent} % left \r")
}

// The width that the run ended at, and how many samples went bad.
pub(crate) fn report(rt: &HostRuntime, state: State) -> io::Result<()> {
    let closed = run_strips::close(state);
    let width = closed.answer.unwrap_or(0);
    let bad = closed.bad;
    eprintln!(rt; "planrun: width {width}, bad samples {bad}")
}
