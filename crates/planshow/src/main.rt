// Shows a picture: a portable float map on standard input, a portable pixmap of screen bytes on standard output.
#![tactic(auto)]

mod shown;
mod turned;

ghost use Rattle.std.specs.Prelude.{◌<◌, IfOk, IfSome};

use pfm::Numbers;
use program_io::Ahead;
use std::fs::{File, OpenOptions};
use std::io::ErrorKind;
use std::os::unix::fs::OpenOptionsExt;
use std::{fs, io, process};

// The next strip of so many pixels that are left, where nothing is refused; how many are left then.
fn next(
    rt: &HostRuntime,
    left: u64,
    numbers: Numbers,
    file: &mut File,
    input: &mut Ahead,
) -> io::Result<Option<u64>>
    requires { 0 < left }
    ensures { IfOk result (λ o. IfSome o (λ further. further < left)) }
{
    let n = program_io::strip_of(numbers.width, left);
    let size = program_io::bytes_of(numbers.channels, n);
    input.fill(rt, size)?;
    let Some(bytes) = input.held().get(..size) else {
        return program_io::refused(rt, "planshow", "the picture ends early");
    };
    if shown::strip(numbers, n, bytes, file).is_err() {
        return program_io::refused(rt, "planshow", "there is no room for the picture in /tmp");
    }
    input.use_up(size);
    Ok(Some(left - n as u64))
}

fn whole(rt: &HostRuntime, input: &Ahead) -> io::Result<bool> {
    if input.is_at_end(rt)? {
        return Ok(true);
    }
    program_io::refuse(rt, "planshow", "bytes stand behind the picture")?;
    Ok(false)
}

// Strip by strip into a file; whether the picture was whole.
fn filed(
    rt: &HostRuntime,
    numbers: Numbers,
    file: &mut File,
    input: &mut Ahead,
) -> io::Result<bool> {
    let mut left = program_io::pixels_of(numbers.width, numbers.height);
    while 0 < left {
        let Some(further) = next(rt, left, numbers, file, input)? else {
            return Ok(false);
        };
        left = further;
    }
    whole(rt, input)
}

// A file of no name, for the time that the program runs. Its name is this process's, and a number that no file has yet.
fn a_file(rt: &HostRuntime) -> io::Result<File> {
    let id = process::id(rt.process());
    let mut how = OpenOptions::new();
    how.read(true).write(true).create_new(true).mode(0o600);
    for n in 0..u8::MAX {
        let name = format!(in rt.alloc(); "/tmp/planshow-{id}-{n}")?;
        match how.open(rt, &name) {
            Ok(file) => {
                fs::remove_file(rt, &name)?;
                return Ok(file);
            }
            Err(error) if error.kind() == ErrorKind::AlreadyExists => {}
            Err(error) => return Err(error),
        }
    }
    Err(io::Error::from(ErrorKind::AlreadyExists))
}

// The size stands as it came, between the mark and the largest byte.
fn put_header(rt: &HostRuntime, numbers: Numbers, header: &[u8]) -> io::Result<()> {
    rt.write_all(b"P6")?;
    program_io::write_part(rt, header, 2, numbers.sized)?;
    rt.write_all(b"255\n")
}

fn put(rt: &HostRuntime, numbers: Numbers, header: &[u8], file: &mut File) -> io::Result<()> {
    put_header(rt, numbers, header)?;
    turned::put_lines(rt, numbers.width, numbers.height, file)
}

// Nothing is written before the picture was read to its end.
fn show(rt: &HostRuntime, numbers: Numbers, file: &mut File, input: &mut Ahead) -> io::Result<()> {
    input.pass(numbers.used);
    if !filed(rt, numbers, file, input)? {
        return Ok(());
    }
    if put(rt, numbers, input.passed(), file).is_err() {
        return program_io::refuse(rt, "planshow", "the picture cannot be written");
    }
    Ok(())
}

// The picture at the front of the input.
fn show_picture(rt: &HostRuntime, input: &mut Ahead) -> io::Result<()> {
    let header = pfm::read(input.held());
    if !program_io::is_done(header.stage) {
        return program_io::header_refused(rt, "planshow", header.stage);
    }
    let numbers = header.numbers;
    match a_file(rt) {
        Ok(mut file) => show(rt, numbers, &mut file, input),
        Err(_) => program_io::refuse(rt, "planshow", "no file can be made in /tmp"),
    }
}

fn main(rt: HostRuntime) -> io::Result<()> {
    let mut input = Ahead::new();
    input.fill(&rt, 4_096)?;
    show_picture(&rt, &mut input)
}
