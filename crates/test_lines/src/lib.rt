// Standard input, line by line. No contract can say what is read; that the turns fall is what the program's end rests on.
#![tactic(auto)]

ghost use Rattle.std.specs.Prelude.{◌≡◌, ◌≤◌, ◌<◌, length};
ghost use Rattle.test_lines.specs.Turns.{Falls};

use std::io;
use std::io::Read;

// How far a program is with its input: the line in hand, if it has one, is the bytes between two places of its buffer, and
// those from next to filled are read and not yet handed out. Places, since a slice would borrow the buffer that is read into.
#[derive(Clone, Copy)]
pub struct Progress {
    pub line: Option<(usize, usize)>,
    pub next: usize,
    pub filled: usize,
    // How many turns are left: a proved loop has to end. No run uses them up; it ends with the input, at 0.
    pub turns: u64,
}

pub fn begun() -> Progress {
    Progress {
        line: None,
        next: 0,
        filled: 0,
        turns: u64::MAX,
    }
}

fn ended(filled: usize) -> Progress
    ensures { result.turns ≡ 0 }
{
    Progress {
        line: None,
        next: 0,
        filled,
        turns: 0,
    }
}

// Finds the next line, which ends at the first newline, or else reads on. Where the input ends, what is left is a line too.
pub fn next(rt: &impl io::Input, buf: &mut [u8; 65536], p: Progress) -> Progress
    ensures { Falls p result }
{
    let from = p.next;
    let filled = p.filled;
    let turns = p.turns;
    if (turns == 0) | (buf.len() < filled) | (filled < from) {
        return ended(filled);
    }
    match buf[from..filled].iter().position(|c| *c == b'\n') {
        Some(n) => Progress {
            line: Some((from, from + n)),
            next: from + n + 1,
            filled,
            turns: turns - 1,
        },
        None => read_on(rt, buf, from, filled, turns),
    }
}

// Moves what is left to the front and reads behind it. Where the buffer is full, the input ends here too: the line is too
// long for a record.
fn read_on(rt: &impl io::Input, buf: &mut [u8], from: usize, filled: usize, turns: u64) -> Progress
    requires { (0 < turns) × (from ≤ filled) × (filled ≤ length buf.old) }
    ensures { result.turns < turns }
{
    buf.copy_within(from..filled, 0);
    let left = filled - from;
    match rt.reader().read(&mut buf[left..]) {
        Ok(0) if left == 0 => ended(left),
        Ok(0) => Progress {
            line: Some((0, left)),
            next: left,
            filled: left,
            turns: turns - 1,
        },
        Ok(got) => Progress {
            line: None,
            next: 0,
            filled: left + got,
            turns: turns - 1,
        },
        // A read that fails counts as a line that is no record, and is the last.
        Err(_) => Progress {
            line: Some((0, 0)),
            next: 0,
            filled: left,
            turns: 0,
        },
    }
}

// The line in hand, where there is one.
pub fn line(buf: &[u8; 65536], p: Progress) -> Option<&[u8]> {
    let (start, end) = p.line?;
    if (buf.len() < end) | (end < start) {
        return None;
    }
    Some(&buf[start..end])
}
