// Replays the recorded answers on standard input: of each kind, how many ran and how many differ; and the first that differs.
#![tactic(auto)]

ghost use Rattle.std.specs.Prelude.{◌<◌};

use std::io;

// A kind stays a number, since a line may have one that is not known, which counts under 0.
const KINDS: usize = 32;

#[derive(Clone, Copy)]
struct Count {
    ran: u64,
    differ: u64,
}

// The counts by kind, where 0 stands for a line that is no record of a known kind.
#[derive(Clone, Copy)]
struct Tally {
    kinds: [Count; KINDS],
    lines: u64,
    all_same: bool,
}

fn kind_of(line: &[u8]) -> usize
    ensures { result < 32 }
{
    let kind = test_record::word(line, 0);
    if kind < 32 {
        return kind as usize;
    }
    0
}

fn show(rt: &impl Print, number: u64, line: &[u8]) -> io::Result<()> {
    print!(rt; "first at line {number}: ")?;
    rt.write_all(line)?;
    rt.println("")
}

fn counted(rt: &impl Print, tally: Tally, line: &[u8]) -> io::Result<Tally> {
    let kind = kind_of(line);
    let mut next = tally;
    next.lines = tally.lines.wrapping_add(1);
    next.kinds[kind].ran = tally.kinds[kind].ran.wrapping_add(1);
    if test_recorded::same(line) {
        return Ok(next);
    }
    next.kinds[kind].differ = tally.kinds[kind].differ.wrapping_add(1);
    if tally.all_same {
        show(rt, next.lines, line)?;
    }
    next.all_same = false;
    Ok(next)
}

fn report(rt: &impl Print, tally: Tally) -> io::Result<()> {
    for kind in 0..KINDS {
        let Count { ran, differ } = tally.kinds[kind];
        if ran > 0 {
            println!(rt; "kind {kind}: {ran} ran, {differ} differ")?;
        }
    }
    Ok(())
}

fn main(rt: HostRuntime) -> io::Result<()> {
    let mut buf = [0u8; 65_536];
    let mut p = test_lines::begun();
    let mut tally = Tally {
        kinds: [Count { ran: 0, differ: 0 }; KINDS],
        lines: 0,
        all_same: true,
    };
    while 0 < p.turns {
        p = test_lines::next(&rt, &mut buf, p);
        if let Some(line) = test_lines::line(&buf, p) {
            tally = counted(&rt, tally, line)?;
        }
    }
    report(&rt, tally)
}
