// Runs the list of a plan block on the picture behind it: both come on standard input, and the picture goes to standard output.
#![tactic(auto)]

mod picture;

ghost use Rattle.std.specs.Prelude.{◌<◌, IfOk, IfSome};

use list::Plan;
use pfm::Numbers;
use picture::Run;
use program_io::Ahead;
use std::io;

fn channels_refused(rt: &HostRuntime, start: u8) -> io::Result<()> {
    if start == 3 {
        return program_io::refuse(
            rt,
            "planrun",
            "the plan starts with three channels, and the picture is grey",
        );
    }
    program_io::refuse(
        rt,
        "planrun",
        "the plan starts with one channel, and the picture has three",
    )
}

// How far the picture is: the run, and how many pixels are left.
#[derive(Clone, Copy)]
struct Progress {
    run: Run,
    left: u64,
}

// The next strip, where nothing is refused.
fn next(rt: &HostRuntime, p: Progress, input: &mut Ahead) -> io::Result<Option<Progress>>
    requires { 0 < p.left }
    ensures { IfOk result (λ o. IfSome o (λ q. q.left < p.left)) }
{
    let numbers = p.run.numbers;
    let n = program_io::strip_of(numbers.width, p.left);
    let size = program_io::bytes_of(numbers.channels, n);
    input.fill(rt, size)?;
    let Some(bytes) = input.held().get(..size) else {
        return program_io::refused(rt, "planrun", "the picture ends early");
    };
    let Ok(run) = picture::strip(rt, p.run, n, bytes) else {
        return program_io::refused(rt, "planrun", "the picture cannot be written");
    };
    input.use_up(size);
    let left = p.left - n as u64;
    Ok(Some(Progress { run, left }))
}

// Strip by strip.
fn run_strips(rt: &HostRuntime, run: Run, input: &mut Ahead) -> io::Result<()> {
    let all = program_io::pixels_of(run.numbers.width, run.numbers.height);
    let mut p = Progress { run, left: all };
    while 0 < p.left {
        let Some(further) = next(rt, p, input)? else {
            return Ok(());
        };
        p = further;
        picture::show_progress(rt, p.left, all)?;
    }
    finish(rt, p.run, input)
}

fn finish(rt: &HostRuntime, run: Run, input: &Ahead) -> io::Result<()> {
    if !input.is_at_end(rt)? {
        return program_io::refuse(rt, "planrun", "bytes stand behind the picture");
    }
    picture::report(rt, run.state)
}

// Behind the header.
fn run_behind(rt: &HostRuntime, run: Run, input: &mut Ahead) -> io::Result<()> {
    let used = run.numbers.used;
    if picture::put_header(rt, run.end, input.held(), used).is_err() {
        return program_io::refuse(rt, "planrun", "the picture cannot be written");
    }
    input.pass(used);
    run_strips(rt, run, input)
}

// The plan on a picture that it can be run on.
fn run_plan(rt: &HostRuntime, plan: Plan, numbers: Numbers, input: &mut Ahead) -> io::Result<()> {
    if plan.start != numbers.channels {
        return channels_refused(rt, plan.start);
    }
    let opened = run_strips::open(run_strips::closed(), plan);
    let Ok(end) = opened.answer else {
        let judged = run_check::paper(opened.answer);
        return program_io::refuse_by(rt, "planrun", judged.number as u64, judged.position as u64);
    };
    let run = Run {
        state: opened.state,
        end,
        numbers,
    };
    run_behind(rt, run, input)
}

// The plan on the picture whose header is at the front of the input.
fn run_picture(rt: &HostRuntime, plan: Plan, input: &mut Ahead) -> io::Result<()> {
    let header = pfm::read(input.held());
    if !program_io::is_done(header.stage) {
        return program_io::header_refused(rt, "planrun", header.stage);
    }
    run_plan(rt, plan, header.numbers, input)
}

// The block at the front of the input, and the picture behind it.
fn run_block(rt: &HostRuntime, input: &mut Ahead) -> io::Result<()> {
    let block = block_read::read(input.held());
    if block.answer.is_err() {
        let read = block_read::paper(block.answer);
        return program_io::refuse_by(rt, "planrun", read.number as u64, 0);
    }
    input.pass(block.used);
    run_picture(rt, block.plan, input)
}

fn main(rt: HostRuntime) -> io::Result<()> {
    let mut input = Ahead::new();
    input.fill(&rt, 4_096)?;
    run_block(&rt, &mut input)
}
