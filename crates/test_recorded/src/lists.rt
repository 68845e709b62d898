// Lists that are merged, and lists that are run.
// Three slices, as `channels` says.
use crate::cuts;
use bad_samples::Stepped;
use list::Plan;
use op::Op;
use test_record::from_word;

// More samples of a channel than a record has room for.
const ROOM: usize = 160;

// Start width, list and the answer, a list.
pub(crate) fn same_merged(words: &[u8]) -> bool {
    let Some(given) = test_record::list_at(words, 0, 1) else {
        return false;
    };
    let Some(answer) = test_record::list_at(words, 0, given.next) else {
        return false;
    };
    let merged = list_merge::merge(given.list);
    answer.next == test_record::words(words)
        && merged.answer.is_ok()
        && list_same::same_list(merged.plan, answer.list)
}

// What a run that is not refused ended with: its width, and how many samples went bad.
#[derive(Clone, Copy)]
pub struct Reached {
    pub width: u8,
    pub bad: u64,
}

// How many words say the strips: their number, each, and the count of each. A line has fewer than 4,000.
fn strip_words(cut: bool, words: &[u8]) -> u32 {
    let number = test_record::word(words, 0);
    if cut && number < 4000 {
        return 2 * number + 1;
    }
    0
}

// Reads the given channels, and runs the list on them, at once or by strips: a flag and no closure, since it says too how the record is laid out.
fn reached_by(
    list: Plan,
    cut: bool,
    given: &[u8],
    a: &mut [f32],
    b: &mut [f32],
    c: &mut [f32],
) -> Option<Reached> {
    test_record::read_channels(given, a, b, c);
    if cut {
        return cuts::by_strips(list, from_word(given, 3 * a.len()), a, b, c);
    }
    let ran = run::run(list, a, b, c);
    Some(Reached {
        width: ran.outcome.ok()?,
        bad: ran.bad,
    })
}

// The op's own step: as `run_op`, by the steps that report.
fn stepped(op: Op, width: u8, a: &mut [f32], b: &mut [f32], c: &mut [f32]) -> Stepped {
    match op {
        Op::XybToMixedLms {
            opsin_bias,
            intensity_target,
        } => step_xyb::xyb_to_mixed_lms(opsin_bias, intensity_target, a, b, c),
        Op::LumaToXyz { illuminant } => steps::luma_to_xyz(illuminant, a, b, c),
        Op::XyzToLuma => steps::xyz_to_luma(a, b, c),
        Op::Matrix(m) => steps::matrix(m, a, b, c),
        Op::Clip => steps::clip(width, a, b, c),
        _ => steps::unchanged(width, a, b, c),
    }
}

// Width, how many went bad, and the channels.
fn same_reached(reached: Option<Reached>, answer: &[u8], a: &[f32], b: &[f32], c: &[f32]) -> bool {
    let Some(Reached { width, bad }) = reached else {
        return false;
    };
    width as u32 == test_record::word(answer, 0)
        && bad == test_record::word(answer, 1) as u64
        && test_record::same_channels(from_word(answer, 2), a, b, c)
}

// What the own step of the first op ends with.
fn reached_in_step(list: Plan, a: &mut [f32], b: &mut [f32], c: &mut [f32]) -> Option<Reached> {
    let step = stepped(list.ops[0].op, list.start, a, b, c);
    Some(Reached {
        width: step.answer.ok()?,
        bad: step.bad,
    })
}

// Of a list of one op, what that op's own step ends with.
fn step_same(
    list: Plan,
    given: &[u8],
    answer: &[u8],
    a: &mut [f32],
    b: &mut [f32],
    c: &mut [f32],
) -> bool {
    if list.count != 1 {
        return true;
    }
    test_record::read_channels(given, a, b, c);
    let reached = reached_in_step(list, a, b, c);
    same_reached(reached, answer, a, b, c)
}

// What the channels end with, by the step of a single op, and then by the run.
fn run_same(
    list: Plan,
    cut: bool,
    given: &[u8],
    answer: &[u8],
    a: &mut [f32],
    b: &mut [f32],
    c: &mut [f32],
) -> bool {
    if !step_same(list, given, answer, a, b, c) {
        return false;
    }
    let reached = reached_by(list, cut, given, a, b, c);
    same_reached(reached, answer, a, b, c)
}

// What stands after the list: n, the channels, the strips where these are cut, and the answer.
fn same_after(list: Plan, cut: bool, words: &[u8]) -> bool {
    let n = test_record::word(words, 0) as usize;
    if n > ROOM {
        return false;
    }
    let strips = strip_words(cut, from_word(words, 1 + 3 * n)) as usize;
    if test_record::words(words) != 3 + 6 * n + strips {
        return false;
    }
    let mut a = [0.0f32; ROOM];
    let mut b = [0.0f32; ROOM];
    let mut c = [0.0f32; ROOM];
    run_same(
        list,
        cut,
        from_word(words, 1),
        from_word(words, 1 + 3 * n + strips),
        &mut a[..n],
        &mut b[..n],
        &mut c[..n],
    )
}

// Start width, list, n, the three channels, and where these are cut the strips; width, how many went bad and the three channels.
pub(crate) fn same_run(words: &[u8], cut: bool) -> bool {
    let Some(found) = test_record::list_at(words, 0, 1) else {
        return false;
    };
    same_after(found.list, cut, from_word(words, found.next))
}
