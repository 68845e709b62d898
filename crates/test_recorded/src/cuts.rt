// Runs by strips: each call must answer as it should, and the strips are cut from one run's channels.
// Three slices, as `channels` says.
use crate::lists::Reached;
use list::Plan;
use run_strips::{State, StripError};

// More samples than a channel of a record has.
const LONGER: usize = 161;

// Whether a strip and a close are refused by 11: no run is open.
fn is_closed(state: State, a: &mut [f32], b: &mut [f32], c: &mut [f32]) -> bool {
    let given = run_strips::strip(state, a, b, c);
    given.answer == Err(StripError::NotOpen)
        && run_strips::close(given.state).answer == Err(StripError::NotOpen)
}

// What stays open after a strip that is refused by 4: its third channel is longer than the others.
fn after_refused(state: State, a: &mut [f32], b: &mut [f32]) -> Option<State> {
    let given = run_strips::strip(state, a, b, &mut [0.0; LONGER]);
    if given.answer != Err(StripError::Unequal) {
        return None;
    }
    Some(given.state)
}

// What stays open after the strip from one sample to another, where it is not refused and reports this count.
fn after_strip(
    state: State,
    from: usize,
    to: usize,
    bad: u32,
    a: &mut [f32],
    b: &mut [f32],
    c: &mut [f32],
) -> Option<State> {
    if to > LONGER || from > to || a.len() < to || b.len() < to || c.len() < to {
        return None;
    }
    let given = run_strips::strip(state, &mut a[from..to], &mut b[from..to], &mut c[from..to]);
    if given.answer.is_err() || given.bad != bad as u64 {
        return None;
    }
    Some(given.state)
}

// The strips: their number, of each twice its length, and one more where a refused one comes before it, and the count of each.
fn after_strips(
    state: State,
    cuts: &[u8],
    a: &mut [f32],
    b: &mut [f32],
    c: &mut [f32],
) -> Option<State> {
    let number = test_record::word(cuts, 0) as usize;
    let mut run = state;
    let mut at: usize = 0;
    for k in 1..=number {
        let cut = test_record::word(cuts, k);
        let end = at.saturating_add((cut / 2) as usize);
        if cut % 2 == 1 {
            run = after_refused(run, a, b)?;
        }
        run = after_strip(run, at, end, test_record::word(cuts, number + k), a, b, c)?;
        at = end;
    }
    Some(run)
}

// A refused opening leaves no open run, and opening again starts afresh.
fn opened(list: Plan) -> Option<State> {
    let first = run_strips::open(run_strips::closed(), list);
    let refused = run_strips::open(first.state, list::empty(0));
    let closed = run_strips::close(refused.state);
    if closed.answer != Err(StripError::NotOpen) {
        return None;
    }
    Some(run_strips::open(closed.state, list).state)
}

// What the close answers and reports, where every call before it answered as it should.
pub(crate) fn by_strips(
    list: Plan,
    cuts: &[u8],
    a: &mut [f32],
    b: &mut [f32],
    c: &mut [f32],
) -> Option<Reached> {
    let left = after_strips(opened(list)?, cuts, a, b, c)?;
    let closed = run_strips::close(left);
    if !is_closed(closed.state, a, b, c) {
        return None;
    }
    Some(Reached {
        width: closed.answer.ok()?,
        bad: closed.bad,
    })
}
