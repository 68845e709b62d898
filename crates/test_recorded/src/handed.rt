// Lists as a caller hands them over, lawful or not, with an end width that is true or false: what every entry answers that takes one.
// After the list and its count: check; merging's number; run; the numbers of a run on unequal channels, of a strip, and of writing in
// version 1, 2 and 3; n, the n bytes of the text, four to a word. Check and run are number, position and width.
use crate::blocks::{ROOM, begin_alike, read_bytes};
use list::Plan;
use notation::Answer;
use op::Op;
use run_strips::State;
use test_record::{Found, from_word};

pub(crate) fn tells(answer: Answer, words: &[u8]) -> bool {
    answer.number as u32 == test_record::word(words, 0)
        && answer.position == test_record::word(words, 1) as usize
        && answer.width as u32 == test_record::word(words, 2)
}

// Merging answers this number, and a refused list is the empty list with width 0.
fn merges(list: Plan, number: u32) -> bool {
    let merged = list_merge::merge(list);
    list_merge::paper(merged.answer).number as u32 == number
        && (merged.answer.is_ok() || list_same::same_list(merged.plan, list::empty(0)))
}

// Where 10 refuses a list, what is made of it is the empty list with width 0; else it stays, and with Clip behind it ends where it did.
fn grows(list: Plan, refused: bool) -> bool {
    let none = list::empty(0);
    let kept = list::kept(list);
    let longer = list::push(list, Op::Clip);
    if refused {
        return list_same::same_list(kept, none) && list_same::same_list(longer, none);
    }
    if list.count == 32 {
        return list_same::same_list(kept, list) && list_same::same_list(longer, none);
    }
    list_same::same_list(kept, list) && longer.count > list.count && longer.end == list.end
}

// A list with another end width is another list.
fn other_differs(list: Plan) -> bool {
    let mut other = list;
    other.end = 255 - list.end;
    !list_same::same_list(list, other)
}

// What judging, and opening a run by strips, answer.
fn judged(list: Plan, words: &[u8]) -> bool {
    let opened = run_strips::open(run_strips::closed(), list);
    tells(run_check::paper(run_check::judge(list)), words)
        && tells(run_check::paper(opened.answer), words)
}

// What a run answers; where it is refused, the samples stay.
fn runs(list: Plan, words: &[u8]) -> bool {
    let given: [[f32; 2]; 3] = [[0.5, 2.0], [0.25, 2.0], [0.125, 2.0]];
    let [mut a, mut b, mut c] = given;
    let ran = run::run(list, &mut a, &mut b, &mut c);
    tells(run::paper(ran.outcome), words) && (ran.outcome.is_ok() || [a, b, c] == given)
}

fn runs_unequal(list: Plan, number: u32) -> bool {
    let ran = run::run(list, &mut [0.5, 2.0], &mut [0.5, 2.0], &mut [0.5]);
    run::paper(ran.outcome).number as u32 == number
}

// What a strip and a close answer where the caller holds a state with this list.
fn strip_tells(list: Plan, number: u32) -> bool {
    let state = State { plan: list, bad: 0 };
    let stripped = run_strips::strip(state, &mut [0.5], &mut [0.5], &mut [0.5]);
    let closed = run_strips::close(state);
    run_strips::paper(stripped.answer).number as u32 == number
        && run_strips::paper(closed.answer).number as u32 == number
}

// Writing, where there is room, answers this number.
fn writes(list: Plan, version: u16, number: u32) -> bool {
    let written = block_write::write(list, version, &mut [0; ROOM]);
    block_write::paper(written).number as u32 == number
}

// The text is all that is left of the record.
fn same_text(words: &[u8], text: &[u8; 1024], size: usize) -> bool {
    let n = test_record::word(words, 0) as usize;
    let mut expected = [0u8; 1024];
    read_bytes(from_word(words, 1), &mut expected);
    test_record::words(words) == 1 + n.div_ceil(4) && size == n && begin_alike(text, &expected, n)
}

fn prints(list: Plan, words: &[u8]) -> bool {
    let mut text = [0u8; 1024];
    let size = block_text::list_plan(list, &mut text);
    same_text(words, &text, size)
}

// The answers of the entries, one after the other.
pub(crate) fn same_answers(list: Plan, words: &[u8]) -> bool {
    tells(list::paper(list::check(list)), words)
        && merges(list, test_record::word(words, 3))
        && grows(list, test_record::word(words, 3) == 10)
        && other_differs(list)
        && judged(list, from_word(words, 4))
        && runs(list, from_word(words, 4))
        && runs_unequal(list, test_record::word(words, 7))
        && strip_tells(list, test_record::word(words, 8))
        && writes(list, 1, test_record::word(words, 9))
        && writes(list, 2, test_record::word(words, 10))
        && writes(list, 3, test_record::word(words, 11))
        && prints(list, from_word(words, 12))
}

// Start width, list, and a count that may be another than that of the ops which stand in the slots; and the number of the count's word.
pub(crate) fn list_with_count(words: &[u8]) -> Option<Found> {
    let mut found = test_record::list_at(words, 0, 1)?;
    found.list.count = test_record::word(words, found.next) as usize;
    Some(found)
}

// A list with its count; and what is compared with the words after: every entry's answers, or what is written.
pub(crate) fn same_handed<F: Fn(Plan, &[u8]) -> bool>(words: &[u8], same: F) -> bool
    requires { F.IsAlwaysCallable same }
{
    let Some(found) = list_with_count(words) else {
        return false;
    };
    same(found.list, from_word(from_word(words, found.next), 1))
}
