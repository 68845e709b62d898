// Two lists as a caller hands them over, and their join: each list and its count; the answer's number, position and width; the start width and
// the list that is given, and what it merges to.
use crate::handed::{list_with_count, tells};
use list::Plan;
use test_record::from_word;

// The start width, the list, and what it merges to, which is all that is left of the record.
fn gives(joined: Plan, words: &[u8]) -> bool {
    let Some(given) = test_record::list_at(words, 0, 1) else {
        return false;
    };
    let Some(last) = test_record::list_at(words, 0, given.next) else {
        return false;
    };
    last.next == test_record::words(words)
        && list_same::same_list(joined, given.list)
        && list_same::same_list(list_merge::merge(joined).plan, last.list)
}

// Where the first list was merged before, the join merges to the same list.
fn merged_before(first: Plan, second: Plan, joined: Plan) -> bool {
    let again = list_join::join(list_merge::merge(first).plan, second).plan;
    list_same::same_list(
        list_merge::merge(joined).plan,
        list_merge::merge(again).plan,
    )
}

fn same_join(first: Plan, second: Plan, words: &[u8]) -> bool {
    let joined = list_join::join(first, second);
    tells(list::paper(joined.answer), words)
        && gives(joined.plan, from_word(words, 3))
        && (test_record::word(words, 0) == 10 || merged_before(first, second, joined.plan))
}

// The first list and the second, each with its count, and what joining them answers and gives.
pub(crate) fn same_joined(words: &[u8]) -> bool {
    let Some(first) = list_with_count(words) else {
        return false;
    };
    let behind = from_word(from_word(words, first.next), 1);
    let Some(second) = list_with_count(behind) else {
        return false;
    };
    let answer = from_word(from_word(behind, second.next), 1);
    same_join(first.list, second.list, answer)
}
