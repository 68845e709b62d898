// Plan blocks that are written. After the list and its count: version, n, the n bytes of the buffer, four to a word; number, length, the n
// bytes after.
use crate::blocks::{ROOM, read_bytes};
use list::Plan;
use test_record::from_word;

// Reads the buffer, writes the list into it and compares what is answered and left with the answer's.
fn writes(
    list: Plan,
    version: u16,
    given: &[u8],
    answer: &[u8],
    bytes: &mut [u8],
    after: &mut [u8],
) -> bool {
    read_bytes(given, bytes);
    read_bytes(from_word(answer, 2), after);
    let written = block_write::write(list, version, bytes);
    block_write::paper(written).number as u32 == test_record::word(answer, 0)
        && block_write::length(written) == test_record::word(answer, 1) as usize
        && *bytes == *after
}

// What stands after the version: n, the bytes of the buffer and the answer.
fn same_after(list: Plan, version: u16, words: &[u8]) -> bool {
    let n = test_record::word(words, 0) as usize;
    let taken = n.div_ceil(4);
    if n > ROOM || test_record::words(words) != 3 + 2 * taken {
        return false;
    }
    let mut bytes = [0u8; ROOM];
    let mut after = [0u8; ROOM];
    writes(
        list,
        version,
        from_word(words, 1),
        from_word(words, 1 + taken),
        &mut bytes[..n],
        &mut after[..n],
    )
}

pub(crate) fn same_written(list: Plan, words: &[u8]) -> bool {
    let Ok(version) = u16::try_from(test_record::word(words, 0)) else {
        return false;
    };
    same_after(list, version, from_word(words, 1))
}
