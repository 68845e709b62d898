// Widening (0) or narrowing (1) of a byte line: which, the lengths of the line and of that out, their bytes, four to a word; the bytes out after, and
// the number.
use crate::blocks::read_bytes;
use crate::byte_channels::{ROOM, length, past, same_bytes};
use chroma_half::Unfit;
use test_record::from_word;

// Reads both lines, widens or narrows and compares what is answered and left with the answer's.
fn reads<F: Fn(&[u8], &mut [u8]) -> Result<(), Unfit>>(
    fitted: F,
    words: &[u8],
    line: &mut [u8],
    out: &mut [u8],
) -> bool
    requires { F.IsAlwaysCallable fitted }
{
    let at_out = past(words, line.len());
    let answer = past(at_out, out.len());
    let last = past(answer, out.len());
    read_bytes(words, line);
    read_bytes(at_out, out);
    let answered = fitted(line, out);
    same_bytes(answer, out)
        && last.len() == 8
        && test_record::word(last, 0) == chroma_half::paper(answered).number as u32
}

pub(crate) fn same_half(words: &[u8]) -> bool {
    let n = length(words, 1);
    let m = length(words, 2);
    let mut line = [0u8; ROOM];
    let mut out = [0u8; ROOM];
    let given = from_word(words, 3);
    if test_record::word(words, 0) == 0 {
        reads(chroma_half::widen, given, &mut line[..n], &mut out[..m])
    } else {
        reads(chroma_half::narrow, given, &mut line[..n], &mut out[..m])
    }
}
