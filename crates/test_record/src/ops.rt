// Ops and lists of ops. An op is its kind, and its values in the order of its fields: a word for a float or a flag, two for a curve.
ghost use Rattle.std.specs.Prelude.{◌+◌, ◌^◌, ◌<◌, ◌≤◌, IfSome};

use crate::{curve_of, float, from_word, is_curve, is_flag, word};
use list::Plan;
use op::Op;
use op_fields::{Cell, Value};

// A list, and the number of the word after it.
#[derive(Clone, Copy)]
pub struct Found {
    pub list: Plan,
    pub next: usize,
}

// An op, and how many words it takes.
#[derive(Clone, Copy)]
struct Read {
    op: Op,
    words: usize,
}

// How many words a value takes, by a blank one in its field, where the words are such a value.
fn value_words(blank: Value, words: &[u8]) -> Option<usize>
    ensures { IfSome result (λ n. n ≤ 2) }
{
    match blank {
        Value::Float(_) => Some(1),
        Value::Flag(_) => if is_flag(words) { Some(1) } else { None },
        Value::Curve(_) => if is_curve(words) { Some(2) } else { None },
    }
}

fn value_of(blank: Value, words: &[u8]) -> Value {
    match blank {
        Value::Float(_) => Value::Float(float(words, 0)),
        Value::Flag(_) => Value::Flag(word(words, 0) == 1),
        Value::Curve(_) => Value::Curve(curve_of(words)),
    }
}

// The op that the first words are, if they are one. A kind stays a number, as `op_fields` says.
fn op_of(words: &[u8]) -> Option<Read>
    ensures { IfSome result (λ r. r.words ≤ 19) }
{
    let kind = word(words, 0);
    if kind > 9 {
        return None;
    }
    let kind = kind as u8;
    let layout = op_fields::layout_of(kind);
    let mut cells = layout.cells;
    let mut at: usize = 1;
    for i in 0..layout.count.min(9) {
        let blank = cells[i];
        let value = blank.0;
        let part = from_word(words, at);
        at += value_words(value, part)?;
        cells[i] = Cell(value_of(value, part));
    }
    Some(Read {
        op: op_fields::op_by(kind, cells),
        words: at,
    })
}

// The list at word k, the number of its ops, its end width and each op, with the start width at word `start`.
pub fn list_at(line: &[u8], start: usize, k: usize) -> Option<Found> {
    let width = word(line, start);
    let count = word(line, k);
    if line.len() / 9 < k {
        return None;
    }
    let end = word(line, k + 1);
    if (width > 255) | (end > 255) | (count > 32) {
        return None;
    }
    ops_at(line, k + 2, width as u8, end as u8, count)
}

// The list of the next `count` ops, from word k on. Its widths are what is recorded, lawful and true or not.
fn ops_at(line: &[u8], k: usize, start: u8, end: u8, count: u32) -> Option<Found>
    requires { (k + 640 < 2 ^ 64) × (count ≤ 32) }
{
    let mut list = list::empty(1);
    let mut at = k;
    for _i in 0..count {
        let read = op_of(from_word(line, at))?;
        list = list::push(list, read.op);
        at += read.words;
    }
    list.start = start;
    list.end = end;
    Some(Found { list, next: at })
}
