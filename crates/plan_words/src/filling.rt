// Words fill numbers, line by line. Functions of the state and a place, as the specification has them.
ghost use Rattle.std.specs.Prelude.{◌≡◌, ◌<◌, ◌≤◌, length};
ghost use Rattle.plan_words.specs.Filling.{begun, faulty, field_of, named, number_at, stride_of, behind, start_of, key_taken, number_taken, word_taken, line_ended, ended, slice, up_to, filled_of};

use crate::decimal::whole;
use crate::words::number_in;

#[derive(Clone, Copy)]
pub struct Filling {
    // 0 to 13 the source's, 14 to 27 the target's, then intensity, min_nits, version, detect_peak and from_pq.
    pub numbers: [Option<u32>; 33],
    // The place of the number that the next word stands for.
    pub next: Option<usize>,
    // A line has begun.
    pub inside: bool,
    // A word was not understood, which begins at this place; or one is missing there. No Result: the contracts say what the state is behind a fault.
    pub fault: Option<usize>,
}

fn begun() -> Filling
    ensures { result ≡ begun }
{
    Filling {
        numbers: [None; 33],
        next: None,
        inside: false,
        fault: None,
    }
}

fn faulty(m: Filling, at: usize) -> Filling
    ensures { result ≡ faulty m at }
{
    let mut out = m;
    out.fault = Some(at);
    out
}

fn field_of(n: usize) -> usize
    ensures { result ≡ field_of n }
{
    if n < 14 {
        return n;
    }
    n - 14
}

fn named(count: usize, n: usize) -> Option<u32>
    requires { count < 10 }
    ensures { result ≡ named count n }
{
    if n < count {
        return Some(n as u32);
    }
    None
}

// Fields stay numbers: they are places in C's fourteen, and an enum would be turned back into one at each word.
#[tactic(auto, unfolding(crate::specs::Filling::number_at))]
fn number_at(n: usize, w: &[u8]) -> Option<u32>
    ensures { result ≡ number_at n w.now }
{
    if 28 <= n {
        return whole(w);
    }
    let field = field_of(n);
    match field {
        0 => named(5, number_in(b"Rgb Grey Xyb Unknown Icc ", w)),
        1 => named(4, number_in(b"D65 E Dci Custom ", w)),
        4 => named(4, number_in(b"Srgb Bt2100 P3 Custom ", w)),
        11 => named(
            9,
            number_in(
                b"Gamma GammaInverted Bt709 Unknown Linear Srgb Pq Dci Hlg ",
                w,
            ),
        ),
        13 => named(4, number_in(b"Perceptual Relative Saturation Absolute ", w)),
        _ => whole(w),
    }
}

// How many places on the next number stands, in the same encoding.
fn stride(field: usize, v: u32) -> usize
    ensures { result ≡ stride_of field v }
{
    match field {
        1 => {
            if v == 3 {
                return 1;
            }
            3
        }
        4 => {
            if v == 3 {
                return 1;
            }
            7
        }
        11 => {
            if v <= 1 {
                return 1;
            }
            2
        }
        _ => 1,
    }
}

#[tactic(auto, unfolding(crate::specs::Filling::behind))]
fn behind(n: usize, v: u32) -> Option<usize>
    ensures { result ≡ behind n v }
{
    if 28 <= n {
        return None;
    }
    let field = field_of(n);
    if field == 13 {
        return None;
    }
    if (field == 0) & (v == 4) {
        return None;
    }
    Some(n + stride(field, v))
}

fn start_of(key: usize) -> Option<usize>
    ensures { result ≡ start_of key }
{
    [0, 14, 28, 29, 30, 31, 32].get(key).copied()
}

fn key_taken(m: Filling, at: usize, key: usize) -> Filling
    ensures { result ≡ key_taken m at key }
{
    let Some(start) = start_of(key) else {
        return faulty(m, at);
    };
    if m.numbers[start].is_some() {
        return faulty(m, at);
    }
    let mut out = m;
    out.inside = true;
    out.fault = None;
    if 5 <= key {
        out.numbers[start] = Some(1);
        out.next = None;
        return out;
    }
    out.next = Some(start);
    out
}

fn number_taken(m: Filling, at: usize, place: usize, n: Option<u32>) -> Filling
    requires { place < 33 }
    ensures { result ≡ number_taken m at place n }
{
    let Some(v) = n else {
        return faulty(m, at);
    };
    let mut out = m;
    out.numbers[place] = Some(v);
    out.next = behind(place, v);
    out.inside = true;
    out.fault = None;
    out
}

// A word that begins at this place.
#[tactic(auto, unfolding(crate::specs::Filling::word_taken))]
fn word_taken(m: Filling, at: usize, w: &[u8]) -> Filling
    ensures { result ≡ word_taken m at w.now }
{
    if m.fault.is_some() {
        return m;
    }
    if !m.inside {
        let key = number_in(
            b"source target intensity min_nits version detect_peak from_pq ",
            w,
        );
        return key_taken(m, at, key);
    }
    match m.next {
        Some(place) if place < 33 => number_taken(m, at, place, number_at(place, w)),
        _ => faulty(m, at),
    }
}

// A line that ends at this place.
#[tactic(auto, unfolding(crate::specs::Filling::line_ended))]
fn line_ended(m: Filling, at: usize) -> Filling
    ensures { result ≡ line_ended m at }
{
    if m.fault.is_some() {
        return m;
    }
    if m.next.is_some() {
        return faulty(m, at);
    }
    let mut out = m;
    out.next = None;
    out.inside = false;
    out.fault = None;
    out
}

#[tactic(auto, unfolding(crate::specs::Filling::ended))]
fn ended(m: Filling, at: usize) -> Filling
    ensures { result ≡ ended m at }
{
    if m.fault.is_some() {
        return m;
    }
    if m.numbers[0].is_none() {
        return faulty(m, at);
    }
    if m.numbers[14].is_none() {
        return faulty(m, at);
    }
    m
}

// The word that ends at this place, if one does.
fn up_to(m: Filling, s: &[u8], start: usize, end: usize) -> Filling
    requires { (start ≤ end) × (end ≤ length s.now) }
    ensures { result ≡ up_to m end (slice start end s.now) }
{
    if end <= start {
        return m;
    }
    word_taken(m, start, &s[start..end])
}

// The numbers that a text gives, or where it is not understood.
#[tactic(auto, unfolding(crate::specs::Filling::filled_of))]
pub fn filled(s: &[u8]) -> Filling
    ensures { result ≡ filled_of s.now }
{
    let mut m = begun();
    let mut start: usize = 0;
    for (i, c) in s.iter().enumerate() {
        if *c <= b' ' {
            m = up_to(m, s, start, i);
            start = i + 1;
            if *c == b'\n' {
                m = line_ended(m, i);
            }
        }
    }
    let n = s.len();
    m = up_to(m, s, start, n);
    ended(line_ended(m, n), n)
}
