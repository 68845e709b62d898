// The header of a portable float map, read byte by byte. Functions of what was read and a place, as the specification has them.
ghost use Rattle.std.specs.Prelude.{◌≡◌};
ghost use Rattle.pfm.specs.Header.{is_digit, is_space, space_by, size_by, at, on_start, on_kind, on_marked, on_width, on_height, on_scale, on_whole, on_sign, step_of, begun, header_of};

// Where the reading is. Kept as stages, refusals among them: the contract of `step` goes by them, and leaves beside each what was read so far.
#[derive(Clone, Copy, Debug, PartialEq, Eq)]
pub enum Stage {
    // Before the P.
    Start,
    // Behind it: F or f.
    Kind,
    // Behind these: white space.
    Marked,
    BeforeWidth,
    Width,
    BeforeHeight,
    Height,
    BeforeScale,
    // In the scale, before its point.
    Whole,
    // Behind its point.
    Fraction,
    // Behind the white space that ends the header.
    Done,
    NotPfm,
    BadSize,
    BadScale,
}

// What the header says, as far as it was read.
#[derive(Clone, Copy, Debug, PartialEq, Eq)]
pub struct Numbers {
    // 3, or 1.
    pub channels: u8,
    pub width: u32,
    pub height: u32,
    // The scale is negative: a sample's lowest byte comes first.
    pub little: bool,
    // The scale has a digit that is not 0.
    pub nonzero: bool,
    // The place behind the size.
    pub sized: usize,
    // The place behind the header.
    pub used: usize,
}

#[derive(Clone, Copy, Debug, PartialEq, Eq)]
pub struct Header {
    pub stage: Stage,
    pub numbers: Numbers,
}

// What a byte makes of a number that is read digit by digit.
#[derive(Clone, Copy, Debug, PartialEq, Eq)]
enum Size {
    Grows(u32),
    Waits,
    Ends,
    Wrong,
}

fn is_digit(c: u8) -> bool
    ensures { result ≡ is_digit c }
{
    matches!(c, b'0'..=b'9')
}

// Space, and from tab to carriage return.
fn is_space(c: u8) -> bool
    ensures { result ≡ is_space c }
{
    matches!(c, b' ' | 9..=13)
}

fn at(stage: Stage, numbers: Numbers) -> Header
    ensures { result ≡ at stage numbers }
{
    Header { stage, numbers }
}

fn space_by(begun: bool, n: u32) -> Size
    ensures { result ≡ space_by begun n }
{
    if !begun {
        return Size::Waits;
    }
    if n == 0 {
        return Size::Wrong;
    }
    Size::Ends
}

// By hand: a digit at a time, and up to 2,147,483,647.
fn size_by(begun: bool, n: u32, c: u8) -> Size
    ensures { result ≡ size_by begun n c }
{
    if is_space(c) {
        return space_by(begun, n);
    }
    if !is_digit(c) {
        return Size::Wrong;
    }
    let next = 10 * (n as u64) + (c as u64 - 48);
    if 0x7fff_ffff < next {
        return Size::Wrong;
    }
    Size::Grows(next as u32)
}

fn on_start(n: Numbers, c: u8) -> Header
    ensures { result ≡ on_start n c }
{
    if c == b'P' {
        return at(Stage::Kind, n);
    }
    at(Stage::NotPfm, n)
}

fn on_kind(n: Numbers, c: u8) -> Header
    ensures { result ≡ on_kind n c }
{
    match c {
        b'F' => at(Stage::Marked, Numbers { channels: 3, ..n }),
        b'f' => at(Stage::Marked, Numbers { channels: 1, ..n }),
        _ => at(Stage::NotPfm, n),
    }
}

fn on_marked(n: Numbers, c: u8) -> Header
    ensures { result ≡ on_marked n c }
{
    if is_space(c) {
        return at(Stage::BeforeWidth, n);
    }
    at(Stage::NotPfm, n)
}

fn on_width(n: Numbers, size: Size) -> Header
    ensures { result ≡ on_width n size }
{
    match size {
        Size::Grows(width) => at(Stage::Width, Numbers { width, ..n }),
        Size::Waits => at(Stage::BeforeWidth, n),
        Size::Ends => at(Stage::BeforeHeight, n),
        Size::Wrong => at(Stage::BadSize, n),
    }
}

fn on_height(n: Numbers, place: usize, size: Size) -> Header
    ensures { result ≡ on_height n place size }
{
    match size {
        Size::Grows(height) => at(Stage::Height, Numbers { height, ..n }),
        Size::Waits => at(Stage::BeforeHeight, n),
        Size::Ends => at(Stage::BeforeScale, Numbers { sized: place, ..n }),
        Size::Wrong => at(Stage::BadSize, n),
    }
}

// The scale is a sign, digits, and a point among them; not every digit is 0.
fn on_scale(n: Numbers, place: usize, c: u8, stage: Stage) -> Header
    ensures { result ≡ on_scale n place c stage }
{
    if is_digit(c) {
        let nonzero = n.nonzero | (c != 48);
        return at(stage, Numbers { nonzero, ..n });
    }
    if !is_space(c) || !n.nonzero {
        return at(Stage::BadScale, n);
    }
    at(Stage::Done, Numbers { used: place, ..n })
}

fn on_whole(n: Numbers, place: usize, c: u8) -> Header
    ensures { result ≡ on_whole n place c }
{
    if c == b'.' {
        return at(Stage::Fraction, n);
    }
    on_scale(n, place, c, Stage::Whole)
}

fn on_sign(n: Numbers, place: usize, c: u8) -> Header
    ensures { result ≡ on_sign n place c }
{
    if is_space(c) {
        return at(Stage::BeforeScale, n);
    }
    if c == b'-' {
        return at(Stage::Whole, Numbers { little: true, ..n });
    }
    on_whole(n, place, c)
}

// One byte; `place` is the place behind it.
fn step(h: Header, place: usize, c: u8) -> Header
    ensures { result ≡ step_of h place c }
{
    let n = h.numbers;
    match h.stage {
        Stage::Start => on_start(n, c),
        Stage::Kind => on_kind(n, c),
        Stage::Marked => on_marked(n, c),
        Stage::BeforeWidth => on_width(n, size_by(false, 0, c)),
        Stage::Width => on_width(n, size_by(true, n.width, c)),
        Stage::BeforeHeight => on_height(n, place, size_by(false, 0, c)),
        Stage::Height => on_height(n, place, size_by(true, n.height, c)),
        Stage::BeforeScale => on_sign(n, place, c),
        Stage::Whole => on_whole(n, place, c),
        Stage::Fraction => on_scale(n, place, c, Stage::Fraction),
        Stage::Done | Stage::NotPfm | Stage::BadSize | Stage::BadScale => h,
    }
}

fn begun() -> Header
    ensures { result ≡ begun }
{
    let none = Numbers {
        channels: 0,
        width: 0,
        height: 0,
        little: false,
        nonzero: false,
        sized: 0,
        used: 0,
    };
    at(Stage::Start, none)
}

// The header at the front of these bytes; bytes behind it change nothing.
pub fn read(s: &[u8]) -> Header
    ensures { result ≡ header_of s.now }
{
    let mut h = begun();
    for (i, c) in s.iter().enumerate() {
        h = step(h, i + 1, *c);
    }
    h
}
