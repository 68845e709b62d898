// Bad input for pictures and plans in words: what was given, and what the library answers.
#![tactic(auto)]

use pfm::{Stage, Unfit};
use std::io;

// No Display: these are the words of this program alone.
fn name(stage: Stage) -> &'static str {
    match stage {
        Stage::Done => "read",
        Stage::NotPfm => "no portable float map",
        Stage::BadSize => "a bad size",
        Stage::BadScale => "a bad scale",
        _ => "the header does not end",
    }
}

fn show_header(rt: &impl Print, given: &str, bytes: &[u8]) -> io::Result<()> {
    let header = pfm::read(bytes);
    let stage = header.stage;
    let name = name(stage);
    println!(rt; "{given}: {name}")
}

fn headers(rt: &impl Print) -> io::Result<()> {
    show_header(rt, "a header of 3 by 2 pixels", b"PF\n3 2\n-1.0\n")?;
    show_header(rt, "a header of a pixmap", b"P6\n3 2\n255\n")?;
    show_header(rt, "a width of 0", b"PF\n0 2\n-1.0\n")?;
    show_header(rt, "a height of 2147483648", b"Pf\n3 2147483648\n-1.0\n")?;
    show_header(rt, "a width with a sign", b"PF\n+3 2\n-1.0\n")?;
    show_header(rt, "a scale of 0", b"PF\n3 2\n-0.0\n")
}

fn more_headers(rt: &impl Print) -> io::Result<()> {
    show_header(rt, "a scale of two points", b"PF\n3 2\n1.0.0\n")?;
    show_header(rt, "no scale", b"PF\n3 2\n\n")?;
    show_header(rt, "a header that ends in its height", b"Pf\n3 2")?;
    show_header(rt, "a header that ends in its scale", b"Pf\n3 2\n-1.0")?;
    show_header(rt, "no bytes", b"")
}

fn show_words(rt: &impl Print, given: &str, text: &[u8]) -> io::Result<()> {
    let filling = plan_words::filled(text);
    let Some(place) = filling.fault else {
        return println!(rt; "{given}: understood");
    };
    let line = plan_words::line_of(text, place);
    let word = plan_words::word_of(text, place);
    println!(rt; "{given}: not understood at line {line}, word {word}")
}

fn words(rt: &impl Print) -> io::Result<()> {
    show_words(rt, "two ICC profiles", b"source Icc\ntarget Icc\n")?;
    show_words(
        rt,
        "an unknown white point",
        b"source Rgb D66 Srgb Linear Relative\ntarget Icc\n",
    )?;
    show_words(
        rt,
        "an unknown line",
        b"source Icc\ntarget Icc\ncolour red\n",
    )?;
    show_words(
        rt,
        "a line without its intent",
        b"source Rgb D65 Srgb Linear\ntarget Icc\n",
    )?;
    show_words(
        rt,
        "a second source",
        b"source Icc\ntarget Icc\nsource Icc\n",
    )?;
    show_words(
        rt,
        "a number of eleven digits",
        b"source Icc\ntarget Icc\nintensity 10000000000\n",
    )?;
    show_words(rt, "a word too many", b"source Icc\ntarget Icc Srgb\n")?;
    show_words(rt, "no target", b"source Icc\n")
}

fn show_kept(rt: &impl Print, given: &str, done: Result<(), Unfit>, kept: bool) -> io::Result<()> {
    if done.is_err() & kept {
        return println!(rt; "{given}: refused, and nothing changed");
    }
    println!(rt; "{given}: NOT refused, or something changed")
}

fn are_sevens(a: &[f32; 2]) -> bool {
    *a == [7.0; 2]
}

fn from_bytes(rt: &impl Print) -> io::Result<()> {
    let mut a = [7.0f32; 2];
    let mut b = [7.0f32; 2];
    let mut c = [7.0f32; 2];
    let three = pfm::three_from(&[1u8; 23], true, &mut a, &mut b, &mut c);
    show_kept(
        rt,
        "two pixels of three channels from 23 bytes",
        three,
        are_sevens(&a) & are_sevens(&b) & are_sevens(&c),
    )
}

fn from_unequal(rt: &impl Print) -> io::Result<()> {
    let mut a = [7.0f32; 2];
    let mut b = [7.0f32; 2];
    let mut c = [7.0f32; 1];
    let one = pfm::one_from(&[1u8; 8], false, &mut a, &mut b, &mut c);
    show_kept(
        rt,
        "two grey pixels from 8 bytes into two, two and one samples",
        one,
        are_sevens(&a) & are_sevens(&b),
    )
}

fn are_eights(s: &[u8; 5]) -> bool {
    *s == [8; 5]
}

fn to_bytes(rt: &impl Print) -> io::Result<()> {
    let a = [0.5f32; 1];
    let mut out = [8u8; 5];
    let one = pfm::one_to(&a, true, &mut out);
    show_kept(rt, "a grey pixel into 5 bytes", one, are_eights(&out))?;
    let three = pfm::three_to(&a, &a, &a, true, &mut out);
    show_kept(
        rt,
        "a pixel of three channels into 5 bytes",
        three,
        are_eights(&out),
    )?;
    let pixels = pfm::pixels_to(b"ab", b"ab", b"ab", &mut out);
    show_kept(
        rt,
        "two pixels of a pixmap into 5 bytes",
        pixels,
        are_eights(&out),
    )
}

fn main(rt: HostRuntime) -> io::Result<()> {
    headers(&rt)?;
    more_headers(&rt)?;
    words(&rt)?;
    from_bytes(&rt)?;
    from_unequal(&rt)?;
    to_bytes(&rt)
}
