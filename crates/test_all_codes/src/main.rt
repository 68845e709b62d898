// All codes and all levels: digests of the levels and of the codes that the library answers, and counts. `oracle codes-census` works out the same lines.
#![tactic(auto)]

use std::io;

#[derive(Clone, Copy)]
struct Tally {
    // Digests: of the levels of the codes, and of the codes of the levels.
    levels: u64,
    codes: u64,
    // Codes that return to themselves, and codes above 1023 with another level than 0.
    returning: u64,
    above: u64,
    // Levels half way between two entries, and the first of them.
    ties: u64,
    first: Option<u16>,
}

// A number taken into the digest of those before it: a polynomial, by the largest prime below 2^32.
fn taken(digest: u64, number: u16) -> u64 {
    (digest % 4_294_967_291 * 65_599 + number as u64 + 1) % 4_294_967_291
}

fn with_code(tally: Tally, code: u16) -> Tally {
    let level = srgb10::level(code);
    let mut next = tally;
    if code > 1023 {
        next.above = tally.above.wrapping_add((level != 0) as u64);
        return next;
    }
    next.levels = taken(tally.levels, level);
    next.returning = tally
        .returning
        .wrapping_add((srgb10::code(level) == code) as u64);
    next
}

// Whether a level lies half way between its code's entry and the next one.
fn is_tie(level: u16, code: u16) -> bool {
    code < 1023 && srgb10::level(code) as u32 + srgb10::level(code + 1) as u32 == 2 * (level as u32)
}

fn with_level(tally: Tally, level: u16) -> Tally {
    let code = srgb10::code(level);
    let mut next = tally;
    next.codes = taken(tally.codes, code);
    if is_tie(level, code) {
        next.ties = tally.ties.wrapping_add(1);
        next.first = tally.first.or(Some(level));
    }
    next
}

fn report(rt: &impl Print, tally: Tally) -> io::Result<()> {
    println!(rt; "1024 codes, digest of their levels {}", tally.levels)?;
    println!(rt; "65536 levels, digest of their codes {}", tally.codes)?;
    println!(rt; "codes that return to themselves {}", tally.returning)?;
    println!(rt; "codes above 1023 with a level {}", tally.above)?;
    println!(rt;
        "ties {}, the first at level {}",
        tally.ties,
        tally.first.unwrap_or(0)
    )
}

fn main(rt: HostRuntime) -> io::Result<()> {
    let mut tally = Tally {
        levels: 0,
        codes: 0,
        returning: 0,
        above: 0,
        ties: 0,
        first: None,
    };
    for n in 0..=u16::MAX {
        tally = with_level(with_code(tally, n), n);
    }
    report(&rt, tally)
}
