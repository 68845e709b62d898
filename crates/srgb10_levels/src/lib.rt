// A lent slice of ten-bit sRGB codes as linear levels.
#![tactic(auto)]

ghost use Rattle.std.specs.Prelude.{◌≡◌, false, map, ◌≤◌, length};
ghost use Rattle.notation.specs.Several.{any};
ghost use Rattle.srgb10.specs.Curve.{Whole};
ghost use Rattle.srgb10_levels.specs.Levelling.{is_above, left_of, levelling_of, paper};
ghost use Rattle.srgb10_levels.specs.Levels.{divided_level};

use notation::Answer;

// Why the conversion of a slice of codes is refused; nothing was written then.
#[derive(Clone, Copy, Debug, PartialEq, Eq)]
pub enum LevelError {
    // Refusal 4: there are not as many levels as codes.
    Unequal,
    // Refusal 14: a code is above 1023.
    NoCode,
}

// The paper's answer.
pub fn paper(levelling: Result<(), LevelError>) -> Answer
    ensures { result ≡ paper levelling }
{
    match levelling {
        Ok(()) => Answer::done(0),
        Err(LevelError::Unequal) => Answer::refused(4),
        Err(LevelError::NoCode) => Answer::refused(14),
    }
}

fn any_above(codes: &[u16]) -> bool
    ensures { result ≡ any is_above codes.now }
{
    codes.iter().any(|code| *code > 1023)
}

fn divided_level(table: &[u16; 1024], code: u16) -> f32
    requires whole { Whole table.now }
    requires code_bound { code ≤ 1023 }
    ensures { result ≡ divided_level code }
{
    (table[code as usize] as f32) / 65535.0
}

// The table is taken once: it is built anew wherever it is named.
fn each_level(codes: &[u16], levels: &mut [f32])
    requires codes_len { length codes.now ≡ length levels.old }
    requires codes_value { any is_above codes.now ≡ false }
    ensures { levels.new ≡ map divided_level codes.now }
{
    let table = srgb10::entries();
    for (i, level) in levels.iter_mut().enumerate() {
        *level = divided_level(&table, codes[i]);
    }
}

// Each code's level, divided by 65535.
pub fn code_levels(codes: &[u16], levels: &mut [f32]) -> Result<(), LevelError>
    ensures value { result ≡ levelling_of codes.now levels.old }
    ensures levels_after { levels.new ≡ left_of codes.now levels.old }
{
    if codes.len() != levels.len() {
        return Err(LevelError::Unequal);
    }
    if any_above(codes) {
        return Err(LevelError::NoCode);
    }
    each_level(codes, levels);
    Ok(())
}
