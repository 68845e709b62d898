// sRGB codes of ten bits: the level of a code, and the code of a level.
#![tactic(auto)]

ghost use Rattle.std.specs.Prelude.{◌≡◌, ◌≤◌};
ghost use Rattle.srgb10.specs.Codes.{Nearest, code_of, level_of};
ghost use Rattle.srgb10.specs.Curve.{IsLevel};

mod table;

pub use table::entries;

// The level of a code: the table's entry, and 0 above 1023.
pub fn level(code: u16) -> u16
    ensures nearest { code ≤ 1023 → IsLevel code result }
    ensures value { result ≡ level_of code }
{
    let levels = table::entries();
    levels.get(code as usize).copied().unwrap_or(0)
}

// The code whose entry is nearest, the lower one on a tie: the level lies between two neighbours' entries.
pub fn code(level: u16) -> u16
    ensures nearest { Nearest level result }
    ensures value { result ≡ code_of level }
{
    let levels = table::entries();
    let hi = levels.partition_point(|entry| *entry <= level).min(1023);
    let lo = hi - 1;
    if level - levels[lo] <= levels[hi] - level {
        lo as u16
    } else {
        hi as u16
    }
}
