// Laws of rounding to the nearest, and where two roundings are one: definitions and theorems, and the one step of code that rests on them.
#![tactic(auto)]

ghost use Rattle.std.specs.Prelude.{◌≡◌};
ghost use Rattle.rounding.specs.Steps.{dropped, sure};

// The pattern of an f64 rounded to 24 digits, and whether that is sure: it was not half way.
// Kept as a flag beside a value, and not an Option: the loops over samples take the pattern without a branch, and ask once whether all were sure.
#[derive(Clone, Copy, Debug, PartialEq, Eq)]
pub struct Narrow {
    pub pattern: u64,
    pub sure: bool,
}

// Half of what the last digit weighs is added, and what lies below that digit is dropped.
pub fn rounded(pattern: u64) -> Narrow
    ensures pattern_value { result.pattern ≡ dropped pattern }
    ensures sure_value { result.sure ≡ sure pattern }
{
    let w = pattern.wrapping_add(0x1000_0000);
    Narrow {
        pattern: w / 0x2000_0000 * 0x2000_0000,
        sure: w % 0x2000_0000 != 0,
    }
}
