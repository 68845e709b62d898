// What the numbers of a text are: two encodings, the settings and a version.
ghost use Rattle.std.specs.Prelude.{◌≡◌, ◌≤◌};
ghost use Rattle.plan_words.specs.Wanted.{side_at, float_of, floats_of, version_of, flag_by, flag_of};

use crate::decimal::signed;
use crate::filling::Filling;

// What stands for an encoding's number that no word gave: C has no other word for it, and it stands in no table.
const UNSET: u32 = 0xffff_ffff;

// Fourteen numbers from a place on.
fn side_at(m: Filling, from: usize) -> [i32; 14]
    requires { from ≤ 14 }
    ensures { result ≡ side_at from m.numbers }
{
    std::array::from_fn(|i| signed(m.numbers[from + i].unwrap_or(UNSET)))
}

pub fn source(m: Filling) -> [i32; 14]
    ensures { result ≡ side_at 0 m.numbers }
{
    side_at(m, 0)
}

pub fn target(m: Filling) -> [i32; 14]
    ensures { result ≡ side_at 14 m.numbers }
{
    side_at(m, 14)
}

#[tactic(auto, unfolding(crate::specs::Wanted::float_of))]
fn float(n: u32) -> f32
    ensures { result ≡ float_of n }
{
    std::num::nearest_i32_to_f32(signed(n))
}

// The inverse opsin matrix and the bias that JPEG XL has where a picture names none; the intensity is 255 and min_nits 0 where no line gave them.
pub fn floats(m: Filling) -> [f32; 14]
    ensures { result ≡ floats_of m.numbers }
{
    let bias = -0.0037930732552754493;
    [
        11.031566901960783,
        -9.866943921568629,
        -0.16462299647058826,
        -3.254147380392157,
        4.418770392156863,
        -0.16462299647058826,
        -3.6588512862745097,
        2.7129230470588235,
        1.9459282392156863,
        bias,
        bias,
        bias,
        float(m.numbers[28].unwrap_or(255)),
        float(m.numbers[29].unwrap_or(0)) / 1000000.0,
    ]
}

// 1 where no line gave one.
pub fn version(m: Filling) -> u16
    ensures { result ≡ version_of m.numbers }
{
    let n = m.numbers[30].unwrap_or(1);
    if 0xffff < n {
        return 0;
    }
    n as u16
}

// Whether a line `detect_peak` or `from_pq` stands there: 1 or 0.
pub fn detect_peak(m: Filling) -> u8
    ensures { result ≡ flag_of m.numbers 31 }
{
    flag(m.numbers[31])
}

pub fn from_pq(m: Filling) -> u8
    ensures { result ≡ flag_of m.numbers 32 }
{
    flag(m.numbers[32])
}

fn flag(n: Option<u32>) -> u8
    ensures { result ≡ flag_by n }
{
    u8::from(n == Some(1))
}
