// Shifts of a whole number: up to 62 digits, down with a sticky digit, and down to the nearest.
ghost use Rattle.std.specs.Prelude.{◌≡◌, ◌^◌, ◌<◌};
ghost use Rattle.std.specs.Float.Ieee.Nearest.{closest};
ghost use Rattle.fused.specs.Steps.{Topped, Jammed};

// m * 2 ^ e with a sign. No invariant: each step has bounds of its own.
#[derive(Clone, Copy, Debug, PartialEq, Eq)]
pub(crate) struct Num {
    pub negative: bool,
    pub m: u64,
    pub e: u64,
}

// x * 2 ^ 62, with an m of 62 digits.
pub(crate) fn top(x: Num) -> Num
    requires { (0 < x.m) × (x.m < 0x4000_0000_0000_0000) × (x.e < 2000) }
    ensures sign { result.negative ≡ x.negative }
    ensures size { Topped x.m x.e result.m result.e }
{
    let z = x.m.leading_zeros() as u64 - 2;
    Num {
        m: x.m << z,
        e: x.e + 62 - z,
        ..x
    }
}

// n / 2 ^ d, with a last digit that is odd where something was lost.
pub(crate) fn jam(n: u64, d: u64) -> u64
    requires { n < 0x2000_0000_0000_0000 }
    ensures { Jammed result n d }
{
    if d > 61 {
        if n == 0 { 0 } else { 1 }
    } else {
        let q = n >> d;
        if q << d == n {
            q
        } else if q % 2 == 0 {
            q + 1
        } else {
            q
        }
    }
}

// m / 2 ^ d to the nearest whole number, a tie to the even one.
pub(crate) fn near(m: u64, d: u64) -> u64
    requires { (m < 0x4000_0000_0000_0000) × (0 < d) × (d < 64) }
    ensures { result ≡ closest m (2 ^ d) }
{
    let q = m >> d;
    let r = m - (q << d);
    let half = 1u64 << (d - 1);
    if r < half {
        q
    } else if r == half {
        q + q % 2
    } else {
        q + 1
    }
}
