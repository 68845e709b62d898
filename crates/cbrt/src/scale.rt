// The size of a float as g * 8 ^ a: its cube root is that of g, times 2 ^ a.
ghost use Rattle.std.specs.Prelude.{◌*◌, ◌^◌, ◌<◌, ◌≤◌};
ghost use Rattle.cbrt.specs.Steps.{Scaled};

// g * 8 ^ a / 2 ^ 25 units, with g from 2 ^ 24 up to 2 ^ 27.
#[derive(Clone, Copy)]
pub(crate) struct Size {
    pub g: u64,
    pub a: u64,
}

// digits * 2 ^ place units: of the place, the third goes into a, and what the third leaves into g.
pub(crate) fn scaled(digits: u64, place: u64) -> Size
    requires { (0 < digits) × (digits < 0x100_0000) × (place ≤ 253) }
    ensures { Scaled (digits * 2 ^ place) result.g result.a }
{
    // Below 512, 171 / 512 of a number is its third, rounded down alike. The product, the only one here, has 16 digits.
    let third = (place * 171) >> 9;
    let left = place - (third << 1) - third;
    let mut g = (digits << 1) << left;
    let mut a = third + 8;
    // Only a subnormal size has too few digits.
    while g < 0x100_0000 {
        g = g << 3;
        a = a - 1;
    }
    Size { g, a }
}
