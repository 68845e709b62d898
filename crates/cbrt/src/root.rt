// The whole cube root, worked out as on a whiteboard (docs/CUBE-ROOT.md), and the pattern of the rounded one.
// Shifts, sums and differences alone: no product of two variables at all, and none with a constant.
ghost use Rattle.std.specs.Prelude.{◌*◌, ◌<◌, ◌≤◌};
ghost use Rattle.cbrt.specs.Steps.{WholeRoot, Rounded};

// The whole cube root of h * 2 ^ 24, in base 2. Its 75 digits are taken in three at a time: the 51 of h, then zeros.
// Each time the root y gets a digit more, which is 1 where the remainder reaches the trial: 3 * (2y) ^ 2 + 3 * (2y) + 1,
// by which the cube of 2y + 1 is more than that of 2y. Nothing that is kept has more than 53 digits.
fn whole(h: u64) -> u64
    requires { h < 0x8_0000_0000_0000 }
    ensures { WholeRoot (h * 0x100_0000) result }
{
    let mut y: u64 = 0;
    let mut square: u64 = 0;
    let mut remainder: u64 = 0;
    let mut rest = h;
    for _taken in 0..25u64 {
        let three = rest >> 48;
        rest = (rest - (three << 48)) << 3;
        remainder = (remainder << 3) + three;
        let trial = (square << 3) + (square << 2) + (y << 2) + (y << 1) + 1;
        if trial <= remainder {
            remainder = remainder - trial;
            square = (square << 2) + (y << 2) + 1;
            y = (y << 1) + 1;
        } else {
            square = square << 2;
            y = y << 1;
        }
    }
    y
}

// The magnitude of the f32 nearest the root of g * 8 ^ a / 2 ^ 25 units. One digit more than an f32 has is worked out, and rounded away.
pub(crate) fn magnitude(g: u64, a: u64) -> u64
    requires { (0x100_0000 ≤ g) × (g < 0x800_0000) × (a ≤ 92) }
    ensures { Rounded g a result }
{
    let w = whole(g << 24);
    let q = (w + 1) >> 1;
    ((a + 76) << 23) + q
}
