// The custom points of white points and primaries.
ghost use Rattle.std.specs.Prelude.{◌≡◌};
ghost use Rattle.encoding.specs.Custom.{custom_white, custom_corners};

use ciexyz::{Millionths, Primaries, WhitePoint};

// The points of three custom primaries. Beside `ciexyz::Triangle`: millionths here and floats there, and the contracts name both.
#[derive(Clone, Copy, Debug, PartialEq, Eq)]
pub struct Corners {
    pub red: Millionths,
    pub green: Millionths,
    pub blue: Millionths,
}

const ORIGIN: Millionths = Millionths { x: 0, y: 0 };

const NO_CORNERS: Corners = Corners {
    red: ORIGIN,
    green: ORIGIN,
    blue: ORIGIN,
};

// The point of a custom white; the origin of a named one.
pub(crate) fn custom_white(w: WhitePoint) -> Millionths
    ensures { result ≡ custom_white w }
{
    match w {
        WhitePoint::Custom(p) => p,
        _ => ORIGIN,
    }
}

// The points of custom primaries; the origin, three times, of named ones.
pub(crate) fn custom_corners(p: Primaries) -> Corners
    ensures { result ≡ custom_corners p }
{
    match p {
        Primaries::Custom { red, green, blue } => Corners { red, green, blue },
        _ => NO_CORNERS,
    }
}
