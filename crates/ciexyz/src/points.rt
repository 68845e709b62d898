// What stands for a white point or for primaries, as the Rust's traits of the same names: a named value, or chromaticities themselves.
ghost use Rattle.std.specs.Prelude.{◌≡◌};
ghost use Rattle.ciexyz.specs.Points.{illuminant_of, triangle_points};

use crate::consts::{illuminant, triangle_of};
use crate::{Primaries, Triangle, WhitePoint, Xy};

pub trait AsIlluminant: Copy {
    ghost use Rattle.ciexyz.specs.declared.Xy.{Xy};

    ghost xy_of: { Self → Xy };

    fn as_illuminant(self) -> Xy
        ensures { result ≡ xy_of self };
}

impl AsIlluminant for Xy {
    ghost xy_of = { λ w. w };

    fn as_illuminant(self) -> Xy {
        self
    }
}

impl AsIlluminant for WhitePoint {
    ghost xy_of = { illuminant_of };

    fn as_illuminant(self) -> Xy {
        illuminant(self)
    }
}

pub trait AsPrimaries: Copy {
    ghost use Rattle.ciexyz.specs.declared.Triangle.{Triangle};

    ghost points_of: { Self → Triangle };

    fn as_primaries(self) -> Triangle
        ensures { result ≡ points_of self };
}

impl AsPrimaries for Triangle {
    ghost points_of = { λ t. t };

    fn as_primaries(self) -> Triangle {
        self
    }
}

impl AsPrimaries for Primaries {
    ghost points_of = { triangle_points };

    fn as_primaries(self) -> Triangle {
        triangle_of(self)
    }
}
