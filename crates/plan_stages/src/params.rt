// What HDR ops carry.
ghost use Rattle.std.specs.Prelude.{◌≡◌};
ghost use Rattle.plan_stages.specs.Stages.{luminances_of, own_luminances, hdr_params};

use ciexyz::{Primaries, WhitePoint};
use encoding::{EnumColourEncoding, Settings};
use op::{HdrParams, Luminances};

// Y of each primary: the Rust's `[mat[3], mat[4], mat[5]]`.
#[tactic(auto, unfolding(crate::specs::Stages::luminances_of, ciexyz::specs::Xyz::to_xyz))]
pub(crate) fn luminances_of(primaries: Primaries, white: WhitePoint) -> Luminances
    ensures { result ≡ luminances_of primaries white }
{
    let mat = ciexyz::primaries_to_xyz_mat(primaries, white);
    Luminances {
        red: mat.m3,
        green: mat.m4,
        blue: mat.m5,
    }
}

// Of an encoding's own primaries.
pub(crate) fn own_luminances(e: EnumColourEncoding) -> Luminances
    ensures { result ≡ own_luminances e }
{
    luminances_of(e.primaries, e.white_point)
}

pub(crate) fn hdr_params(luminances: Luminances, intensity: f32, settings: Settings) -> HdrParams
    ensures { result ≡ hdr_params luminances intensity settings }
{
    HdrParams {
        luminances,
        intensity_target: intensity,
        min_nits: settings.min_nits,
    }
}
