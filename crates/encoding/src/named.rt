// Encodings compared as named values and not as floats, and `is_equivalent` of src/convert.rs, enum case.
// What compares is the derived `==`; the names are kept, since the promises and the contracts of other crates go by them.
ghost use Rattle.std.specs.Prelude.{◌≡◌};
ghost use Rattle.encoding.specs.Named.{same_space, same_intent, same_white, same_primaries};
ghost use Rattle.encoding.specs.Equivalence.{same_rest, equivalent};

use crate::{ColourSpace, EnumColourEncoding, RenderingIntent};
use ciexyz::{Primaries, WhitePoint};

pub fn same_colour_space(space: ColourSpace, other: ColourSpace) -> bool
    ensures { result ≡ same_space space other }
{
    space == other
}

pub fn same_intent(intent: RenderingIntent, other: RenderingIntent) -> bool
    ensures { result ≡ same_intent intent other }
{
    intent == other
}

pub fn same_white_point(white: WhitePoint, other: WhitePoint) -> bool
    ensures { result ≡ same_white white other }
{
    white == other
}

pub fn same_primaries(primaries: Primaries, other: Primaries) -> bool
    ensures { result ≡ same_primaries primaries other }
{
    primaries == other
}

// Whether intent, white point, curve and, unless the first is Grey, primaries are the same.
fn same_rest(me: EnumColourEncoding, other: EnumColourEncoding) -> bool
    ensures { result ≡ same_rest me other }
{
    same_intent(me.rendering_intent, other.rendering_intent)
        && same_white_point(me.white_point, other.white_point)
        && list_same::same_curve(me.tf, other.tf)
        && (same_colour_space(me.colour_space, ColourSpace::Grey)
            || same_primaries(me.primaries, other.primaries))
}

pub fn is_equivalent(me: EnumColourEncoding, other: EnumColourEncoding) -> bool
    ensures { result ≡ equivalent me other }
{
    same_colour_space(me.colour_space, other.colour_space)
        && (same_colour_space(me.colour_space, ColourSpace::Xyb) || same_rest(me, other))
}
