// One example of each refusal: what was given, and the number and position that the library answers.
#![tactic(auto)]

use ciexyz::{Millionths, Primaries, Vec3, WhitePoint};
use encoding::{ColourEncoding, ColourSpace, EnumColourEncoding, RenderingIntent, Settings};
use list::Plan;
use notation::Answer;
use op::{Curve, HdrParams, Luminances, Op};
use std::io;

// None of them matters here.
fn settings() -> Settings {
    Settings {
        inv_mat: ciexyz::adapt_mat(WhitePoint::D65, WhitePoint::D65),
        opsin_bias: Vec3 {
            v0: 0.0,
            v1: 0.0,
            v2: 0.0,
        },
        intensity_target: 255.0,
        min_nits: 0.0,
        detect_peak: false,
        from_pq: false,
    }
}

// As in `test_worked`: each program builds what it needs, and none is above the other.
fn side(colour_space: ColourSpace, white_point: WhitePoint, tf: Curve) -> ColourEncoding {
    ColourEncoding::Enum(EnumColourEncoding {
        colour_space,
        white_point,
        primaries: Primaries::Srgb,
        tf,
        rendering_intent: RenderingIntent::Relative,
    })
}

fn show(rt: &impl Print, given: &str, answer: Answer) -> io::Result<()> {
    let Answer {
        number,
        position,
        ..
    } = answer;
    match number {
        0 => println!(rt; "{given}: done"),
        5 | 6 => println!(rt; "{given}: refused {number} at {position}"),
        _ => println!(rt; "{given}: refused {number}"),
    }
}

fn show_plan(
    rt: &impl Print,
    given: &str,
    source: ColourEncoding,
    target: ColourEncoding,
) -> io::Result<()> {
    let planned = planner::plan(source, target, settings());
    show(rt, given, planner::paper(planned.answer))
}

// 1, 2, 15 and 3.
fn plans(rt: &impl Print) -> io::Result<()> {
    let rgb = side(ColourSpace::Rgb, WhitePoint::D65, Curve::Linear);
    show_plan(
        rt,
        "a plan from an ICC profile",
        ColourEncoding::IccProfile,
        rgb,
    )?;
    let nowhere = WhitePoint::Custom(Millionths {
        x: 9_000_000,
        y: 329_000,
    });
    show_plan(
        rt,
        "a plan from a white point at x = 9",
        side(ColourSpace::Rgb, nowhere, Curve::Linear),
        rgb,
    )?;
    show_plan(
        rt,
        "a plan to the Unknown curve",
        rgb,
        side(ColourSpace::Rgb, WhitePoint::D65, Curve::Unknown),
    )?;
    show_plan(
        rt,
        "a plan from an unknown colour space",
        side(ColourSpace::Unknown, WhitePoint::D65, Curve::Linear),
        rgb,
    )
}

// Runs the list on three channels, the last of them of these samples.
fn show_run(rt: &impl Print, given: &str, plan: Plan, c: &mut [f32]) -> io::Result<()> {
    let ran = run::run(plan, &mut [0.5; 3], &mut [0.5; 3], c);
    show(rt, given, run::paper(ran.outcome))
}

// 4, 5 and 6.
fn runs(rt: &impl Print) -> io::Result<()> {
    let clip = list::push(list::empty(3), Op::Clip);
    show_run(
        rt,
        "a run on three, three and two samples",
        clip,
        &mut [0.5; 2],
    )?;
    let luma = list::push(list::empty(3), Op::XyzToLuma);
    show_run(
        rt,
        "a run of XyzToLuma and again of XyzToLuma, which needs three channels",
        list::push(luma, Op::XyzToLuma),
        &mut [0.5; 3],
    )?;
    let planned = planner::plan(
        side(ColourSpace::Rgb, WhitePoint::D65, Curve::Linear),
        side(ColourSpace::Rgb, WhitePoint::D65, Curve::Srgb),
        settings(),
    );
    show_run(
        rt,
        "a run of a plan to sRGB, whose curve is not carried",
        planned.plan,
        &mut [0.5; 3],
    )
}

// 10: the list ends with one channel, and says three.
fn handed(rt: &impl Print) -> io::Result<()> {
    let mut stale = list::push(list::empty(3), Op::XyzToLuma);
    stale.end = 3;
    show_run(
        rt,
        "a run of XyzToLuma in a list that says it ends with three channels",
        stale,
        &mut [0.5; 3],
    )
}

fn show_block(rt: &impl Print, given: &str, bytes: &[u8]) -> io::Result<()> {
    let read = block_read::read(bytes);
    show(rt, given, block_read::paper(read.answer))
}

// 7, 8, 9 and 10.
fn blocks(rt: &impl Print) -> io::Result<()> {
    show_block(
        rt,
        "a block whose last op is cut off",
        &[0x43, 0x54, 0x50, 1, 0, 1, 2, 9],
    )?;
    show_block(
        rt,
        "a block of version 2 without its end width",
        &[0x43, 0x54, 0x50, 2, 0, 1, 0],
    )?;
    show_block(
        rt,
        "a block of version 3",
        &[0x43, 0x54, 0x50, 3, 0, 1, 1, 1, 9],
    )?;
    show_block(
        rt,
        "a block with an op of kind 10",
        &[0x43, 0x54, 0x50, 1, 0, 1, 1, 10],
    )?;
    show_block(
        rt,
        "a block of version 2 with Clip at width 1 and the end width 3",
        &[0x43, 0x54, 0x50, 2, 0, 1, 1, 3, 9],
    )?;
    show_block(
        rt,
        "a block of start width 2",
        &[0x43, 0x54, 0x50, 1, 0, 2, 1, 9],
    )
}

// 11.
fn strips(rt: &impl Print) -> io::Result<()> {
    let stripped = run_strips::strip(run_strips::closed(), &mut [0.5], &mut [0.5], &mut [0.5]);
    show(
        rt,
        "a strip without an open run",
        run_strips::paper(stripped.answer),
    )
}

fn show_writing(rt: &impl Print, given: &str, plan: Plan, version: u16) -> io::Result<()> {
    show(
        rt,
        given,
        block_write::paper(block_write::write(plan, version, &mut [0; 7])),
    )
}

// 8, 15 and 12.
fn writings(rt: &impl Print) -> io::Result<()> {
    let clip = list::push(list::empty(1), Op::Clip);
    show_writing(rt, "a list written in version 3", clip, 3)?;
    let unknown = Op::TransferFunction {
        curve: Curve::Unknown,
        hdr_params: HdrParams {
            luminances: Luminances {
                red: 0.0,
                green: 0.0,
                blue: 0.0,
            },
            intensity_target: 255.0,
            min_nits: 0.0,
        },
        inverse: false,
    };
    show_writing(
        rt,
        "a list with the Unknown curve, written into seven bytes",
        list::push(list::empty(1), unknown),
        1,
    )?;
    show_writing(
        rt,
        "a list of one op, whose block of version 1 has eight bytes, written into seven",
        clip,
        1,
    )
}

// 13.
fn conversions(rt: &impl Print) -> io::Result<()> {
    show(
        rt,
        "a conversion for firmware 5",
        ycbcr_firmware::paper(ycbcr_float::ycbcr_to_rgb(5, &mut [0.0], &mut [0.5], &mut [0.0])),
    )
}

// 4 again.
fn lines(rt: &impl Print) -> io::Result<()> {
    show(
        rt,
        "five chroma bytes widened to eight",
        chroma_half::paper(chroma_half::widen(&[90, 100, 110, 120, 130], &mut [0; 8])),
    )
}

// 14.
fn codes(rt: &impl Print) -> io::Result<()> {
    show(
        rt,
        "the codes 1023 and 1024, of which the last is none",
        srgb10_levels::paper(srgb10_levels::code_levels(&[1023, 1024], &mut [0.0; 2])),
    )
}

fn show_join(rt: &impl Print, given: &str, first: Plan, second: Plan) -> io::Result<()> {
    let joined = list_join::join(first, second);
    show(rt, given, list::paper(joined.answer))
}

fn doubled(plan: Plan) -> Plan {
    list_join::join(plan, plan).plan
}

// 10 and 5, in the first list, between the two, and in the second.
fn joins(rt: &impl Print) -> io::Result<()> {
    let clip = list::push(list::empty(3), Op::Clip);
    let clips = doubled(clip);
    let luma = list::push(clips, Op::XyzToLuma);
    let again = list::push(luma, Op::XyzToLuma);
    let all = doubled(doubled(doubled(doubled(clips))));
    show_join(
        rt,
        "a list of 32 ops joined to one of a single op",
        all,
        clip,
    )?;
    show_join(
        rt,
        "two Clips, XyzToLuma and again XyzToLuma joined to a Clip",
        again,
        clip,
    )?;
    show_join(
        rt,
        "two Clips and XyzToLuma joined to a list that starts with three channels",
        luma,
        clip,
    )?;
    show_join(
        rt,
        "two Clips joined to two Clips, XyzToLuma and again XyzToLuma",
        clips,
        again,
    )
}

fn main(rt: HostRuntime) -> io::Result<()> {
    plans(&rt)?;
    runs(&rt)?;
    handed(&rt)?;
    joins(&rt)?;
    blocks(&rt)?;
    strips(&rt)?;
    writings(&rt)?;
    conversions(&rt)?;
    lines(&rt)?;
    codes(&rt)
}
