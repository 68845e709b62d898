// A picture from encodings to samples, and the specification's worked cases of plans that `theorem_readings` does not compute, executed.
#![tactic(auto)]

use ciexyz::{Mat3, Millionths, Primaries, Vec3, WhitePoint};
use encoding::{ColourEncoding, ColourSpace, EnumColourEncoding, RenderingIntent, Settings};
use list::Plan;
use list_join::Joined;
use op::Curve;
use planner::Planned;
use std::io;

// The inverse opsin matrix and the bias that JPEG XL has where a picture names none.
const OPSIN: Mat3 = Mat3 {
    m0: 11.031566901960783,
    m1: -9.866943921568629,
    m2: -0.16462299647058826,
    m3: -3.254147380392157,
    m4: 4.418770392156863,
    m5: -0.16462299647058826,
    m6: -3.6588512862745097,
    m7: 2.7129230470588235,
    m8: 1.9459282392156863,
};

const BIAS: f32 = -0.0037930732552754493;

fn settings(intensity_target: f32, from_pq: bool) -> Settings {
    Settings {
        inv_mat: OPSIN,
        opsin_bias: Vec3 {
            v0: BIAS,
            v1: BIAS,
            v2: BIAS,
        },
        intensity_target,
        min_nits: 0.0,
        detect_peak: false,
        from_pq,
    }
}

fn side(colour_space: ColourSpace, white_point: WhitePoint, tf: Curve) -> ColourEncoding {
    ColourEncoding::Enum(EnumColourEncoding {
        colour_space,
        white_point,
        primaries: Primaries::Srgb,
        tf,
        rendering_intent: RenderingIntent::Relative,
    })
}

fn print_plan(rt: &impl Print, title: &str, plan: Plan) -> io::Result<()> {
    let mut text = [0u8; 1024];
    let size = block_text::list_plan(plan, &mut text);
    rt.print(title)?;
    rt.write_all(&text[..size])
}

// The list line by line, and the end width that it carries.
fn show_plan(rt: &impl Print, title: &str, plan: Plan) -> io::Result<()> {
    print_plan(rt, title, plan)?;
    println!(rt; "end width carried: {}", plan.end)
}

fn print_bytes(rt: &impl Print, [red, green, blue]: [u8; 3]) -> io::Result<()> {
    println!(rt; "{red} {green} {blue}")
}

// A sample of each channel as bytes for a screen.
fn print_sample(rt: &impl Print, sample: [f32; 3]) -> io::Result<()> {
    print_bytes(rt, sample.map(screen_bytes::screen_byte))
}

// A white sample, one of a red box, and a black one, as the three channels of XYB.
const CHANNELS: [[f32; 3]; 3] = [
    [0.0, 0.01979, 0.0],
    [0.8453, 0.37586, 0.0],
    [0.8453, 0.36405, 0.0],
];

// A channel as bytes for a screen.
fn bytes_of(channel: [f32; 3]) -> [u8; 3] {
    let mut bytes = [0u8; 3];
    // There are as many bytes as samples, so it is not refused.
    let _ = screen_bytes::screen_bytes(&channel, &mut bytes);
    bytes
}

fn at_once(rt: &impl Print, plan: Plan) -> io::Result<()> {
    let [mut a, mut b, mut c] = CHANNELS;
    let ran = run::run(plan, &mut a, &mut b, &mut c);
    if ran.outcome != Ok(3) {
        return rt.println("the run is refused");
    }
    let [red, green, blue] = [a, b, c].map(bytes_of);
    for i in 0..3usize {
        print_bytes(rt, [red[i], green[i], blue[i]])?;
    }
    Ok(())
}

// The same three samples by two strips, of one and of two.
fn by_strips(rt: &impl Print, plan: Plan) -> io::Result<()> {
    let [mut a, mut b, mut c] = CHANNELS;
    let opened = run_strips::open(run_strips::closed(), plan);
    let first = run_strips::strip(opened.state, &mut a[..1], &mut b[..1], &mut c[..1]);
    let second = run_strips::strip(first.state, &mut a[1..], &mut b[1..], &mut c[1..]);
    let closed = run_strips::close(second.state);
    if closed.answer != Ok(3) {
        return rt.println("the run by strips is refused");
    }
    rt.println("the same by strips")?;
    for i in 0..3usize {
        print_sample(rt, [a[i], b[i], c[i]])?;
    }
    Ok(())
}

// The three samples from XYB to linear RGB and to bytes for a screen.
fn picture(rt: &impl Print) -> io::Result<()> {
    let source = side(ColourSpace::Xyb, WhitePoint::D65, Curve::Linear);
    let target = side(ColourSpace::Rgb, WhitePoint::D65, Curve::Linear);
    let Planned {
        answer: Ok(()),
        plan,
    } = planner::plan(source, target, settings(255.0, false))
    else {
        return rt.println("the plan is refused");
    };
    show_plan(rt, "Xyb to Rgb, intensity 255\n", plan)?;
    at_once(rt, plan)?;
    by_strips(rt, plan)
}

const IDENTITY: Mat3 = Mat3 {
    m0: 1.0,
    m1: 0.0,
    m2: 0.0,
    m3: 0.0,
    m4: 1.0,
    m5: 0.0,
    m6: 0.0,
    m7: 0.0,
    m8: 1.0,
};

// D65 by its coordinates has the same floats, and is another white point.
fn custom_white(rt: &impl Print) -> io::Result<()> {
    let source = side(ColourSpace::Rgb, WhitePoint::D65, Curve::Linear);
    let white = WhitePoint::Custom(Millionths {
        x: 312_700,
        y: 329_000,
    });
    let target = side(ColourSpace::Rgb, white, Curve::Linear);
    let planned = planner::plan(source, target, settings(255.0, false));
    show_plan(rt, "\nRgb to Rgb with Custom white\n", planned.plan)?;
    if ciexyz::adapt_mat(WhitePoint::D65, white) == IDENTITY {
        rt.println("the adaptation is the identity")?;
    }
    Ok(())
}

// From one curve to another, at an intensity; a plan from Pq says so.
fn between(
    rt: &impl Print,
    title: &str,
    source: Curve,
    target: Curve,
    intensity: f32,
) -> io::Result<()> {
    let from = side(ColourSpace::Rgb, WhitePoint::D65, source);
    let to = side(ColourSpace::Rgb, WhitePoint::D65, target);
    let planned = planner::plan(from, to, settings(intensity, source == Curve::Pq));
    show_plan(rt, title, planned.plan)
}

// The plan of the picture as the office sends it: written as a plan block of a version, and read from there.
fn office(rt: &impl Print, title: &str, version: u16) -> io::Result<()> {
    let source = side(ColourSpace::Xyb, WhitePoint::D65, Curve::Linear);
    let target = side(ColourSpace::Rgb, WhitePoint::D65, Curve::Linear);
    let planned = planner::plan(source, target, settings(255.0, false));
    let mut bytes = [0u8; 64];
    let written = block_write::write(planned.plan, version, &mut bytes);
    let length = block_write::length(written);
    print!(rt; "{title}{length}")?;
    let read = block_read::read(&bytes);
    show_plan(rt, " bytes; read by the portal\n", read.plan)
}

// The three samples of the picture, run by one list and then by another, as grey bytes for a screen.
fn show_grey(rt: &impl Print, title: &str, first: Plan, second: Plan) -> io::Result<()> {
    let [mut a, mut b, mut c] = CHANNELS;
    run::run(first, &mut a, &mut b, &mut c);
    run::run(second, &mut a, &mut b, &mut c);
    rt.print(title)?;
    print_sample(rt, a)
}

// The portal's plan of the picture joined to that of a screen with one channel.
fn joined(rt: &impl Print) -> io::Result<()> {
    let xyb = side(ColourSpace::Xyb, WhitePoint::D65, Curve::Linear);
    let rgb = side(ColourSpace::Rgb, WhitePoint::D65, Curve::Linear);
    let grey = side(ColourSpace::Grey, WhitePoint::D65, Curve::Linear);
    let portal = planner::plan(xyb, rgb, settings(255.0, false)).plan;
    let screen = planner::plan(rgb, grey, settings(255.0, false)).plan;
    let Joined {
        answer: Ok(_),
        plan,
    } = list_join::join(portal, screen)
    else {
        return rt.println("the join is refused");
    };
    show_plan(rt, "\nXyb to Rgb, joined to Rgb to Grey\n", plan)?;
    show_grey(rt, "the joined list: ", plan, list::empty(1))?;
    show_grey(rt, "one after the other: ", portal, screen)
}

fn main(rt: HostRuntime) -> io::Result<()> {
    picture(&rt)?;
    custom_white(&rt)?;
    between(
        &rt,
        "\nLinear to Srgb, intensity 255\n",
        Curve::Linear,
        Curve::Srgb,
        255.0,
    )?;
    between(
        &rt,
        "\nLinear to Srgb, the next above 255\n",
        Curve::Linear,
        Curve::Srgb,
        255.00002,
    )?;
    between(
        &rt,
        "\nPq to Hlg, the next below 999\n",
        Curve::Pq,
        Curve::Hlg,
        998.99994,
    )?;
    between(&rt, "\nPq to Hlg, 999\n", Curve::Pq, Curve::Hlg, 999.0)?;
    between(&rt, "\nPq to Hlg, 1001\n", Curve::Pq, Curve::Hlg, 1001.0)?;
    between(
        &rt,
        "\nPq to Hlg, the next above 1001\n",
        Curve::Pq,
        Curve::Hlg,
        1001.00006,
    )?;
    office(&rt, "\nXyb to Rgb, written by the office in version 1: ", 1)?;
    office(&rt, "\nXyb to Rgb, written by the office in version 2: ", 2)?;
    joined(&rt)
}
