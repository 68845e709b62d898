// Recorded answers compared with ours, by the kind of the record, which is its first word.
#![tactic(auto)]

mod blocks;
mod byte_channels;
mod codes;
mod conversions;
mod cuts; // cuts.rt: runs by strips
mod halves; // halves.rt: lines widened and narrowed
mod handed; // handed.rt: lists as a caller hands them over
mod joins; // joins.rt: lists that are joined
mod lists;
mod matrices;
mod plans;
mod screens;
mod sides; // sides.rt: encodings and settings
mod writing;

use test_record::from_word;

// A kind stays a number, as the record has it: an enum would say each twice more, in its TryFrom and below.
const FUSED: u32 = 1;

const CBRT: u32 = 2;

const MATMUL3: u32 = 3;

const MATMUL3VEC: u32 = 4;

const MATINV: u32 = 5;

const ILLUMINANT_TO_XYZ: u32 = 6;

const ADAPT_MAT_XY: u32 = 7;

const ADAPT_MAT: u32 = 8;

const PRIMARIES_TO_XYZ_MAT_XY: u32 = 9;

const PRIMARIES_TO_XYZ_MAT: u32 = 10;

const XYZ_TO_PRIMARIES_MAT_XY: u32 = 11;

const XYZ_TO_PRIMARIES_MAT: u32 = 12;

const PLAN: u32 = 13;

const MERGE: u32 = 14;

const RUN: u32 = 15;

const YCBCR: u32 = 16;

const BLOCK: u32 = 17;

const SCREEN: u32 = 18;

const STRIPS: u32 = 19;

const WRITING: u32 = 20;

const BYTES: u32 = 21;

const CODE: u32 = 22;

const LEVELS: u32 = 23;

const HANDED: u32 = 24;

const BYTES_BACK: u32 = 25;

const JOIN: u32 = 26;

const HALF: u32 = 27;

const LINE: u32 = 28;

fn same_matrix(kind: u32, words: &[u8]) -> bool {
    match kind {
        MATMUL3 => matrices::same_matmul3(words),
        MATMUL3VEC => matrices::same_matmul3vec(words),
        MATINV => matrices::same_matinv(words),
        ILLUMINANT_TO_XYZ => matrices::same_xyz(words),
        ADAPT_MAT_XY => matrices::same_adapt_xy(words),
        ADAPT_MAT => matrices::same_adapt(words),
        PRIMARIES_TO_XYZ_MAT_XY => matrices::same_mat_xy(
            words,
            |p, w| ciexyz::primaries_to_xyz_mat(p, w),
        ),
        PRIMARIES_TO_XYZ_MAT => matrices::same_mat_named(
            words,
            |p, w| ciexyz::primaries_to_xyz_mat(p, w),
        ),
        XYZ_TO_PRIMARIES_MAT_XY => matrices::same_mat_xy(
            words,
            |p, w| ciexyz::xyz_to_primaries_mat(p, w),
        ),
        XYZ_TO_PRIMARIES_MAT => matrices::same_mat_named(
            words,
            |p, w| ciexyz::xyz_to_primaries_mat(p, w),
        ),
        _ => false,
    }
}

// Whether a line is a record, and our answer is the recorded one. A new kind has its number here, and an arm.
pub fn same(line: &[u8]) -> bool {
    if !test_record::is_record(line) {
        return false;
    }
    let kind = test_record::word(line, 0);
    let words = from_word(line, 1);
    match kind {
        FUSED => conversions::same_fused(words),
        CBRT => conversions::same_cbrt(words),
        YCBCR => conversions::same_ycbcr(words),
        PLAN => plans::same_plan(words),
        MERGE => lists::same_merged(words),
        RUN => lists::same_run(words, false),
        STRIPS => lists::same_run(words, true),
        BLOCK => blocks::same_block(words),
        SCREEN => screens::same_screen(words),
        WRITING => handed::same_handed(words, writing::same_written),
        BYTES => byte_channels::same_conversion(words, ycbcr_bytes::ycbcr_to_rgb),
        BYTES_BACK => byte_channels::same_conversion(words, ycbcr_bytes_back::rgb_to_ycbcr),
        LINE => byte_channels::same_conversion(words, chroma_line::line_to_rgb),
        CODE => codes::same_code(words),
        LEVELS => codes::same_levels(words),
        HANDED => handed::same_handed(words, handed::same_answers),
        JOIN => joins::same_joined(words),
        HALF => halves::same_half(words),
        _ => same_matrix(kind, words),
    }
}
