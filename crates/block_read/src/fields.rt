// The fields of an op of a plan block, which follow its kind byte: what they stand for, and which are bad.
// Blank cells say by their values which fields these are. Which are bad and what they stand for are asked apart, as the contracts say both.
ghost use Rattle.std.specs.Prelude.{◌≡◌, map, ◌+◌, ◌≤◌, length, take};
ghost use Rattle.op_fields.specs.Parts.{field_of, field_in, value_of};
ghost use Rattle.block_read.specs.Fields.{size_of, bytes_of, u16_at, u32_at, first_float, value_in, values_in};
ghost use Rattle.block_read.specs.BadFields.{bad_curve, is_bad, any_bad};

use op_fields::{Cell, Value};

pub const LARGEST_G: u32 = 16_777_215;

fn size_of(blank: Value) -> usize
    ensures { result ≡ size_of (field_of blank) }
{
    match blank {
        Value::Float(_) => 4,
        Value::Flag(_) => 1,
        Value::Curve(_) => 5,
    }
}

// The bytes of all the fields.
pub(crate) fn payload(blanks: &[Cell]) -> usize
    requires { length blanks.now ≤ 9 }
    ensures { result ≡ bytes_of (map field_in blanks.now) }
{
    let mut size = 0;
    for blank in blanks {
        size += size_of(blank.0);
    }
    size
}

pub(crate) fn u16_at(s: &[u8], at: usize) -> u16
    requires { at + 2 ≤ length s.now }
    ensures { result ≡ u16_at s.now at }
{
    u16::from_le_bytes([s[at], s[at + 1]])
}

fn u32_at(s: &[u8], at: usize) -> u32
    requires { at + 4 ≤ length s.now }
    ensures { result ≡ u32_at s.now at }
{
    u32::from_le_bytes([s[at], s[at + 1], s[at + 2], s[at + 3]])
}

// Every NaN's pattern is the one NaN.
fn first_float(s: &[u8]) -> f32
    requires { 4 ≤ length s.now }
    ensures { result ≡ first_float s.now }
{
    binary32::from_pattern(u32_at(s, 0))
}

fn bad_curve(n: u8, g: u32) -> bool
    ensures { result ≡ bad_curve n g }
{
    n > 8 || g > LARGEST_G || (n >= 2 && g != 0)
}

// Whether the field at the front of a slice is bad.
fn is_bad(blank: Value, s: &[u8]) -> bool
    requires { size_of (field_of blank) ≤ length s.now }
    ensures { result ≡ is_bad (field_of blank) s.now }
{
    match blank {
        Value::Float(_) => first_float(s).is_nan(),
        Value::Flag(_) => s[0] > 1,
        Value::Curve(_) => bad_curve(s[0], u32_at(s, 1)),
    }
}

// Whether one of the fields, one after the other, is bad.
pub(crate) fn any_bad(blanks: &[Cell], s: &[u8]) -> bool
    requires { bytes_of (map field_in blanks.now) ≤ length s.now }
    ensures { result ≡ any_bad (map field_in blanks.now) s.now }
{
    let mut at = 0;
    for blank in blanks {
        if is_bad(blank.0, &s[at..]) {
            return true;
        }
        at += size_of(blank.0);
    }
    false
}

// The value of the field at the front of a slice.
fn value_in(blank: Value, s: &[u8]) -> Value
    requires { size_of (field_of blank) ≤ length s.now }
    ensures { result ≡ value_in (field_of blank) s.now }
{
    match blank {
        Value::Float(_) => Value::Float(first_float(s)),
        Value::Flag(_) => Value::Flag(s[0] == 1),
        Value::Curve(_) => Value::Curve(op_fields::curve_numbered(s[0] as u32, u32_at(s, 1))),
    }
}

// The values of the fields, one after the other, in the first cells.
pub(crate) fn values_in(blanks: &[Cell], s: &[u8]) -> [Cell; 9]
    requires blanks_few { length blanks.now ≤ 9 }
    requires blanks_room { bytes_of (map field_in blanks.now) ≤ length s.now }
    ensures { map value_of (take (length blanks.now) result) ≡ values_in (map field_in blanks.now) s.now }
{
    let mut cells = [Cell(Value::Float(0.0)); 9];
    let mut at = 0;
    for (i, blank) in blanks.iter().enumerate() {
        cells[i] = Cell(value_in(blank.0, &s[at..]));
        at += size_of(blank.0);
    }
    cells
}
