// What the lines are made of, each put behind what is there.
// By hand, and not by `write!`: each byte is proved. Each function asks for the room of its own words, and for a number below a hundred: no invariant of
// the text says what is still to come, and a type for the numbers would be opened at each call.
ghost use Rattle.std.specs.Prelude.{◌≡◌, ◌+◌, ◌<◌, ◌≤◌, ◌++◌, length};
ghost use Rattle.arrayvec.specs.ArrayVec.{array_vec_len};
ghost use Rattle.block_text.specs.Words.{name_of, mark_of, title_of, decimal, counted, ending};

use arrayvec::ArrayVec;
use op::Op;

pub(crate) type Text = ArrayVec<u8, 1024>;

// A number below a hundred, in decimal.
pub(crate) fn put_number(out: &mut Text, n: usize)
    requires room { array_vec_len out.old + length (decimal n) ≤ 1024 }
    requires n_bound { n < 100 }
    ensures { out.new.items ≡ out.old.items ++ decimal n }
{
    if n >= 10 {
        out.push(b'0' + (n / 10) as u8);
    }
    out.push(b'0' + (n % 10) as u8);
}

// Words and then a number.
pub(crate) fn put_counted(out: &mut Text, words: &[u8], n: usize)
    requires room { array_vec_len out.old + length (counted words.now n) ≤ 1024 }
    requires n_bound { n < 100 }
    ensures { out.new.items ≡ out.old.items ++ counted words.now n }
{
    out.try_extend_from_slice(words).unwrap();
    put_number(out, n);
}

// The same as the end of a line.
pub(crate) fn put_ending(out: &mut Text, words: &[u8], n: usize)
    requires room { array_vec_len out.old + length (ending words.now n) ≤ 1024 }
    requires n_bound { n < 100 }
    ensures { out.new.items ≡ out.old.items ++ ending words.now n }
{
    put_counted(out, words, n);
    out.push(b'\n');
}

fn name_of(op: Op) -> &'static [u8]
    ensures { result.now ≡ name_of op }
{
    match op {
        Op::XybToMixedLms { .. } => b"XybToMixedLms",
        Op::LumaToXyz { .. } => b"LumaToXyz",
        Op::XyzToLuma => b"XyzToLuma",
        Op::Matrix(_) => b"Matrix",
        Op::TransferFunction { .. } => b"TransferFunction",
        Op::HlgInverseOotf(_) => b"HlgInverseOotf",
        Op::ToneMapRec2408 { .. } => b"ToneMapRec2408",
        Op::ToneMapLumaRec2408 { .. } => b"ToneMapLumaRec2408",
        Op::GamutMap { .. } => b"GamutMap",
        Op::Clip => b"Clip",
    }
}

// A word behind the name of an op that has the retired curve.
fn mark_of(op: Op) -> &'static [u8]
    ensures { result.now ≡ mark_of op }
{
    if op::is_retired(op) { b" retired" } else { b"" }
}

pub(crate) fn put_title(out: &mut Text, op: Op)
    requires { array_vec_len out.old + length (title_of op) ≤ 1024 }
    ensures { out.new.items ≡ out.old.items ++ title_of op }
{
    out.try_extend_from_slice(name_of(op)).unwrap();
    out.try_extend_from_slice(mark_of(op)).unwrap();
}
