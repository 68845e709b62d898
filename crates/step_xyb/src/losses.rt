// a * b + c, rounded once, by f32 alone: what the product and the sum lose by their own rounding is put back before the last one.
ghost use Rattle.std.specs.Prelude.{◌≡◌};
ghost use Rattle.rounding.specs.Steps.{Parted, by_parts, lost, upper};

// The first twelve digits.
fn upper(x: f32) -> f32
    requires { Parted x }
    ensures { result ≡ upper x }
{
    f32::from_bits(f32::to_bits(x) / 0x1000 * 0x1000)
}

// p is the product of a and b; those of their parts are exact, and so are these sums of them.
fn lost(a: f32, b: f32, p: f32) -> f32
    requires { Parted a × Parted b }
    ensures { result ≡ lost a b p }
{
    let au = upper(a);
    let al = a - au;
    let bu = upper(b);
    let bl = b - bu;
    au * bu - p + au * bl + al * bu + al * bl
}

pub(crate) fn by_parts(a: f32, b: f32, c: f32) -> f32
    requires { Parted a × Parted b }
    ensures { result ≡ by_parts a b c }
{
    let p = a * b;
    let s = p + c;
    s + (c - (s - p) + lost(a, b, p))
}
