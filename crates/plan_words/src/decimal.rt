// Whole numbers as words. By hand: no plus, at most nine digits, and a sign and a size in one number, as the contracts have them.
ghost use Rattle.std.specs.Prelude.{◌≡◌};
ghost use Rattle.plan_words.specs.Decimal.{digits, whole, signed};

// At least one digit.
fn digits(s: &[u8]) -> Option<u32>
    ensures { result ≡ digits s.now }
{
    if s.len() == 0 {
        return None;
    }
    let mut n: u64 = 0;
    for c in s {
        if *c < b'0' {
            return None;
        }
        if b'9' < *c {
            return None;
        }
        n = 10 * n + (*c as u64 - 48);
        if 999_999_999 < n {
            return None;
        }
    }
    Some(n as u32)
}

// A negative one stands as 2^31 and its size.
#[tactic(auto, using(crate::proofs::NineDigits::nine_at_most))]
pub(crate) fn whole(s: &[u8]) -> Option<u32>
    ensures { result ≡ whole s.now }
{
    match s {
        [b'-', rest @ ..] => {
            let size = digits(rest)?;
            Some(0x8000_0000 + size)
        }
        _ => digits(s),
    }
}

pub(crate) fn signed(n: u32) -> i32
    ensures { result ≡ signed n }
{
    if n < 0x8000_0000 {
        return n as i32;
    }
    -((n - 0x8000_0000) as i32)
}
