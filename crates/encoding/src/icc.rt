// The channel count of an ICC profile, by the colour space signature in its header.
ghost use Rattle.std.specs.Prelude.{◌≡◌, ◌≤◌, length};
ghost use Rattle.encoding.specs.Icc.{signature_is, icc_channels};

fn signature_is(profile: &[u8], signature: &[u8; 4]) -> bool
    requires { 20 ≤ length profile.now }
    ensures { result ≡ signature_is signature.now profile.now }
{
    &profile[16..20] == signature.as_slice()
}

pub fn icc_channels(profile: &[u8]) -> u8
    ensures { result ≡ icc_channels profile.now }
{
    if profile.len() < 20 {
        3
    } else if signature_is(profile, b"GRAY") {
        1
    } else if signature_is(profile, b"CMYK") {
        4
    } else {
        3
    }
}
