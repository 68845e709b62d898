// Bytes put into a lent buffer. At a place, and into no chunk of it: of what `chunks_mut` lends, a proof knows the length alone once it is written.
// The answer is the next place: three loops of `pfm` go on from there, and count none themselves.
#![tactic(auto)]

ghost use Rattle.std.specs.Prelude.{◌≡◌};
ghost use Rattle.buffer.specs.Buffer.{placed, behind, Room, Put};

// Puts bytes into a buffer from a place on; the answer is the place behind them. Where there is no room, nothing is put.
pub fn put(out: &mut [u8], at: usize, text: &[u8]) -> usize
    ensures value { result ≡ behind out.old at text.now }
    ensures out_after { out.new ≡ placed out.old at text.now }
    ensures whole { Room out.old at text.now → Put out.old at text.now out.new result }
{
    if out.len() < at || out.len() - at < text.len() {
        return at;
    }
    let end = at + text.len();
    out[at..end].copy_from_slice(text);
    end
}
