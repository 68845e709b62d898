// Where in a text a place stands.
ghost use Rattle.std.specs.Prelude.{◌≡◌, take};
ghost use Rattle.plan_words.specs.Places.{line_of, word_of};

fn front(s: &[u8], place: usize) -> &[u8]
    ensures { result.now ≡ take place s.now }
{
    &s[..place.min(s.len())]
}

// The line, from 1.
#[tactic(auto, unfolding(crate::specs::Places::line_of))]
pub fn line_of(s: &[u8], place: usize) -> u64
    ensures { result ≡ line_of s.now place }
{
    let line_feeds = front(s, place).iter().filter(|c| **c == b'\n').count();
    line_feeds as u64 + 1
}

// The word of that line, from 1.
#[tactic(auto, unfolding(crate::specs::Places::word_of))]
pub fn word_of(s: &[u8], place: usize) -> u64
    ensures { result ≡ word_of s.now place }
{
    let mut n: u64 = 0;
    let mut inside = false;
    for c in front(s, place) {
        if *c == b'\n' {
            n = 0;
            inside = false;
        } else if *c <= b' ' {
            inside = false;
        } else if !inside {
            n += 1;
            inside = true;
        }
    }
    n + 1
}
