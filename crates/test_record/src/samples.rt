// Samples, and three channels of them one after the other, a word to a sample.
// Three slices, as `channels` says.
use crate::{float, from_word, word};

// Each sample takes the word in its place. So do bytes and codes in `test_recorded`: a loop of one line each, and a common one would take a closure.
pub fn read_samples(words: &[u8], samples: &mut [f32]) {
    for (i, sample) in samples.iter_mut().enumerate() {
        *sample = float(words, i);
    }
}

pub fn read_channels(words: &[u8], a: &mut [f32], b: &mut [f32], c: &mut [f32]) {
    let after_a = from_word(words, a.len());
    let after_b = from_word(after_a, b.len());
    read_samples(words, a);
    read_samples(after_a, b);
    read_samples(after_b, c);
}

// Whether each sample has the bits of the word in its place, with all NaNs as one.
pub fn same_samples(words: &[u8], samples: &[f32]) -> bool {
    samples.iter().enumerate().all(|(i, sample)| binary32::to_pattern(*sample) == word(words, i))
}

pub fn same_channels(words: &[u8], a: &[f32], b: &[f32], c: &[f32]) -> bool {
    let after_a = from_word(words, a.len());
    let after_b = from_word(after_a, b.len());
    same_samples(words, a) & same_samples(after_a, b) & same_samples(after_b, c)
}
