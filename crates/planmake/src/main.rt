// A plan block from words: a few a line on standard input, the block on standard output.
#![tactic(auto)]

use std::io;

// How long the word at the front is: 0 where the text or the line ends there, and at most 40.
fn word_length(text: &[u8]) -> usize {
    text.iter().take(40).take_while(|c| **c > b' ').count()
}

// Names the word that begins at a place, or says that one is missing there.
fn name_fault(rt: &HostRuntime, text: &[u8], place: usize) -> io::Result<()> {
    program_io::begin(rt, "planmake")?;
    let line = plan_words::line_of(text, place);
    let word = plan_words::word_of(text, place);
    eprint!(rt; "line {line}, word {word}")?;
    name_word(rt, text, place)
}

// The word's bytes stand as they came, which need not be text.
fn name_word(rt: &HostRuntime, text: &[u8], place: usize) -> io::Result<()> {
    let from = program_io::least(place, text.len());
    let behind = &text[from..];
    let n = word_length(behind);
    if n == 0 {
        return eprintln!(rt; " is missing");
    }
    eprint!(rt; " is not understood: \"")?;
    program_io::write_part(&rt.stderr(), behind, 0, n)?;
    eprintln!(rt; "\"")
}

fn make(rt: &HostRuntime, text: &[u8]) -> io::Result<()> {
    let filling = plan_words::filled(text);
    if let Some(place) = filling.fault {
        return name_fault(rt, text, place);
    }
    let mut block = [0u8; block_write::LONGEST];
    let mut told = [0u64; 4];
    let number = c_plan::rindsaddle_plan(
        &plan_words::source(filling),
        &plan_words::target(filling),
        &plan_words::floats(filling),
        plan_words::detect_peak(filling),
        plan_words::from_pq(filling),
        plan_words::version(filling),
        &mut block,
        &mut told,
    );
    if number != 0 {
        return program_io::refuse_by(rt, "planmake", number as u64, 0);
    }
    if program_io::write_part(rt, &block, 0, told[1] as usize).is_err() {
        return program_io::refuse(rt, "planmake", "the block cannot be written");
    }
    Ok(())
}

fn main(rt: HostRuntime) -> io::Result<()> {
    // No Vec, as `program_io` says.
    let mut text = [0u8; 65_537];
    let n = program_io::read_full(&rt, &mut text)?;
    if 65_536 < n {
        return program_io::refuse(&rt, "planmake", "the words are more than 65,536 bytes");
    }
    make(&rt, &text[..n])
}
