// Text on standard output, numbers with a space before each.
use causes::{Refusal, number_of};
use roots::Tally;
use std::fmt::{self, Display, Write};

// Standard output as a place for text, with the words that tell of a failed write.
#[derive(Drop)]
struct Output<'a> {
    rt: &'a HostRuntime,
    words: &'a [u8],
}

impl Write for Output<'_> {
    // Each piece is written by itself, so no memory is asked for; what cannot be written is told, and the next piece is tried.
    fn write_str(&mut self, piece: &str) -> fmt::Result {
        let _ = streams::put(self.rt, piece.as_bytes(), self.words);
        Ok(())
    }
}

// What is given, as text, piece by piece; where one cannot be written, these words tell it.
pub fn write<T: Display>(rt: &HostRuntime, words: &[u8], shown: &T) {
    let _ = Output { rt, words }.write(shown);
}

// The same for the program test_calls.
pub fn put<T: Display>(rt: &HostRuntime, shown: &T) {
    write(rt, b"test_calls: cannot write to standard output", shown);
}

// The run's first n numbers, or all where it has fewer.
pub fn put_run(rt: &HostRuntime, run: &[u16], n: usize) {
    for number in run.iter().take(n) {
        put(rt, &format_args!(" {number}"));
    }
}

// a·b and one more, and 1 where the buffers are too short for that.
pub fn places(a: usize, b: usize) -> usize {
    if a <= 25 && b <= 256 { a * b + 1 } else { 1 }
}

// Refusal, list length and beginnings, and how much of work is cleared.
pub fn put_outcome(rt: &HostRuntime, outcome: Result<Tally, Refusal>, work: &[u16]) {
    let refusal = number_of(outcome);
    let Tally { found, tried } = outcome.unwrap_or_default();
    let zeros = work.iter().take_while(|&&number| number == 0).count();
    put(rt, &format_args!(" {refusal} {found} {tried} {zeros}"));
}
