// The field calls: a line of p a b, then the refusal and the symbol of a + b, a − b, a·b and of the inverse of a.
use crate::text::put;
use causes::{Refusal, number_of};
use std::fmt;

// The refusal number and the symbol that a field call answers.
#[derive(Clone, Copy)]
struct Answered(Result<u16, Refusal>);

impl fmt::Display for Answered {
    fn fmt<W: fmt::Write>(&self, f: &mut fmt::Formatter<W>) -> fmt::Result {
        let refusal = number_of(self.0);
        let symbol = self.0.unwrap_or(0);
        write!(f, "{refusal} {symbol}")
    }
}

// The four calls for one case.
fn line(rt: &HostRuntime, p: usize, a: u16, b: u16) {
    let sum = Answered(field::sum(p, a, b));
    let difference = Answered(field::difference(p, a, b));
    let product = Answered(field::product(p, a, b));
    let inverse = Answered(field::inverse(p, a));
    put(
        rt,
        &format_args!("{p} {a} {b} {sum} {difference} {product} {inverse}\n"),
    );
}

// p, a and b of every case.
const CASES: [(usize, u16, u16); 14] = [
    // document 01's inverses, 465 and 310, and these times 2 and 3
    (929, 2, 465),
    (929, 3, 310),
    // the largest symbols, the smallest field, zero
    (929, 928, 928),
    (2, 1, 1),
    (7, 0, 4),
    (7, 3, 5),
    // moduli that are refused, also where a symbol would be too
    (928, 2, 3),
    (937, 2, 3),
    (1, 0, 0),
    (65543, 3, 5),
    (18446744073709551615, 65535, 65535),
    // symbols that are refused
    (7, 7, 0),
    (7, 0, 7),
    (929, 65535, 65535),
];

// Every case of the calls.
pub fn run(rt: &HostRuntime) {
    for (p, a, b) in CASES {
        line(rt, p, a, b);
    }
}
