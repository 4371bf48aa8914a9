// The setting call: a line of p n k s τ, the refusal, W ℓ C U R.
use crate::text::put;
use causes::number_of;
use setting::{Derived, Setting};

// The largest number of 64 bits.
const LAST: usize = usize::MAX;

// The call for one case, p, n, k, s, τ.
fn line(rt: &HostRuntime, [p, n, k, s, tau]: [usize; 5]) {
    let outcome = setting::derive(Setting { p, n, k, s, tau });
    let refusal = number_of(outcome);
    let Derived { w, l, c, u, r } = outcome.unwrap_or_default();
    put(
        rt,
        &format_args!("{p} {n} {k} {s} {tau} {refusal} {w} {l} {c} {u} {r}\n"),
    );
}

// The document's own: p, n, k, s, τ.
const NAMED: [[usize; 5]; 14] = [
    // the modulus: 929 is taken, 928 and 937 are refused
    [929, 7, 2, 1, 3],
    [928, 7, 2, 1, 3],
    [937, 7, 2, 1, 3],
    // Seven at each s and τ of the document
    [7, 7, 2, 1, 3],
    [7, 7, 2, 1, 2],
    [7, 7, 2, 1, 4],
    [7, 7, 2, 2, 4],
    [7, 7, 2, 3, 4],
    // the largest τ that is taken, and the next
    [929, 32, 8, 1, 14],
    [929, 32, 8, 1, 15],
    [929, 32, 8, 2, 15],
    [929, 32, 8, 2, 16],
    [929, 32, 8, 4, 16],
    [929, 32, 8, 4, 17],
];

// Large and small settings.
const SIZES: [[usize; 5]; 10] = [
    // ℓ above 24, and both refusals at once
    [929, 64, 2, 1, 38],
    [929, 64, 2, 1, 39],
    [929, 64, 2, 1, 53],
    [929, 64, 2, 1, 54],
    [929, 64, 2, 4, 56],
    // more work than the program has, and the most that any setting needs
    [929, 64, 32, 4, 16],
    [929, 62, 11, 4, 0],
    // the smallest setting, the largest code, and a code longer than its field
    [2, 2, 2, 1, 0],
    [929, 64, 64, 4, 0],
    [2, 64, 2, 1, 39],
];

// Moduli at the edges.
const MODULI: [[usize; 5]; 10] = [
    [0, 7, 2, 1, 3],
    [1, 7, 2, 1, 3],
    [3, 7, 2, 1, 3],
    [4, 7, 2, 1, 3],
    [9, 7, 2, 1, 3],
    [841, 7, 2, 1, 3],
    [65543, 7, 2, 1, 3],
    [4294967303, 7, 2, 1, 3],
    [18446744073709551557, 7, 2, 1, 3],
    [LAST, 7, 2, 1, 3],
];

// Each parameter just outside its range.
const OUTSIDE: [[usize; 5]; 8] = [
    [7, 1, 1, 1, 0],
    [7, 65, 2, 1, 40],
    [7, 0, 0, 0, 0],
    [7, 7, 1, 1, 3],
    [7, 7, 8, 1, 0],
    [7, 7, 2, 0, 3],
    [7, 7, 2, 5, 3],
    [7, 7, 2, 1, 7],
];

// Each far outside, and more than one.
const FAR_OUTSIDE: [[usize; 5]; 10] = [
    [7, 4294967303, 2, 1, 3],
    [7, 7, 4294967298, 1, 3],
    [7, 7, 2, 4294967297, 3],
    [7, 7, 2, 1, 4294967299],
    [7, LAST, 2, 1, 3],
    [7, 7, LAST, 1, 3],
    [7, 7, 2, LAST, 3],
    [7, 7, 2, 1, LAST],
    // both 1 and 2 apply, and all at once
    [928, 1, 2, 1, 0],
    [LAST, LAST, LAST, LAST, LAST],
];

// The call for each case, one after the other.
fn lines(rt: &HostRuntime, cases: &[[usize; 5]]) {
    for &case in cases {
        line(rt, case);
    }
}

// Every case of the call.
pub fn run(rt: &HostRuntime) {
    lines(rt, &NAMED);
    lines(rt, &SIZES);
    lines(rt, &MODULI);
    lines(rt, &OUTSIDE);
    lines(rt, &FAR_OUTSIDE);
}
