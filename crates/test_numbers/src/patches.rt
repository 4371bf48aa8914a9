// The encode call: a line of p n k, the refusal, and the ten numbers of the buffer afterwards, which held nines.
ghost use Rattle.std.specs.Prelude.{◌≤◌};

use crate::text::put;
use causes::number_of;
use std::fmt;

// The numbers of the buffer after a call, parted by spaces.
#[derive(Clone, Copy)]
struct Numbers([u16; 10]);

impl fmt::Display for Numbers {
    fn fmt<W: fmt::Write>(&self, f: &mut fmt::Formatter<W>) -> fmt::Result {
        for (i, number) in self.0.iter().enumerate() {
            if i > 0 {
                f.write_str(" ")?;
            }
            write!(f, "{number}")?;
        }
        Ok(())
    }
}

// Encodes the first `symbols` symbols of the message at the first `points` points, with the first `room` numbers of the buffer lent.
fn line(rt: &HostRuntime, p: usize, n: usize, k: usize, points: usize, symbols: usize, room: usize)
    requires { (points ≤ 8) × (symbols ≤ 3) × (room ≤ 10) }
{
    let all = [0u16, 1, 2, 3, 4, 5, 6, 6];
    let message = [3u16, 2, 7];
    let mut buffer = [9u16; 10];
    let outcome = reader::encode(
        p,
        n,
        k,
        &all[..points],
        &message[..symbols],
        &mut buffer[..room],
    );
    let refusal = number_of(outcome);
    let left = Numbers(buffer);
    put(rt, &format_args!("{p} {n} {k} {refusal} {left}\n"));
}

// Every case of the call: p, n, k, how many points, how many symbols, how much room.
pub fn run(rt: &HostRuntime) {
    // Seven's patch, with room to spare, with just enough, and modulo 929
    line(rt, 7, 7, 2, 7, 2, 10);
    line(rt, 7, 7, 2, 7, 2, 7);
    line(rt, 929, 7, 3, 7, 3, 10);
    // each refusal, lowest first
    line(rt, 928, 7, 2, 7, 2, 10);
    line(rt, 7, 65, 2, 7, 2, 10);
    line(rt, 7, 7, 8, 7, 2, 10);
    line(rt, 7, 7, 2, 6, 2, 10);
    line(rt, 7, 7, 2, 7, 3, 10);
    line(rt, 5, 7, 2, 7, 2, 10);
    line(rt, 7, 7, 3, 7, 3, 10);
    line(rt, 7, 8, 2, 8, 2, 10);
    line(rt, 7, 7, 2, 7, 2, 6);
    // two causes at once: the lower number is given
    line(rt, 7, 8, 3, 8, 3, 0);
}
