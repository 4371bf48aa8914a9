// What is held from one record of a patch file to the next, the line of a record, and the two kinds that change what is held: settings and points.
#![tactic(auto)]

ghost use Rattle.std.specs.Prelude.{◌≡◌, ◌≤◌, length};
ghost use Rattle.causes.specs.Number.{refused};
ghost use Rattle.kinds.specs.Holding.{held_of, Clean};
ghost use Rattle.kinds.specs.Did.{Did, told_turn};

use causes::{Refusal, number_of};
use setting::Setting;
use text::Lines;

pub mod points;
pub mod settings;

// What is held: nothing, a setting, or a setting and its points, which are the first n of an array that has zeros behind them.
#[derive(Clone, Copy)]
pub enum Stock {
    Nothing,
    Set(Setting),
    Ready(Setting, [u16; 64]),
}

// What a turn did: what is held after it, how many bytes were written, and whether the program goes on. The turns are counted in crate records.
#[derive(Clone, Copy)]
pub struct Turned {
    pub stock: Stock,
    pub wrote: usize,
    pub more: bool,
}

// The line of a record that has no list to tell.
pub fn told(
    stock: Stock,
    number: u64,
    kind: u16,
    refusal: Result<(), Refusal>,
    more: bool,
    out: &mut [u8],
) -> Turned
    requires { Clean stock × (16384 ≤ length out.old) }
    ensures { Did (told_turn (held_of stock) number kind (refused refusal) more) out.old out.new result }
{
    let fields = [kind, number_of(refusal)];
    let mut lines = Lines::new(out);
    lines.numbered_line(number, &fields);
    Turned {
        stock,
        wrote: lines.len,
        more,
    }
}
