// Records of a patch file, one after the other: the turns are counted, and each record is taken by its kind.
#![tactic(auto)]

ghost use Rattle.std.specs.Prelude.{◌≡◌, ◌+◌, ◌-◌, ◌^◌, ◌<◌, ◌≤◌, eqb, length};
ghost use Rattle.rules.specs.Patch.{nothing, turn};
ghost use Rattle.bodies.specs.Lent.{Lent};
ghost use Rattle.kinds.specs.Holding.{held_of, Sound};
ghost use Rattle.kinds.specs.Did.{Did};
ghost use Rattle.records.specs.Stepped.{holding, Stepped};

use bodies::Room;
use causes::Refusal;
use kinds::points::take_points;
use kinds::settings::take_setting;
use kinds::{Stock, Turned, told};
use parsing::{POINTS, Record, SETTING, WORD};
use words::take_word;

// How many turns were taken, and what is held after them.
// Nobody but this crate makes or changes one: a number is counted on by step alone.
#[derive(Clone, Copy)]
pub struct Held {
    turns: u64,
    stock: Stock,
}

// What comes of a record: what is held then, how many bytes were written, and whether the program goes on.
#[derive(Clone, Copy)]
pub struct Done {
    pub held: Held,
    pub wrote: usize,
    pub more: bool,
}

// What is held at the start.
pub fn start() -> Held
    ensures { result ≡ holding 0 nothing }
{
    Held {
        turns: 0,
        stock: Stock::Nothing,
    }
}

// Whether no number is left for a further record.
pub fn is_full(held: Held) -> bool
    ensures { result ≡ eqb held.turns (2 ^ 64 - 1) }
{
    held.turns == u64::MAX
}

// The record with this number, of which the input has these bytes.
fn by_kind(stock: Stock, number: u64, bytes: &[u8], room: &mut Room<'_>, out: &mut [u8]) -> Turned
    requires { Sound stock × (length bytes.now ≤ 132) × (16384 ≤ length out.old) }
    ensures did { Did (turn number (held_of stock) bytes.now) out.old out.new result }
    ensures lent { Lent room.old room.new }
{
    if bytes.is_empty() {
        return Turned {
            stock,
            wrote: 0,
            more: false,
        };
    }
    if parsing::is_broken(bytes) {
        return told(stock, number, 0, Err(Refusal::BrokenRecord), false, out);
    }
    let given = Record { bytes };
    match given.kind() {
        SETTING => take_setting(number, given, out),
        POINTS => take_points(stock, number, given, out),
        WORD => take_word(stock, number, given, room, out),
        kind => told(stock, number, kind, Err(Refusal::OtherKind), true, out),
    }
}

// The next record, of which the input has these bytes: its lines are written at the front of out.
// A word is read in the room: what that held before does not count, and nothing is said of what it holds then.
pub fn step(held: Held, bytes: &[u8], room: &mut Room<'_>, out: &mut [u8]) -> Done
    requires { Sound held.stock × (held.turns + 1 < 2 ^ 64) × (length bytes.now ≤ 132) × (16384 ≤ length out.old) }
    ensures stepped { Stepped held bytes.now out.old out.new result }
    ensures lent { Lent room.old room.new }
{
    let turns = held.turns + 1;
    let turned = by_kind(held.stock, turns, bytes, room, out);
    Done {
        held: Held {
            turns,
            stock: turned.stock,
        },
        wrote: turned.wrote,
        more: turned.more,
    }
}
