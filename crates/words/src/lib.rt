// A record of kind 3: the word is read with the setting and the points that are held.
#![tactic(auto)]

ghost use Rattle.std.specs.Prelude.{◌≤◌, length, take};
ghost use Rattle.rules.specs.Patch.{body, word_turn, word_comes};
ghost use Rattle.bodies.specs.Setting.{setting_of};
ghost use Rattle.bodies.specs.Lent.{Lent};
ghost use Rattle.kinds.specs.declared.Stock.TheVariants.{Ready};
ghost use Rattle.kinds.specs.Holding.{held_of, Sound};
ghost use Rattle.kinds.specs.Did.{Did};

use bodies::Room;
use causes::Refusal;
use kinds::{Stock, Turned, told};
use parsing::{Record, WORD};
use setting::Setting;
use text::Lines;

// A word for this setting and these points, read in the room.
fn read_word(
    setting: Setting,
    points: [u16; 64],
    number: u64,
    given: Record<'_>,
    room: &mut Room<'_>,
    out: &mut [u8],
) -> Turned
    requires { Sound (Ready setting points) × (16384 ≤ length out.old) }
    ensures did { Did (word_turn number (setting_of setting) (take setting.n points) (body given.entry.bytes.now)) out.old out.new result }
    ensures lent { Lent room.old room.new }
{
    let stock = Stock::Ready(setting, points);
    let mut word = [0; 64];
    let m = given.read_body(&mut word);
    match bodies::read_held(setting, &points[..setting.n], &word[..m], room) {
        Ok(found) => {
            let fields = [WORD, 0, found as u16];
            let mut lines = Lines::new(out);
            lines.numbered_line(number, &fields);
            bodies::candidates(room.list, setting.k, found, &mut lines);
            Turned {
                stock,
                wrote: lines.len,
                more: true,
            }
        }
        Err(cause) => told(stock, number, WORD, Err(cause), true, out),
    }
}

// 12 where no points are held, before the body is read.
#[tactic(auto, using(crate::proofs::Answered::word_missing))]
pub fn take_word(
    stock: Stock,
    number: u64,
    given: Record<'_>,
    room: &mut Room<'_>,
    out: &mut [u8],
) -> Turned
    requires { Sound stock × (16384 ≤ length out.old) }
    ensures did { Did (word_comes number (held_of stock) (body given.entry.bytes.now)) out.old out.new result }
    ensures lent { Lent room.old room.new }
{
    match stock {
        Stock::Nothing | Stock::Set(_) => {
            told(stock, number, WORD, Err(Refusal::NothingHeld), true, out)
        }
        Stock::Ready(setting, points) => read_word(setting, points, number, given, room, out),
    }
}
