// The room in which a word is read.
ghost use Rattle.std.specs.Prelude.{◌≡◌, length};

use crate::{CURVE, LIST, WORK};

// The room that is lent to every word: the list of candidates is left in the first.
// Its ghost fields say no more than its types, so that a proof knows it of a room that was lent on.
#[derive(Drop)]
pub struct Room<'a> {
    pub list: &'a mut [u16; LIST],
    pub curve: &'a mut [u16; CURVE],
    pub work: &'a mut [u16; WORK],
    ghost list_long: { length list.now ≡ 1536 },
    ghost curve_long: { length curve.now ≡ 6400 },
    ghost work_long: { length work.now ≡ 24000 },
}
