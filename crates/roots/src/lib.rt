// The tally, and what a beginning of k symbols adds to it: a root, or none.
#![tactic(auto)]

ghost use Rattle.std.specs.Prelude.{◌≡◌, ◌+◌, ◌*◌, ◌^◌, ◌<◌, length, take};
ghost use Rattle.followers.specs.Followers.{Written};
ghost use Rattle.roots.specs.Ready.{found_at, listed, SearchReady};

use runs::{all_zero, copy};

mod sizes;

pub use sizes::Sizes;

// List length and beginnings tried.
#[derive(Clone, Copy, Debug, Default, PartialEq, Eq)]
pub struct Tally {
    pub found: usize,
    pub tried: usize,
}

impl Tally {
    // One beginning more is tried.
    pub fn tried_one(self) -> Tally
        requires { self.tried + 1 < 2 ^ 64 }
        ensures { result ≡ record self { tried = self.tried + 1 } }
    {
        Tally {
            tried: self.tried + 1,
            ..self
        }
    }
}

// A beginning of k symbols: it is a root when its curve is zero at y = 0.
pub fn settle(
    sizes: Sizes,
    a: usize,
    work: &[u16],
    begun: &[u16],
    roots: &mut [u16],
    tally: Tally,
) -> Tally
    requires { SearchReady sizes 0 a work.now begun.now roots.old tally (found_at sizes 0 a work.now) 1 }
    ensures { (result.found ≡ tally.found + length (found_at sizes 0 a work.now)) × (result.tried ≡ tally.tried + 1)
        × Written (listed (take sizes.k begun.now) (found_at sizes 0 a work.now)) (tally.found * sizes.k) roots.old
        roots.new }
{
    let counted = tally.tried_one();
    if !all_zero(&work[a..a + sizes.rows.w]) {
        return counted;
    }
    let at = tally.found * sizes.k;
    copy(&begun[..sizes.k], &mut roots[at..at + sizes.k]);
    Tally {
        found: tally.found + 1,
        ..counted
    }
}
