// A capture, a run of octets of decoded bits: the search for the first good frame.

#![tactic(auto)]

ghost use Rattle.std.specs.Prelude.{◌≡◌};
ghost use Rattle.capture.specs.Search.{search_of};

use refusal::Refusal;
use std::ops::ControlFlow;

// The least position from `start` on at which a good frame lies whole: 2, 9, 10.
pub fn search(capture: &[u8], start: usize) -> Result<usize, Refusal>
    ensures { result ≡ search_of capture.now start }
{
    if 65536 < capture.len() {
        return Err(Refusal::of(refusal::BAD_LENGTH));
    }
    let total = 8 * capture.len();
    if total < start {
        return Err(Refusal::of(refusal::OUT_OF_RANGE));
    }
    let mut p = start;
    while p + 128 <= total {
        match sieve::look(capture, p) {
            ControlFlow::Break(at) => return Ok(at),
            ControlFlow::Continue(next) => p = next,
        }
    }
    Err(Refusal::of(refusal::NO_FRAME))
}
