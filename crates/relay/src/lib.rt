// One relay step: an image is opened, each message that has a position is shifted to another site's origin, and the pair is closed into a
// buffer.

#![tactic(auto)]

ghost use Rattle.relay.specs.Relay.{Relayed};

use refusal::Refusal;

// Relays an image by offsets in feet on X and on Y: opening's refusals, 2 on the buffer, 2 X, 2 Y, 9 on X offsets, 9 on Y offsets, then 9
// on results, places 1 and 2 for the first message's X and Y, 3 and 4 for the second's. On a refusal nothing is written.
pub fn relay(image: &[u8], xs: &[i32], ys: &[i32], buffer: &mut [u8]) -> Result<(), Refusal>
    ensures { Relayed image.now xs.now ys.now buffer.old result buffer.new }
{
    let (first, second) = opening::open(image)?;
    if buffer.len() != 16 {
        return Err(Refusal::of(refusal::BAD_LENGTH));
    }
    let (a, b) = pair_shift::shift_pair(first, second, xs, ys)?;
    closing::close(a, b, buffer)
}
