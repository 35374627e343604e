// The shift of a pair: both messages, by the same lists of offsets.

#![tactic(auto)]

ghost use Rattle.std.specs.Prelude.{◌≡◌};
ghost use Rattle.shift.specs.Shift.{both_shifted, pair_shifted};

use message::Message;
use refusal::Refusal;
use shift::Offset;

// Places 1 and 2 are the first message's X and Y, 3 and 4 the second's.
fn shift_both(first: Message, second: Message, by: Offset) -> Result<(Message, Message), Refusal>
    ensures { result ≡ both_shifted first second by.x.0 by.y.0 }
{
    let a = shift::shift(first, by, 1, 2)?;
    let b = shift::shift(second, by, 3, 4)?;
    Ok((a, b))
}

// Shifts a pair: 2 X, 2 Y, 9 on X offsets, 9 on Y offsets, then 9 on results. The lists are checked also where neither message has a
// position.
pub fn shift_pair(
    first: Message,
    second: Message,
    xs: &[i32],
    ys: &[i32],
) -> Result<(Message, Message), Refusal>
    ensures { result ≡ pair_shifted first second xs.now ys.now }
{
    let by = shift::add_both(xs, ys)?;
    shift_both(first, second, by)
}
