// The shift of a message that has a position, by lists of offsets in feet; one without a position passes through. The feet are added
// exactly and rounded once, at the end.

#![tactic(auto)]

ghost use Rattle.std.specs.Prelude.{◌≡◌};
ghost use Rattle.shift.specs.Shift.{sums_of, shifted_of};

use message::Message;
use position::Position;
use refusal::Refusal;
use units::Feet;

// How far on X and on Y.
#[derive(Clone, Copy)]
pub struct Offset {
    pub x: Feet,
    pub y: Feet,
}

// The sums of both lists: 2 X, 2 Y, 9 on X offsets, 9 on Y offsets.
pub fn add_both(xs: &[i32], ys: &[i32]) -> Result<Offset, Refusal>
    ensures { result ≡ sums_of xs.now ys.now }
{
    if 8 < xs.len() {
        return Err(Refusal::at(refusal::BAD_LENGTH, 1));
    }
    if 8 < ys.len() {
        return Err(Refusal::at(refusal::BAD_LENGTH, 2));
    }
    let x = units::add_up(xs).ok_or(Refusal::at(refusal::OUT_OF_RANGE, 1))?;
    let y = units::add_up(ys).ok_or(Refusal::at(refusal::OUT_OF_RANGE, 2))?;
    Ok(Offset { x, y })
}

// A message without a position passes through. A result out of range is refused 9, at place px on X and py on Y.
pub fn shift(m: Message, by: Offset, px: u8, py: u8) -> Result<Message, Refusal>
    ensures { result ≡ shifted_of m by.x.0 by.y.0 px py }
{
    let Some(from) = position::find_position(m) else {
        return Ok(m);
    };
    let x = units::move_step(from.x, by.x).ok_or(Refusal::at(refusal::OUT_OF_RANGE, px))?;
    let y = units::move_step(from.y, by.y).ok_or(Refusal::at(refusal::OUT_OF_RANGE, py))?;
    Ok(position::place(m, Position { x, y }))
}
