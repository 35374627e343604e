// Where a message says that its track or corner is, and the same message elsewhere.

#![tactic(auto)]

ghost use Rattle.std.specs.Prelude.{◌≡◌};
ghost use Rattle.position.specs.Positions.{position_of, placed_track, placed_corner, placed_at};

use message::{Corner, Message, Track};
use units::LinkSteps;

#[derive(Clone, Copy)]
pub struct Position {
    pub x: LinkSteps,
    pub y: LinkSteps,
}

// Only tracks and corners have a position.
pub fn find_position(m: Message) -> Option<Position>
    ensures { result ≡ position_of m }
{
    match m {
        Message::S4(t) | Message::S4Plus(t) | Message::S8(t) | Message::S8Plus(t) => Some(Position {
            x: t.x,
            y: t.y,
        }),
        Message::S9(c) => Some(Position { x: c.x, y: c.y }),
        Message::Blank | Message::S0 | Message::S3(_) | Message::S5(_) | Message::S6(_) => None,
    }
}

// The same track elsewhere.
fn place_track(t: Track, to: Position) -> Track
    ensures { result ≡ placed_track t to.x.0 to.y.0 }
{
    Track {
        x: to.x,
        y: to.y,
        ..t
    }
}

// The same corner elsewhere.
fn place_corner(c: Corner, to: Position) -> Corner
    ensures { result ≡ placed_corner c to.x.0 to.y.0 }
{
    Corner {
        x: to.x,
        y: to.y,
        ..c
    }
}

// The same message elsewhere.
pub fn place(m: Message, to: Position) -> Message
    ensures { result ≡ placed_at m to.x.0 to.y.0 }
{
    match m {
        Message::S4(t) => Message::S4(place_track(t, to)),
        Message::S4Plus(t) => Message::S4Plus(place_track(t, to)),
        Message::S8(t) => Message::S8(place_track(t, to)),
        Message::S8Plus(t) => Message::S8Plus(place_track(t, to)),
        Message::S9(c) => Message::S9(place_corner(c, to)),
        Message::Blank | Message::S0 | Message::S3(_) | Message::S5(_) | Message::S6(_) => m,
    }
}
