// Messages: what each kind holds (001, Annex C, Appendices 2 and 3).

#![tactic(auto)]

ghost use Rattle.std.specs.Prelude.{◌≡◌};
ghost use Rattle.message.specs.Messages.{kind_of};

use kind::Kind;
use units::{AltSteps, LinkSteps};

// S.3, the IFF/SIF message: a mode is absent, or present with its code.
#[derive(Clone, Copy, Default)]
pub struct Iff {
    pub mode3a: Option<u16>,
    pub request: u8,
    pub emergency: bool,
    pub validation: bool,
    pub mode1: Option<u16>,
    pub mode2: Option<u16>,
}

// S.4, S.4+, S.8 and S.8+, the basic track data messages.
#[derive(Clone, Copy, Default)]
pub struct Track {
    pub number: u16,
    pub quality: u8,
    pub x: LinkSteps,
    pub y: LinkSteps,
}

// S.5, the amplifying track data message. Velocities are in 1/128 data mile a second; the special-use fields are named by their lowest bit.
#[derive(Clone, Copy, Default)]
pub struct Amplifying {
    pub altitude: AltSteps,
    pub strength: u8,
    pub identification: u8,
    pub special23: u8,
    pub simulated: bool,
    pub drop: bool,
    pub traffic: u8,
    pub vx: i16,
    pub allocation: u8,
    pub special39: u8,
    pub vy: i16,
}

// S.6, the strobe data message. The azimuth is in 1/4096 of a turn, the age in seconds.
#[derive(Clone, Copy, Default)]
pub struct Strobe {
    pub acquisition: bool,
    pub width: u8,
    pub strobe_type: u8,
    pub simulated: bool,
    pub azimuth: u16,
    pub site: u8,
    pub sensor: u8,
    pub number: u8,
    pub elevation: u8,
    pub age: u8,
}

// S.9, the area corner point message: an area of the site and a corner of the area, each counted from 0.
#[derive(Clone, Copy, Default)]
pub struct Corner {
    pub area: u8,
    pub site: u8,
    pub number: u8,
    pub drop: bool,
    pub x: LinkSteps,
    pub y: LinkSteps,
}

#[derive(Clone, Copy)]
pub enum Message {
    Blank,
    S0,
    S3(Iff),
    S4(Track),
    S4Plus(Track),
    S5(Amplifying),
    S6(Strobe),
    S8(Track),
    S8Plus(Track),
    S9(Corner),
}

// The kind of a message.
pub fn kind_of(m: Message) -> Kind
    ensures { result ≡ kind_of m }
{
    match m {
        Message::Blank => Kind::Blank,
        Message::S0 => Kind::S0,
        Message::S3(_) => Kind::S3,
        Message::S4(_) => Kind::S4,
        Message::S4Plus(_) => Kind::S4Plus,
        Message::S5(_) => Kind::S5,
        Message::S6(_) => Kind::S6,
        Message::S8(_) => Kind::S8,
        Message::S8Plus(_) => Kind::S8Plus,
        Message::S9(_) => Kind::S9,
    }
}
