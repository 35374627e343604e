// A word of 49 bits to a message, field by field (001, Annex C, Appendices 2 and 3).

#![tactic(auto)]

ghost use Rattle.std.specs.Prelude.{◌≡◌, ◌<◌, eqb};
ghost use Rattle.layout.specs.Layout.{split};
ghost use Rattle.bits.specs.Twos.{signed_of};
ghost use Rattle.kind.specs.Layouts.{iff_layout, track_layout, amplifying_layout, strobe_layout, corner_layout};
ghost use Rattle.message.specs.Messages.{mode_of, iff_from, track_from, amplifying_from, strobe_from, corner_from};
ghost use Rattle.message.specs.Codec.{message_in, content_of};

use kind::Kind;
use message::{Amplifying, Corner, Iff, Message, Strobe, Track};
use refusal::Refusal;
use units::{AltSteps, LinkSteps};

// The code of an absent mode is not looked at.
fn read_mode(present: u64, code: u64) -> Option<u16>
    requires { code < 65536 }
    ensures { result ≡ mode_of (eqb present 1) code }
{
    if present == 1 {
        Some(code as u16)
    } else {
        None
    }
}

fn read_iff(word: u64) -> Iff
    ensures { result ≡ iff_from (split 6 iff_layout word) }
{
    Iff {
        mode3a: read_mode(bits::field(word, 26, 1), bits::field(word, 8, 12)),
        request: bits::field(word, 20, 3) as u8,
        emergency: bits::field(word, 23, 1) == 1,
        validation: bits::field(word, 27, 1) == 1,
        mode1: read_mode(bits::field(word, 24, 1), bits::field(word, 30, 5)),
        mode2: read_mode(bits::field(word, 25, 1), bits::field(word, 37, 12)),
    }
}

fn steps(n: u64) -> LinkSteps
    requires { n < 8192 }
    ensures { result ≡ record { 0 = signed_of 4096 n } }
{
    LinkSteps(bits::signed(n, 4096))
}

fn read_track(word: u64) -> Track
    ensures { result ≡ track_from (split 6 track_layout word) }
{
    Track {
        number: bits::field(word, 6, 15) as u16,
        quality: bits::field(word, 21, 2) as u8,
        x: steps(bits::field(word, 23, 13)),
        y: steps(bits::field(word, 36, 13)),
    }
}

fn altitude(n: u64) -> AltSteps
    requires { n < 512 }
    ensures { result ≡ record { 0 = n } }
{
    AltSteps(n as u16)
}

fn read_amplifying(word: u64) -> Amplifying
    ensures { result ≡ amplifying_from (split 6 amplifying_layout word) }
{
    Amplifying {
        altitude: altitude(bits::field(word, 6, 9)),
        strength: bits::field(word, 15, 3) as u8,
        identification: bits::field(word, 18, 4) as u8,
        special23: bits::field(word, 22, 2) as u8,
        simulated: bits::field(word, 24, 1) == 1,
        drop: bits::field(word, 25, 1) == 1,
        traffic: bits::field(word, 26, 2) as u8,
        vx: bits::signed(bits::field(word, 28, 8), 128),
        allocation: bits::field(word, 36, 2) as u8,
        special39: bits::field(word, 38, 3) as u8,
        vy: bits::signed(bits::field(word, 41, 8), 128),
    }
}

fn read_strobe(word: u64) -> Strobe
    ensures { result ≡ strobe_from (split 6 strobe_layout word) }
{
    Strobe {
        acquisition: bits::field(word, 6, 1) == 1,
        width: bits::field(word, 7, 3) as u8,
        strobe_type: bits::field(word, 10, 2) as u8,
        simulated: bits::field(word, 12, 1) == 1,
        azimuth: bits::field(word, 13, 12) as u16,
        site: bits::field(word, 25, 6) as u8,
        sensor: bits::field(word, 31, 3) as u8,
        number: bits::field(word, 34, 5) as u8,
        elevation: bits::field(word, 39, 4) as u8,
        age: bits::field(word, 43, 6) as u8,
    }
}

fn read_corner(word: u64) -> Corner
    ensures { result ≡ corner_from (split 6 corner_layout word) }
{
    Corner {
        area: bits::field(word, 6, 2) as u8,
        site: bits::field(word, 10, 6) as u8,
        number: bits::field(word, 16, 2) as u8,
        drop: bits::field(word, 18, 1) == 1,
        x: steps(bits::field(word, 23, 13)),
        y: steps(bits::field(word, 36, 13)),
    }
}

// The message that a word of the kind holds.
fn read_message(k: Kind, word: u64) -> Message
    ensures { result ≡ message_in k word }
{
    match k {
        Kind::Blank => Message::Blank,
        Kind::S0 => Message::S0,
        Kind::S3 => Message::S3(read_iff(word)),
        Kind::S4 => Message::S4(read_track(word)),
        Kind::S4Plus => Message::S4Plus(read_track(word)),
        Kind::S5 => Message::S5(read_amplifying(word)),
        Kind::S6 => Message::S6(read_strobe(word)),
        Kind::S8 => Message::S8(read_track(word)),
        Kind::S8Plus => Message::S8Plus(read_track(word)),
        Kind::S9 => Message::S9(read_corner(word)),
    }
}

// The message that a word of a known kind holds, as message `place` of a frame: 12, 13, 14.
pub fn read_content(place: u8, k: Kind, word: u64) -> Result<Message, Refusal>
    ensures { result ≡ content_of place k word }
{
    tables::find_trouble(k, word).map_err(|trouble| refusal::refuse(place, trouble))?;
    Ok(read_message(k, word))
}
