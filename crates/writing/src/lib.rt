// A message to its word of 49 bits: the numbers of its fields, in the order of its layout, and the word that they are packed to.

#![tactic(auto)]

ghost use Rattle.std.specs.Prelude.{◌≡◌, ◌≤◌, length};
ghost use Rattle.bits.specs.Numbers.{bit};
ghost use Rattle.layout.specs.Layout.{write_as, signed};
ghost use Rattle.layout.specs.Rules.{raw_of, slots_of, packed_if, packed_of};
ghost use Rattle.kind.specs.Layouts.{iff_layout, track_layout, amplifying_layout, strobe_layout, corner_layout, label_of, layout_of};
ghost use Rattle.message.specs.Messages.{presence_of, code_of, iff_parts, track_parts, amplifying_parts, strobe_parts, corner_parts};
ghost use Rattle.message.specs.Codec.{message_trouble, message_word, encoded_of};

use kind::Kind;
use layout::Trouble;
use message::{Amplifying, Corner, Iff, Message, Strobe, Track};
use refusal::Refusal;

// The bits of a signed field of so many bits beside its sign.
fn signed<const K: u32>(z: i16) -> u64
    requires { K ≤ 15 }
    ensures { result ≡ write_as (signed K) z }
{
    bits::signed_bits(z, 1 << K)
}

fn presence(m: Option<u16>) -> u64
    ensures { result ≡ bit (presence_of m) }
{
    u64::from(m.is_some())
}

// The code of an absent mode is zeros, whatever digits came.
fn code(m: Option<u16>) -> u64
    ensures { result ≡ code_of m }
{
    u64::from(m.unwrap_or(0))
}

fn write_iff(i: Iff) -> [u64; 12]
    ensures { result ≡ raw_of iff_layout (iff_parts i) }
{
    [
        0,
        code(i.mode3a),
        u64::from(i.request),
        u64::from(i.emergency),
        presence(i.mode1),
        presence(i.mode2),
        presence(i.mode3a),
        u64::from(i.validation),
        0,
        code(i.mode1),
        0,
        code(i.mode2),
    ]
}

fn write_track(t: Track) -> [u64; 4]
    ensures { result ≡ raw_of track_layout (track_parts t) }
{
    [
        u64::from(t.number),
        u64::from(t.quality),
        signed::<12>(t.x.0),
        signed::<12>(t.y.0),
    ]
}

fn write_amplifying(a: Amplifying) -> [u64; 11]
    ensures { result ≡ raw_of amplifying_layout (amplifying_parts a) }
{
    [
        u64::from(a.altitude.0),
        u64::from(a.strength),
        u64::from(a.identification),
        u64::from(a.special23),
        u64::from(a.simulated),
        u64::from(a.drop),
        u64::from(a.traffic),
        signed::<7>(a.vx),
        u64::from(a.allocation),
        u64::from(a.special39),
        signed::<7>(a.vy),
    ]
}

fn write_strobe(s: Strobe) -> [u64; 10]
    ensures { result ≡ raw_of strobe_layout (strobe_parts s) }
{
    [
        u64::from(s.acquisition),
        u64::from(s.width),
        u64::from(s.strobe_type),
        u64::from(s.simulated),
        u64::from(s.azimuth),
        u64::from(s.site),
        u64::from(s.sensor),
        u64::from(s.number),
        u64::from(s.elevation),
        u64::from(s.age),
    ]
}

fn write_corner(c: Corner) -> [u64; 8]
    ensures { result ≡ raw_of corner_layout (corner_parts c) }
{
    [
        u64::from(c.area),
        0,
        u64::from(c.site),
        u64::from(c.number),
        u64::from(c.drop),
        0,
        signed::<12>(c.x.0),
        signed::<12>(c.y.0),
    ]
}

// The values of a kind's fields packed above its label, by its layout.
fn pack_as(k: Kind, values: &[u64]) -> Result<u64, Trouble>
    requires { length (layout_of k) ≡ length values.now }
    ensures { result ≡ packed_of (label_of k) 6 (slots_of (layout_of k)) values.now }
{
    layout::pack(u64::from(kind::label(k)), 6, tables::layout(k), values)
}

// The values of a message, with the patterns of Blank and S.0, packed.
fn pack(m: Message) -> Result<u64, Trouble>
    ensures { result ≡ packed_if (message_trouble m) (message_word m) }
{
    match m {
        Message::Blank => pack_as(Kind::Blank, &[0]),
        Message::S0 => pack_as(Kind::S0, &[0, 46, 46, 46, 46, 46, 46]),
        Message::S3(i) => pack_as(Kind::S3, &write_iff(i)),
        Message::S4(t) => pack_as(Kind::S4, &write_track(t)),
        Message::S4Plus(t) => pack_as(Kind::S4Plus, &write_track(t)),
        Message::S5(a) => pack_as(Kind::S5, &write_amplifying(a)),
        Message::S6(s) => pack_as(Kind::S6, &write_strobe(s)),
        Message::S8(t) => pack_as(Kind::S8, &write_track(t)),
        Message::S8Plus(t) => pack_as(Kind::S8Plus, &write_track(t)),
        Message::S9(c) => pack_as(Kind::S9, &write_corner(c)),
    }
}

// The word of a message, as message `place` of a frame: 14, 15.
pub fn encode(place: u8, m: Message) -> Result<u64, Refusal>
    ensures { result ≡ encoded_of place m }
{
    pack(m).map_err(|trouble| refusal::refuse(place, trouble))
}
