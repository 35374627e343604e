// Messages as a kind's word, and a word and a number for each field.

#![tactic(auto)]

ghost use Rattle.std.specs.Prelude.{◌≡◌, OnOk};
ghost use Rattle.parts.specs.Parts.{parts_left, behind};

use kind::{KINDS, Kind};
use message::{Amplifying, Corner, Iff, Message, Strobe, Track};
use parts::{NotUnderstood, Parts, show};
use std::fmt::Display;
use std::io;
use std::io::Write;

// A kind and its word.
#[derive(Clone, Copy)]
struct Word(Kind, &'static str);

// The words in the order of the kinds' numbers.
const WORDS: [Word; KINDS] = [
    Word(Kind::Blank, "Blank"),
    Word(Kind::S0, "S0"),
    Word(Kind::S3, "S3"),
    Word(Kind::S4, "S4"),
    Word(Kind::S4Plus, "S4+"),
    Word(Kind::S5, "S5"),
    Word(Kind::S6, "S6"),
    Word(Kind::S8, "S8"),
    Word(Kind::S8Plus, "S8+"),
    Word(Kind::S9, "S9"),
];

// The word of a kind.
fn word_of(kind: Kind) -> Word
    ensures { result.0 ≡ kind }
{
    WORDS[kind::number(kind)]
}

// ---- the fields of each message, by their words

// What goes over a message's fields, one after another: it takes them from a line's parts, or tells them.
trait Fields {
    type Error: Drop;

    fn number<T: TryFrom<i64> + Display + Drop>(
        &mut self,
        word: &str,
        n: &mut T,
    ) -> Result<(), Self::Error>
    where
        T::Error: Drop;

    fn flag(&mut self, word: &str, yes: &mut bool) -> Result<(), Self::Error>;

    fn mode(&mut self, word: &str, code: &mut Option<u16>) -> Result<(), Self::Error>;
}

fn iff<F: Fields>(fields: &mut F, m: &mut Iff) -> Result<(), F::Error> {
    fields.mode("mode3a", &mut m.mode3a)?;
    fields.number("request", &mut m.request)?;
    fields.flag("emergency", &mut m.emergency)?;
    fields.flag("validation", &mut m.validation)?;
    fields.mode("mode1", &mut m.mode1)?;
    fields.mode("mode2", &mut m.mode2)
}

fn track<F: Fields>(fields: &mut F, m: &mut Track) -> Result<(), F::Error> {
    fields.number("number", &mut m.number)?;
    fields.number("quality", &mut m.quality)?;
    fields.number("x", &mut m.x.0)?;
    fields.number("y", &mut m.y.0)
}

fn amplifying<F: Fields>(fields: &mut F, m: &mut Amplifying) -> Result<(), F::Error> {
    fields.number("altitude", &mut m.altitude.0)?;
    fields.number("strength", &mut m.strength)?;
    fields.number("identification", &mut m.identification)?;
    fields.number("special23", &mut m.special23)?;
    fields.flag("simulated", &mut m.simulated)?;
    fields.flag("drop", &mut m.drop)?;
    fields.number("traffic", &mut m.traffic)?;
    fields.number("vx", &mut m.vx)?;
    fields.number("allocation", &mut m.allocation)?;
    fields.number("special39", &mut m.special39)?;
    fields.number("vy", &mut m.vy)
}

fn strobe<F: Fields>(fields: &mut F, m: &mut Strobe) -> Result<(), F::Error> {
    fields.flag("acquisition", &mut m.acquisition)?;
    fields.number("width", &mut m.width)?;
    fields.number("strobe_type", &mut m.strobe_type)?;
    fields.flag("simulated", &mut m.simulated)?;
    fields.number("azimuth", &mut m.azimuth)?;
    fields.number("site", &mut m.site)?;
    fields.number("sensor", &mut m.sensor)?;
    fields.number("number", &mut m.number)?;
    fields.number("elevation", &mut m.elevation)?;
    fields.number("age", &mut m.age)
}

fn corner<F: Fields>(fields: &mut F, m: &mut Corner) -> Result<(), F::Error> {
    fields.number("area", &mut m.area)?;
    fields.number("site", &mut m.site)?;
    fields.number("number", &mut m.number)?;
    fields.flag("drop", &mut m.drop)?;
    fields.number("x", &mut m.x.0)?;
    fields.number("y", &mut m.y.0)
}

// Goes over the fields of a message.
fn fields_of<F: Fields>(fields: &mut F, message: &mut Message) -> Result<(), F::Error> {
    match message {
        Message::Blank | Message::S0 => Ok(()),
        Message::S3(m) => iff(fields, m),
        Message::S4(m) | Message::S4Plus(m) | Message::S8(m) | Message::S8Plus(m) => track(
            fields, m,
        ),
        Message::S5(m) => amplifying(fields, m),
        Message::S6(m) => strobe(fields, m),
        Message::S9(m) => corner(fields, m),
    }
}

// ---- taken from a line's parts

// Behind a field's word stands what the methods of `Parts` take.
impl<'a> Fields for Parts<'a> {
    type Error = NotUnderstood;

    fn number<T: TryFrom<i64> + Display + Drop>(
        &mut self,
        word: &str,
        n: &mut T,
    ) -> Result<(), NotUnderstood>
    where
        T::Error: Drop,
    {
        self.word(word.as_bytes())?;
        *n = self.number()?;
        Ok(())
    }

    fn flag(&mut self, word: &str, yes: &mut bool) -> Result<(), NotUnderstood> {
        self.word(word.as_bytes())?;
        *yes = self.flag()?;
        Ok(())
    }

    fn mode(&mut self, word: &str, code: &mut Option<u16>) -> Result<(), NotUnderstood> {
        self.word(word.as_bytes())?;
        *code = self.number_or(b"absent")?;
        Ok(())
    }
}

// A message of a kind, whose fields are all to come.
fn empty(kind: Kind) -> Message {
    match kind {
        Kind::Blank => Message::Blank,
        Kind::S0 => Message::S0,
        Kind::S3 => Message::S3(Iff::default()),
        Kind::S4 => Message::S4(Track::default()),
        Kind::S4Plus => Message::S4Plus(Track::default()),
        Kind::S5 => Message::S5(Amplifying::default()),
        Kind::S6 => Message::S6(Strobe::default()),
        Kind::S8 => Message::S8(Track::default()),
        Kind::S8Plus => Message::S8Plus(Track::default()),
        Kind::S9 => Message::S9(Corner::default()),
    }
}

// Takes a kind's word.
pub fn take_kind(parts: &mut Parts) -> Result<Kind, NotUnderstood>
    ensures { OnOk result (parts_left parts.new ≡ behind (parts_left parts.old)) }
{
    let part = parts.part()?;
    let Word(kind, _) = WORDS
        .iter()
        .find(|word| word.1.as_bytes() == part)
        .ok_or(NotUnderstood)?;
    Ok(*kind)
}

// Takes the parts that a message is.
pub fn take(parts: &mut Parts) -> Result<Message, NotUnderstood> {
    let mut message = empty(take_kind(parts)?);
    fields_of(parts, &mut message)?;
    Ok(message)
}

// ---- told

// Where a message is told.
#[derive(Drop)]
struct Told<'a, W> {
    out: &'a mut W,
}

impl<'a, W: Write> Fields for Told<'a, W> {
    type Error = io::Error;

    fn number<T: TryFrom<i64> + Display + Drop>(&mut self, word: &str, n: &mut T) -> io::Result<()>
    where
        T::Error: Drop,
    {
        write!(self.out, " {word} {n}")
    }

    fn flag(&mut self, word: &str, yes: &mut bool) -> io::Result<()> {
        write!(self.out, " {word} {}", u8::from(*yes))
    }

    fn mode(&mut self, word: &str, code: &mut Option<u16>) -> io::Result<()> {
        match code {
            Some(n) => write!(self.out, " {word} {n}"),
            None => write!(self.out, " {word} absent"),
        }
    }
}

// A kind's word, and the fields behind it.
pub fn tell<W: Write>(out: &mut W, m: Message) -> io::Result<()> {
    tell_kind(out, message::kind_of(m))?;
    let mut same = m;
    fields_of(&mut Told { out }, &mut same)
}

// A kind's word.
pub fn tell_kind<W: Write>(out: &mut W, kind: Kind) -> io::Result<()> {
    let Word(_, word) = word_of(kind);
    show::text(out, word.as_bytes())
}
