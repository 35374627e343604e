// The calls of the public list; those of the receivers and the sender stand in `line_calls`. Each takes its arguments from what is left of
// a line, all of them before it tells anything, and tells its whole answer.

use link1::{Feet, OctetReceiver, Receiver, Refusal, refusal_in};
use parts::{Answered, Parts, Unanswered, show};
use std::fmt::Display;
use std::io;
use std::io::Write;

// The refusal of an answer, and behind a success its number.
fn tell_number<W: Write, N: Display + Copy + Drop>(
    out: &mut W,
    answer: Result<N, Refusal>,
) -> io::Result<()> {
    show::first(out, refusal_in(answer))?;
    match answer {
        Ok(n) => show::number(out, n),
        Err(_) => Ok(()),
    }
}

// ---- octets alone

// verdict IMAGE
fn verdict<W: Write>(out: &mut W, given: Parts, space: &mut [u8]) -> Answered {
    let image = given.octets(space)?;
    Ok(show::first(out, refusal_in(link1::verdict(image)))?)
}

// open IMAGE
fn open<W: Write>(out: &mut W, given: Parts, space: &mut [u8]) -> Answered {
    let opened = link1::open(given.octets(space)?);
    show::first(out, refusal_in(opened))?;
    if let Ok((first, second)) = opened {
        show::text(out, b" ")?;
        message_words::tell(out, first)?;
        show::text(out, b" ")?;
        message_words::tell(out, second)?;
    }
    Ok(())
}

// track_number TEXT
fn track_number<W: Write>(out: &mut W, given: Parts, space: &mut [u8]) -> Answered {
    let text = given.octets(space)?;
    Ok(tell_number(out, link1::track_number(text))?)
}

// ---- numbers, then octets

// search START CAPTURE
fn search<W: Write>(out: &mut W, mut given: Parts, space: &mut [u8]) -> Answered {
    let start = given.up_to(0x100_0000_0000)?;
    let capture = given.octets(space)?;
    Ok(tell_number(out, link1::search(capture, start))?)
}

// track_text NUMBER BUFFER
fn track_text<W: Write>(out: &mut W, mut given: Parts, space: &mut [u8]) -> Answered {
    let number = given.number()?;
    let buffer = given.octets(space)?;
    show::first(out, refusal_in(link1::track_text(number, buffer)))?;
    Ok(show::plain(out, buffer)?)
}

// relay LENGTH by X .. and Y .. of IMAGE: a buffer of so many octets, each 5, is lent.
fn relay<W: Write>(out: &mut W, mut given: Parts, space: &mut [u8]) -> Answered {
    let mut xs = [0; 16];
    let mut ys = [0; 16];
    let length = given.up_to(256)?;
    let xs = given.list(b"by", b"and", &mut xs)?;
    let ys = given.list(b"and", b"of", &mut ys)?;
    given.word(b"of")?;
    let image = given.octets(space)?;
    let mut lent = [5u8; 256];
    let buffer = &mut lent[..length];
    show::first(out, refusal_in(link1::relay(image, xs, ys, buffer)))?;
    Ok(show::octets(out, buffer)?)
}

// ---- numbers alone

// altitude FEET
fn altitude<W: Write>(out: &mut W, mut given: Parts) -> Answered {
    let feet = given.number()?;
    given.end()?;
    Ok(tell_number(out, link1::altitude(Feet(feet)).map(|steps| steps.0))?)
}

// kind_named LABEL
fn kind_named<W: Write>(out: &mut W, mut given: Parts) -> Answered {
    let label = given.number()?;
    given.end()?;
    let named = link1::kind_named(label);
    show::first(out, refusal_in(named))?;
    if let Ok(kind) = named {
        show::text(out, b" ")?;
        message_words::tell_kind(out, kind)?;
    }
    Ok(())
}

// refusal_of NUMBER
fn refusal_of<W: Write>(out: &mut W, mut given: Parts) -> Answered {
    let number = given.number()?;
    given.end()?;
    Ok(show::first(out, Refusal::of(number))?)
}

// refusal_at NUMBER PLACE
fn refusal_at<W: Write>(out: &mut W, mut given: Parts) -> Answered {
    let number = given.number()?;
    let place = given.number()?;
    given.end()?;
    Ok(show::first(out, Refusal::at(number, place))?)
}

// refusal_inside NUMBER PLACE BIT
fn refusal_inside<W: Write>(out: &mut W, mut given: Parts) -> Answered {
    let number = given.number()?;
    let place = given.number()?;
    let bit = given.number()?;
    given.end()?;
    Ok(show::first(out, Refusal::inside(number, place, bit))?)
}

// The numbers that a caller may get back beside success, in the order of 01's table as 02 amends it.
const REFUSED: [u8; 13] = [
    link1::BAD_LEVEL,
    link1::BAD_LENGTH,
    link1::BAD_START,
    link1::BAD_MARK,
    link1::BAD_CHECK,
    link1::UNKNOWN_LABEL,
    link1::BAD_PAIR,
    link1::OUT_OF_RANGE,
    link1::NO_FRAME,
    link1::BAD_PATTERN,
    link1::SPARE_BIT,
    link1::UNUSED_CODE,
    link1::TOO_WIDE,
];

// numbers: success, and those.
fn tell_numbers<W: Write>(out: &mut W, given: Parts) -> Answered {
    given.end()?;
    show::first(out, link1::SUCCESS)?;
    for number in REFUSED {
        show::number(out, number)?;
    }
    Ok(())
}

// ---- messages

// close MESSAGE MESSAGE BUFFER
fn close<W: Write>(out: &mut W, mut given: Parts, space: &mut [u8]) -> Answered {
    let first = message_words::take(&mut given)?;
    let second = message_words::take(&mut given)?;
    let buffer = given.octets(space)?;
    show::first(out, refusal_in(link1::close(first, second, buffer)))?;
    Ok(show::octets(out, buffer)?)
}

// kind_of MESSAGE
fn kind_of<W: Write>(out: &mut W, mut given: Parts) -> Answered {
    let message = message_words::take(&mut given)?;
    given.end()?;
    Ok(message_words::tell_kind(out, link1::kind_of(message))?)
}

// label KIND
fn label<W: Write>(out: &mut W, mut given: Parts) -> Answered {
    let kind = message_words::take_kind(&mut given)?;
    given.end()?;
    Ok(show::first(out, link1::label(kind))?)
}

// The call that a line's first part names, and its answer.
pub fn call<W: Write>(out: &mut W, line: &[u8], space: &mut [u8]) -> Answered {
    let mut given = Parts::of(line);
    match given.part()? {
        b"verdict" => verdict(out, given, space),
        b"open" => open(out, given, space),
        b"hear" => line_calls::hear::<W, Receiver>(out, given, space),
        b"track_number" => track_number(out, given, space),
        b"search" => search(out, given, space),
        b"track_text" => track_text(out, given, space),
        b"send" => line_calls::send(out, given, space),
        b"resume" => line_calls::resume(out, given, space),
        b"close" => close(out, given, space),
        b"relay" => relay(out, given, space),
        b"kind_of" => kind_of(out, given),
        b"label" => label(out, given),
        b"kind_named" => kind_named(out, given),
        b"altitude" => altitude(out, given),
        b"refusal_of" => refusal_of(out, given),
        b"refusal_at" => refusal_at(out, given),
        b"refusal_inside" => refusal_inside(out, given),
        b"numbers" => tell_numbers(out, given),
        b"hear_octets" => line_calls::hear::<W, OctetReceiver>(out, given, space),
        b"resume_octets" => line_calls::resume_octets(out, given, space),
        b"wrong_levels" => line_calls::wrong_levels(out, given, space),
        _ => Err(Unanswered::NotUnderstood),
    }
}
