// The calls of the two receivers and of the sender, and `wrong_levels`, which makes several of them. Each takes its arguments from what is
// left of a line, all of them before it tells anything, and tells its whole answer.

#![tactic(auto)]

ghost use Rattle.std.specs.Prelude.{ℕ, ◌≡◌, IfOk};
ghost use Rattle.line.specs.Machine.{fresh_of, heard_of};
ghost use Rattle.octets.specs.Feeding.{fresh_octets, heard_octet};

use line::{Receiver, Window};
use octets::OctetReceiver;
use parts::{Answered, NotUnderstood, Parts, show};
use refusal::{Refusal, refusal_in};
use std::io;
use std::io::Write;

// ---- the receivers

// The octets where no frame is handed over.
const NO_OCTETS: [u8; 16] = [0; 16];

// The sixteen octets of a window, in two pieces: each piece is a write of its own.
fn tell_window<W: Write>(out: &mut W, window: Window) -> io::Result<()> {
    write!(out, "{:016x}{:016x}", window.older, window.newer)
}

// A receiver that is fed octets, each a level or eight bits.
pub trait Fed: Copy {
    // The receiver with which a run begins.
    ghost fresh: { Self };

    // The receiver that goes on after an octet.
    ghost fed: { Self → ℕ → Self };

    // As after an idle line.
    fn begin() -> Self
        ensures { result ≡ fresh };

    // Takes octet i of the run, from 1, tells the answer if it says anything, and gives the receiver to go on with.
    fn tell_step<W: Write>(self, out: &mut W, i: usize, octet: u8) -> io::Result<Self>
        ensures { IfOk result (λ next. next ≡ fed self octet) };

    fn tell_state<W: Write>(self, out: &mut W) -> io::Result<()>;
}

impl Fed for Receiver {
    ghost fresh = { fresh_of };

    ghost fed = { λ receiver level. (heard_of receiver level).receiver };

    fn begin() -> Receiver {
        Receiver::fresh()
    }

    // at I N P B F OCTETS: the level's number, the refusal, whether there is a frame, and the octets.
    fn tell_step<W: Write>(self, out: &mut W, i: usize, level: u8) -> io::Result<Receiver> {
        let heard = self.step(level);
        if heard.refusal != Refusal::of(refusal::SUCCESS)
            || heard.frame
            || heard.image != NO_OCTETS
        {
            write!(out, "at {i} {} {}", heard.refusal, u8::from(heard.frame))?;
            show::octets(out, &heard.image)?;
            show::text(out, b" ")?;
        }
        Ok(heard.receiver)
    }

    // state STARTED LAST OCTETS
    fn tell_state<W: Write>(self, out: &mut W) -> io::Result<()> {
        write!(out, "state {} {} x", u8::from(self.started), self.last)?;
        tell_window(out, self.window)
    }
}

impl Fed for OctetReceiver {
    ghost fresh = { fresh_octets };

    ghost fed = { λ receiver octet. (heard_octet receiver octet).receiver };

    fn begin() -> OctetReceiver {
        OctetReceiver::fresh()
    }

    // at I F J OCTETS: the octet's number, whether there is a frame, the bit at which it ended, and its octets.
    fn tell_step<W: Write>(self, out: &mut W, i: usize, octet: u8) -> io::Result<OctetReceiver> {
        let heard = self.step(octet);
        if heard.frame || heard.bit != 0 || heard.image != NO_OCTETS {
            write!(out, "at {i} {} {}", u8::from(heard.frame), heard.bit)?;
            show::octets(out, &heard.image)?;
            show::text(out, b" ")?;
        }
        Ok(heard.receiver)
    }

    // state OCTETS
    fn tell_state<W: Write>(self, out: &mut W) -> io::Result<()> {
        show::text(out, b"state x")?;
        tell_window(out, self.window)
    }
}

// Feeds a run of octets.
fn feed_all<W: Write, R: Fed>(out: &mut W, given: R, run: &[u8]) -> io::Result<R> {
    let mut receiver = given;
    for (i, octet) in run.iter().enumerate() {
        receiver = receiver.tell_step(out, i + 1, *octet)?;
    }
    Ok(receiver)
}

// Feeds a run of octets, and tells the state as well.
fn feed<W: Write, R: Fed>(out: &mut W, given: R, run: &[u8]) -> io::Result<()> {
    feed_all(out, given, run)?.tell_state(out)
}

// hear LEVELS, hear_octets OCTETS
pub fn hear<W: Write, R: Fed>(out: &mut W, given: Parts, space: &mut [u8]) -> Answered {
    let run = given.octets(space)?;
    Ok(feed(out, R::begin(), run)?)
}

// The window that the first sixteen octets are, and the octets behind.
fn window(octets: &[u8]) -> Option<(Window, &[u8])> {
    let (older, behind) = octets.split_first_chunk()?;
    let (newer, behind) = behind.split_first_chunk()?;
    let window = Window {
        older: u64::from_be_bytes(*older),
        newer: u64::from_be_bytes(*newer),
    };
    Some((window, behind))
}

// resume STARTED LAST WINDOW LEVELS
pub fn resume<W: Write>(out: &mut W, mut given: Parts, space: &mut [u8]) -> Answered {
    let started = given.flag()?;
    let last = given.number()?;
    let (window, levels) = window(given.octets(space)?).ok_or(NotUnderstood)?;
    let receiver = Receiver {
        started,
        last,
        window,
    };
    Ok(feed(out, receiver, levels)?)
}

// resume_octets WINDOW OCTETS
pub fn resume_octets<W: Write>(out: &mut W, given: Parts, space: &mut [u8]) -> Answered {
    let (window, run) = window(given.octets(space)?).ok_or(NotUnderstood)?;
    Ok(feed(out, OctetReceiver { window }, run)?)
}

// ---- the sender

// send PREVIOUS LENGTH IMAGE: a buffer of so many octets, each 5, is lent.
pub fn send<W: Write>(out: &mut W, mut given: Parts, space: &mut [u8]) -> Answered {
    let previous = given.number()?;
    let length = given.up_to(256)?;
    let image = given.octets(space)?;
    let mut buffer = [5u8; 256];
    let levels = &mut buffer[..length];
    show::first(out, refusal_in(sending::send(image, previous, levels)))?;
    Ok(show::levels(out, levels)?)
}

// The verdict on the last 128 bits that a fresh receiver decodes.
fn tell_verdict<W: Write>(out: &mut W, levels: &[u8]) -> io::Result<()> {
    let receiver = feed_all(out, Receiver::fresh(), levels)?;
    let verdict = frame::verdict(&line::image(receiver.window));
    show::first(out, refusal_in(verdict).number)
}

// That verdict with each level changed in turn.
fn tell_each<W: Write>(out: &mut W, levels: [u8; 129]) -> io::Result<()> {
    for i in 0..levels.len() {
        let mut changed = levels;
        changed[i] ^= 1;
        tell_verdict(out, &changed)?;
    }
    Ok(())
}

// wrong_levels PREVIOUS IMAGE: the refusal of sending, and where it is sent a digit for each of 129 levels, the one before the frame first.
pub fn wrong_levels<W: Write>(out: &mut W, mut given: Parts, space: &mut [u8]) -> Answered {
    let previous = given.number()?;
    let image = given.octets(space)?;
    let mut levels = [previous; 129];
    let sent = sending::send(image, previous, &mut levels[1..]);
    show::first(out, refusal_in(sent))?;
    if sent.is_ok() {
        show::text(out, b" ")?;
        tell_each(out, levels)?;
    }
    Ok(())
}
