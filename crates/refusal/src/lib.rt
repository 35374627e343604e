// The numbers a caller may get back, each by its name (01, 'Numbers a caller may get back'; 02, items 4 and 6). 8 and 11 are no longer
// given.

#![tactic(auto)]

ghost use Rattle.std.specs.Prelude.{◌≡◌, Some};
ghost use Rattle.refusal.specs.Refusals.{numbered, numbered_at, numbered_in, cause_number, inside_at, refusal_text};
ghost use Rattle.refusal.specs.Checks as checks;

use layout::{Cause, Trouble};
use std::error::Error;
use std::fmt;

pub const SUCCESS: u8 = 0;

pub const BAD_LEVEL: u8 = 1;

pub const BAD_LENGTH: u8 = 2;

pub const BAD_START: u8 = 3;

pub const BAD_MARK: u8 = 4;

pub const BAD_CHECK: u8 = 5;

pub const UNKNOWN_LABEL: u8 = 6;

pub const BAD_PAIR: u8 = 7;

pub const OUT_OF_RANGE: u8 = 9;

pub const NO_FRAME: u8 = 10;

// What is wrong inside a message.
pub const BAD_PATTERN: u8 = 12;

pub const SPARE_BIT: u8 = 13;

pub const UNUSED_CODE: u8 = 14;

pub const TOO_WIDE: u8 = 15;

// The number; the message or axis that it is about, 1 or 2, of a relay's second message 3 or 4 for its axes, else 0; and of what is wrong
// inside a message the bit where it begins, else 0. Success is 0 with place and bit 0.
#[derive(Clone, Copy, Debug, PartialEq, Eq)]
pub struct Refusal {
    pub number: u8,
    pub place: u8,
    pub bit: u8,
}

impl Refusal {
    // The number, about the whole input.
    pub fn of(number: u8) -> Refusal
        ensures { result ≡ numbered number }
    {
        Refusal::at(number, 0)
    }

    // The number, about one message or axis.
    pub fn at(number: u8, place: u8) -> Refusal
        ensures { result ≡ numbered_at number place }
    {
        Refusal::inside(number, place, 0)
    }

    // The number of what is wrong inside a message, and the bit where it begins.
    pub fn inside(number: u8, place: u8, bit: u8) -> Refusal
        ensures { result ≡ numbered_in number place bit }
    {
        Refusal { number, place, bit }
    }
}

// The three numbers, as an error prints.
impl fmt::Display for Refusal {
    ghost output = { λ r. Some (refusal_text r) };

    fn fmt<W: fmt::Write>(&self, f: &mut fmt::Formatter<W>) -> fmt::Result {
        write!(f, "{} {} {}", self.number, self.place, self.bit)
    }
}

impl Error for Refusal {}

fn number_of(cause: Cause) -> u8
    ensures { result ≡ cause_number cause }
{
    match cause {
        Cause::Pattern => BAD_PATTERN,
        Cause::Spare => SPARE_BIT,
        Cause::Unused => UNUSED_CODE,
        Cause::TooWide => TOO_WIDE,
    }
}

// What is wrong inside message 1 or 2, by its cause.
pub fn refuse(place: u8, trouble: Trouble) -> Refusal
    ensures { result ≡ inside_at place trouble.cause trouble.bit }
{
    Refusal::inside(number_of(trouble.cause), place, trouble.bit)
}

// An answer as a number, a place and a bit: a success is number, place and bit 0.
pub fn refusal_in<T: Copy>(answer: Result<T, Refusal>) -> Refusal
    ensures { result ≡ checks.refusal_in answer }
{
    match answer {
        Ok(_) => Refusal::of(SUCCESS),
        Err(refusal) => refusal,
    }
}
