// Texts that are put on a sheet, and what the programs share: reading their input and writing their output.

#![tactic(auto)]

ghost use Rattle.std.specs.Prelude.{◌≡◌, ◌≢◌, ◌+◌, ◌*◌, ◌≤◌, ◌<◌, length, take, Err, IfOk, OnOk, Some};
ghost use Rattle.std.specs.Io.KnownBytes.{Appends, Consumes, IsAtEnd};
ghost use Rattle.text.specs.Counts.{IsPrefixLen, count_of};
ghost use Rattle.text.specs.Failures.{failure_text};
ghost use Rattle.text.specs.Text.{dec_then, row};
ghost use Rattle.text.specs.declared.Failure.TheVariants.{Unread};

use itoa::Buffer;
use std::error::Error;
use std::fmt::{self, Display, Formatter};
use std::io::{Read, Write};

// A lent buffer, and how many octets at its front are written.
#[derive(Drop)]
pub struct Sheet<'a> {
    pub out: &'a mut [u8],
    pub written: usize,
    ghost within: { written ≤ length out.now },
}

impl<'a> Sheet<'a> {
    ghost use Rattle.text.specs.Adds.{Adds};

    // Puts text behind what is written.
    pub fn put(&mut self, text: &[u8])
        requires { self.old.written + length text.now ≤ length self.old.out.now }
        ensures { Adds self.old text.now self.new }
    {
        let next = self.written + text.len();
        self.out[self.written..next].copy_from_slice(text);
        self.written = next;
    }

    // Puts n's decimal digits and the octet then.
    pub fn put_number(&mut self, n: u64, then: u8)
        requires { self.old.written + 21 ≤ length self.old.out.now }
        ensures added { Adds self.old (dec_then n then) self.new }
        ensures upper_bound { self.new.written ≤ self.old.written + 21 }
    {
        let mut digits = Buffer::new();
        self.put(digits.format(n).as_bytes());
        self.put(&[then]);
    }

    // Puts a line of numbers: a space between two, a line end after the last.
    pub fn put_row(&mut self, numbers: &[u64])
        requires { (self.old.written + 21 * length numbers.now ≤ length self.old.out.now) × (0 < length numbers.now) }
        ensures added { Adds self.old (row numbers.now) self.new }
        ensures upper_bound { self.new.written ≤ self.old.written + 21 * length numbers.now }
    {
        let last = numbers.len() - 1;
        for number in &numbers[..last] {
            self.put_number(*number, b' ');
        }
        self.put_number(numbers[last], b'\n');
    }
}

// A read that failed, after so many octets.
#[derive(Clone, Copy, Debug)]
pub struct FailedRead {
    pub count: usize,
}

// Reads until the space is full, the input ends or a read fails, and answers how many octets were read.
pub fn read_all<R: Read>(from: &mut R, space: &mut [u8]) -> Result<usize, FailedRead>
    ensures prefix_len { IsPrefixLen (count_of result) space.new }
    ensures read { Consumes (R.remaining from.old) (R.remaining from.new) (take (count_of result) space.new) }
    ensures whole { IfOk result (λ count. count < length space.new → IsAtEnd (R.remaining from.new)) }
{
    let mut count: usize = 0;
    while count < space.len() {
        match from.read(&mut space[count..]) {
            Ok(0) => break,
            Ok(more) => count += more,
            Err(_) => return Err(FailedRead { count }),
        }
    }
    Ok(count)
}

// What went wrong with a program's input or output.
#[derive(Clone, Copy, Debug, PartialEq, Eq)]
pub enum Failure {
    Unread,
    Unwritten,
}

impl Display for Failure {
    ghost output = { λ failure. Some (failure_text failure) };

    fn fmt<W: fmt::Write>(&self, f: &mut Formatter<W>) -> fmt::Result {
        match self {
            Failure::Unread => write!(f, "standard input cannot be read"),
            Failure::Unwritten => write!(f, "standard output cannot be written"),
        }
    }
}

impl Error for Failure {}

impl From<FailedRead> for Failure {
    ghost from_gives = { λ _ failure. failure ≡ Unread };

    fn from(_: FailedRead) -> Failure {
        Self::Unread
    }
}

// Writes a whole text.
pub fn write<W: Write>(to: &mut W, text: &[u8]) -> Result<(), Failure>
    ensures whole { OnOk result (Appends (W.contents to.old) (W.contents to.new) text.now) }
    ensures not_read { result ≢ Err Unread }
{
    to.write_all(text).map_err(|_| Failure::Unwritten)
}

// Tells what went wrong on standard error, where the script that runs a program sees it.
pub fn tell(rt: &impl Eprint, outcome: Result<(), Failure>) {
    if let Err(failure) = outcome {
        let _ = rt.eprintln(failure);
    }
}
