// Replays a file of calls from standard input: line n of the output answers line n of the input. docs/CASES.md says how a line is written.

#![tactic(auto)]

mod calls;

use parts::{Answered, Unanswered, show};
use std::io;
use std::io::{Read, Write};

// A line as it comes, and how many octets of it have come; none where it is longer than is taken.
#[derive(Drop)]
struct Line<'a> {
    octets: &'a mut [u8],
    length: Option<usize>,
}

impl<'a> Line<'a> {
    // Puts an octet behind those that have come.
    fn put(&mut self, c: u8) -> Option<usize> {
        let k = self.length?;
        *self.octets.get_mut(k)? = c;
        Some(k.wrapping_add(1))
    }

    fn take(&mut self, c: u8) {
        self.length = self.put(c);
    }

    fn whole(&self) -> Option<&[u8]> {
        self.octets.get(..self.length?)
    }
}

// The line that comes, and where and by which space it is answered.
#[derive(Drop)]
struct Answers<'a, W> {
    out: &'a mut W,
    line: Line<'a>,
    space: &'a mut [u8],
}

impl<'a, W: Write> Answers<'a, W> {
    // An empty line and a note are answered by themselves.
    fn tell(&mut self) -> Answered {
        let Some(line) = self.line.whole() else {
            return Err(Unanswered::NotUnderstood);
        };
        match line.first() {
            None => Ok(()),
            Some(b'#') => Ok(show::text(self.out, line)?),
            Some(_) => calls::call(self.out, line, self.space),
        }
    }

    // Answers the line that has come, and begins the next.
    fn answer(&mut self) -> io::Result<()> {
        match self.tell() {
            Ok(()) => (),
            Err(Unanswered::NotUnderstood) => show::refuse(self.out)?,
            Err(Unanswered::Unwritten(error)) => return Err(error),
        }
        self.line.length = Some(0);
        show::text(self.out, b"\n")
    }

    // Takes what comes next of the input, and answers each line that it ends.
    fn feed(&mut self, chunk: &[u8]) -> io::Result<()> {
        for c in chunk {
            if *c == b'\n' {
                self.answer()?;
            } else {
                self.line.take(*c);
            }
        }
        Ok(())
    }

    // A last line that no line feed ends is answered too.
    fn close(&mut self) -> io::Result<()> {
        match self.line.length {
            Some(0) => Ok(()),
            _ => self.answer(),
        }
    }
}

// What comes next of the input, if anything does; where it cannot be read, that is told.
fn read_some<'a, R: Read>(rt: &impl Eprint, from: &mut R, chunk: &'a mut [u8]) -> Option<&'a [u8]> {
    match from.read(chunk) {
        Ok(0) => None,
        Ok(n) => Some(&chunk[..n]),
        Err(_) => {
            let _ = rt.eprintln("replay: the calls on standard input cannot be read");
            None
        }
    }
}

// Reads until the input ends. That the loop ends for any input is shown by counting the reads, more than a file of calls can need.
fn run<R: Read, W: Write>(
    rt: &impl Eprint,
    from: &mut R,
    answers: &mut Answers<W>,
) -> io::Result<()> {
    for _ in 0..u64::MAX {
        let mut chunk = [0u8; 4096];
        let Some(some) = read_some(rt, from, &mut chunk) else {
            return answers.close();
        };
        answers.feed(some)?;
    }
    Ok(())
}

fn main(rt: HostRuntime) -> io::Result<()> {
    let mut line = [0u8; 8192];
    let mut space = [0u8; 65664];
    let mut answers = Answers {
        out: &mut rt.stdout(),
        line: Line {
            octets: &mut line,
            length: Some(0),
        },
        space: &mut space,
    };
    run(&rt, &mut rt.stdin(), &mut answers)
}
