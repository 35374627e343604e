// What is written of an answer, piece by piece.

ghost use Rattle.std.specs.Prelude.{◌++◌, IfSome, OnOk, codes};
ghost use Rattle.std.specs.Io.KnownBytes.{Appends};

use std::fmt::Display;
use std::io;
use std::io::Write;

pub fn text<W: Write>(out: &mut W, t: &[u8]) -> io::Result<()> {
    out.write_all(t)
}

// A space and a number.
pub fn number<W: Write, N: Display + Drop>(out: &mut W, n: N) -> io::Result<()>
    ensures { OnOk result (IfSome (N.output n)
        (λ digits. Appends (W.contents out.old) (W.contents out.new) (codes " " ++ digits))) }
{
    write!(out, " {n}")
}

// What an answer begins with, with no space before it.
pub fn first<W: Write, T: Display + Drop>(out: &mut W, t: T) -> io::Result<()>
    ensures { OnOk result (IfSome (T.output t) (Appends (W.contents out.old) (W.contents out.new))) }
{
    write!(out, "{t}")
}

// Octets in hexadecimal, in so many digits each.
fn list<W: Write>(out: &mut W, s: &[u8], width: usize) -> io::Result<()> {
    for x in s {
        write!(out, "{x:0width$x}")?;
    }
    Ok(())
}

// A space, and octets behind an x.
pub fn octets<W: Write>(out: &mut W, s: &[u8]) -> io::Result<()> {
    text(out, b" x")?;
    list(out, s, 2)
}

// A space, and octets as one digit each behind a colon.
pub fn levels<W: Write>(out: &mut W, s: &[u8]) -> io::Result<()> {
    text(out, b" :")?;
    list(out, s, 1)
}

fn is_plain(s: &[u8]) -> bool {
    !s.is_empty() && s.iter().all(|c| c.is_ascii_graphic())
}

// A space, and octets as a text behind an equals sign if they are one.
pub fn plain<W: Write>(out: &mut W, s: &[u8]) -> io::Result<()> {
    if !is_plain(s) {
        return octets(out, s);
    }
    text(out, b" =")?;
    text(out, s)
}

// A line that is not understood.
pub fn refuse<W: Write>(out: &mut W) -> io::Result<()> {
    text(out, b"?")
}
