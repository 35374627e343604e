// The frames heard in a capture, as text in a lent buffer (02, item 5).

#![tactic(auto)]

ghost use Rattle.std.specs.Prelude.{◌+◌, ◌≤◌, ◌<◌, ◌≡◌, length, IfSome, Err, OnOk};
ghost use Rattle.std.specs.Io.KnownBytes.{Appends, Keeps};
ghost use Rattle.text.specs.Adds.{Adds};
ghost use Rattle.text.specs.Counts.{IsPrefixLen};
ghost use Rattle.text.specs.Wrote.{Wrote};
ghost use Rattle.text.specs.declared.Failure.TheVariants.{Unread};
ghost use Rattle.hearing.specs.Ends.{end_in};
ghost use Rattle.hearing.specs.Hearing.{lines_of, hearing_of};

use octets::{HeardOctet, OctetReceiver};
use std::io::{Read, Write};
use text::{Failure, Sheet};

// The longest capture that is heard, in octets.
const MOST: usize = 65536;

// Octets enough for a line of seven for each of 4,096 frames, and to put one number more: frames lie 128 bits apart.
pub const ROOM: usize = 28700;

// Puts the line for octet k, if a frame ended in it: the bits read through its last.
fn put_end(sheet: &mut Sheet, k: usize, heard: HeardOctet)
    requires { (sheet.old.written + 21 ≤ length sheet.old.out.now) × (k < 65536) }
    ensures { Adds sheet.old (lines_of (end_in k heard)) sheet.new }
{
    if heard.frame {
        sheet.put_number((8 * k + usize::from(heard.bit)) as u64, b'\n');
    }
}

// Puts the whole text.
fn fill(sheet: &mut Sheet, capture: &[u8])
    requires { sheet.old.written + 28700 ≤ length sheet.old.out.now }
    ensures { Adds sheet.old (hearing_of capture.now) sheet.new }
{
    if capture.len() > MOST {
        sheet.put(b"TOO LONG\n");
        return;
    }
    let mut receiver = OctetReceiver::fresh();
    for (k, octet) in capture.iter().enumerate() {
        let heard = receiver.step(*octet);
        put_end(sheet, k, heard);
        receiver = heard.receiver;
    }
}

// Puts a line for each frame heard in capture at the start of out, and answers their length. Any capture will do.
pub fn hear_capture(capture: &[u8], out: &mut [u8; ROOM]) -> usize
    ensures prefix_len { IsPrefixLen result out.new }
    ensures wrote { Wrote out.old 0 (hearing_of capture.now) out.new result }
{
    let mut sheet = Sheet { out, written: 0 };
    fill(&mut sheet, capture);
    sheet.written
}

// Tells to a writer the frames of the capture that is read from a reader. One octet more than a capture may have is read, to tell that it
// has more.
pub fn run<R: Read, W: Write>(from: &mut R, to: &mut W) -> Result<(), Failure>
    ensures whole { OnOk result (IfSome (R.remaining from.old)
        (λ capture. Appends (W.contents to.old) (W.contents to.new) (hearing_of capture))) }
    ensures kept { result ≡ Err Unread → Keeps (W.contents to.old) (W.contents to.new) }
{
    let mut space = [0u8; MOST + 1];
    let mut out = [0u8; ROOM];
    let count = text::read_all(from, &mut space)?;
    let k = hear_capture(&space[..count], &mut out);
    text::write(to, &out[..k])
}
