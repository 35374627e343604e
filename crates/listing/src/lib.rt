// The listing of a log, as text in a lent buffer (01, 'The listing program').

#![tactic(auto)]

ghost use Rattle.std.specs.Prelude.{◌≡◌, ◌+◌, ◌≤◌, length, IfSome, Err, OnOk};
ghost use Rattle.std.specs.Io.KnownBytes.{Appends, Keeps};
ghost use Rattle.text.specs.Adds.{Adds};
ghost use Rattle.text.specs.Counts.{IsPrefixLen};
ghost use Rattle.text.specs.Wrote.{Wrote};
ghost use Rattle.text.specs.declared.Failure.TheVariants.{Unread};
ghost use Rattle.listing.specs.Listing.{listing_of};

use std::io::{Read, Write};
use text::{Failure, Sheet};

// The longest log that is listed, in octets: 4,096 images.
const MOST: usize = 65536;

// Octets enough for the header, 20 for each image, and the last line.
pub const ROOM: usize = 82000;

// Puts the whole listing.
fn fill(sheet: &mut Sheet, log: &[u8])
    requires { sheet.old.written + 82000 ≤ length sheet.old.out.now }
    ensures { Adds sheet.old (listing_of log.now) sheet.new }
{
    if log.len() > MOST {
        sheet.put(b"TOO LONG\n");
        return;
    }
    sheet.put(b"LINK1\n");
    for (k, image) in log.chunks_exact(16).enumerate() {
        image_lines::put_image(sheet, k as u64 + 1, opening::open(image));
    }
    image_lines::put_last(sheet, (log.len() / 16) as u64, (log.len() % 16) as u64);
}

// Puts the listing of log at the start of out, and answers its length. Any log will do.
pub fn list_log(log: &[u8], out: &mut [u8; ROOM]) -> usize
    ensures prefix_len { IsPrefixLen result out.new }
    ensures wrote { Wrote out.old 0 (listing_of log.now) out.new result }
{
    let mut sheet = Sheet { out, written: 0 };
    fill(&mut sheet, log);
    sheet.written
}

// Lists to a writer the log that is read from a reader. One octet more than a log may have is read, to tell that it has more.
pub fn run<R: Read, W: Write>(from: &mut R, to: &mut W) -> Result<(), Failure>
    ensures whole { OnOk result (IfSome (R.remaining from.old)
        (λ log. Appends (W.contents to.old) (W.contents to.new) (listing_of log))) }
    ensures kept { result ≡ Err Unread → Keeps (W.contents to.old) (W.contents to.new) }
{
    let mut space = [0u8; MOST + 1];
    let mut out = [0u8; ROOM];
    let count = text::read_all(from, &mut space)?;
    let k = list_log(&space[..count], &mut out);
    text::write(to, &out[..k])
}
