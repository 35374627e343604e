// The lines of a listing, put on a sheet (01, 'The listing program'): that of an image, and the last.

#![tactic(auto)]

ghost use Rattle.std.specs.Prelude.{◌≡◌, ◌+◌, ◌≤◌, ◌<◌, length, Err};
ghost use Rattle.kind.specs.Layouts.{label_of};
ghost use Rattle.message.specs.Messages.{kind_of};
ghost use Rattle.text.specs.Adds.{Adds};
ghost use Rattle.image_lines.specs.ImageLines.{has_bit, image_line, last_line};

use message::Message;
use refusal::Refusal;
use text::Sheet;

fn label(m: Message) -> u64
    ensures { (result ≡ label_of (kind_of m)) × (result < 256) }
{
    u64::from(kind::label(message::kind_of(m)))
}

// Whether a refusal of this number comes with a bit.
fn has_bit(number: u8) -> bool
    ensures { result ≡ has_bit number }
{
    (refusal::BAD_PATTERN..=refusal::TOO_WIDE).contains(&number)
}

// Puts the line of image n, which is refused.
fn put_refusal(sheet: &mut Sheet, n: u64, r: Refusal)
    requires { (sheet.old.written + 84 ≤ length sheet.old.out.now) × (n < 10000) }
    ensures added { Adds sheet.old (image_line n (Err r)) sheet.new }
    ensures upper_bound { sheet.new.written ≤ sheet.old.written + 20 }
{
    let number = u64::from(r.number);
    let place = u64::from(r.place);
    if has_bit(r.number) {
        sheet.put_row(&[n, number, place, u64::from(r.bit)]);
    } else {
        sheet.put_row(&[n, number, place]);
    }
}

// Puts the line of image n: at most four numbers, of at most four digits each.
pub fn put_image(sheet: &mut Sheet, n: u64, opened: Result<(Message, Message), Refusal>)
    requires { (sheet.old.written + 84 ≤ length sheet.old.out.now) × (n < 10000) }
    ensures added { Adds sheet.old (image_line n opened) sheet.new }
    ensures upper_bound { sheet.new.written ≤ sheet.old.written + 20 }
{
    match opened {
        Ok((first, second)) => sheet.put_row(&[n, 0, label(first), label(second)]),
        Err(r) => put_refusal(sheet, n, r),
    }
}

// Puts the last line: END, the images listed and the octets left over.
pub fn put_last(sheet: &mut Sheet, images: u64, left: u64)
    requires { sheet.old.written + 46 ≤ length sheet.old.out.now }
    ensures added { Adds sheet.old (last_line images left) sheet.new }
    ensures upper_bound { sheet.new.written ≤ sheet.old.written + 46 }
{
    sheet.put(b"END ");
    sheet.put_row(&[images, left]);
}
