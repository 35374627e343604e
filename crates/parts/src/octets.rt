// Octets that a line writes: `x00ba` in hexadecimal, `:01` a digit each, `=EG123` as they are; `*14` has the last stand fourteen times.

ghost use Rattle.std.specs.Prelude.{◌≡◌, ◌<◌, [], IfOk, IfSome, length};
ghost use Rattle.parts.specs.Parts.{parts_left};

use crate::{NotUnderstood, Parts, numbers};

// The most times.
const MOST: i64 = 65664;

// The value of a hexadecimal digit.
fn nibble(c: u8) -> Option<u8>
    ensures { IfSome result (λ d. d < 16) }
{
    match c {
        b'0'..=b'9' => Some(c - b'0'),
        b'a'..=b'f' => Some(c - b'a' + 10),
        _ => None,
    }
}

// The value of a digit from 0 to 9.
fn digit(c: u8) -> Option<u8> {
    nibble(c).filter(|d| *d < 10)
}

// A lent space, and how many octets are in it.
#[derive(Drop)]
struct Gathered<'a> {
    space: &'a mut [u8],
    count: usize,
}

impl<'a> Gathered<'a> {
    fn put(&mut self, x: u8) -> Option<()> {
        *self.space.get_mut(self.count)? = x;
        self.count = self.count.wrapping_add(1);
        Some(())
    }

    // The octet that each character of a text stands for.
    fn put_each<F: Fn(u8) -> Option<u8> + Drop>(&mut self, text: &[u8], value: F) -> Option<()>
        requires { F.IsAlwaysCallable value }
    {
        for c in text {
            self.put(value(*c)?)?;
        }
        Some(())
    }

    // Two hexadecimal digits for each octet.
    fn put_pairs(&mut self, digits: &[u8]) -> Option<()> {
        for pair in digits.chunks(2) {
            let [high, low] = pair else {
                return None;
            };
            self.put(nibble(*high)? * 16 + nibble(*low)?)?;
        }
        Some(())
    }

    // The last octet of a part again, so that it stands so many times; the part's octets begin at `from`.
    fn repeat(&mut self, times: &[u8], from: usize) -> Option<()> {
        let to = self.count;
        let last = *self.space.get(from..to)?.last()?;
        let times = numbers::of(times).filter(|n| (1..=MOST).contains(n))?;
        for _ in 1..times {
            self.put(last)?;
        }
        Some(())
    }

    // The octets of a part.
    fn put_part(&mut self, part: &[u8]) -> Option<()> {
        let from = self.count;
        let (mark, text) = part.split_first()?;
        let mut pieces = text.splitn(2, |c| *c == b'*');
        let digits = pieces.next()?;
        match mark {
            b'=' => return self.put_each(text, Some),
            b':' => self.put_each(digits, digit)?,
            b'x' => self.put_pairs(digits)?,
            _ => return None,
        }
        match pieces.next() {
            Some(times) => self.repeat(times, from),
            None => Some(()),
        }
    }
}

// Puts the octets of each part into the space, and answers them.
fn gather<'s>(parts: Parts, space: &'s mut [u8]) -> Option<&'s mut [u8]>
    ensures { parts_left parts.entry ≡ [] → IfSome result (λ octets. length octets.now ≡ 0) }
{
    let mut gathered = Gathered { space, count: 0 };
    for part in parts {
        gathered.put_part(part)?;
    }
    let Gathered { space, count } = gathered;
    space.get_mut(..count)
}

impl<'a> Parts<'a> {
    // The octets of all parts that are left, put into the space.
    pub fn octets<'s>(self, space: &'s mut [u8]) -> Result<&'s mut [u8], NotUnderstood>
        ensures { parts_left self.entry ≡ [] → IfOk result (λ octets. length octets.now ≡ 0) }
    {
        gather(self, space).ok_or(NotUnderstood)
    }
}
