// Numbers of a line: decimal, 64 bits each.

ghost use Rattle.std.specs.Fmt.{signed_decimal};
ghost use Rattle.std.specs.Prelude.{◌≡◌, ◌≤◌, IfOk, IfSome, IsTrue, length, pos};
ghost use Rattle.parts.specs.Parts.{Says, SaysOr, Takes, flag_of, parts_left, place_of, behind};

use crate::{NotUnderstood, Parts};
use itoa::Buffer;

// Whether a text is a number as it would be told.
fn says_number(text: &[u8], n: i64) -> bool
    ensures { IsTrue result → text.now ≡ signed_decimal n }
{
    let mut digits = Buffer::new();
    digits.format(n).as_bytes() == text
}

// The number that a text is, as it would be told: with no plus, and no zero in front.
pub fn of(text: &[u8]) -> Option<i64>
    ensures { IfSome result (λ n. text.now ≡ signed_decimal n) }
{
    let n: i64 = str::from_utf8(text).ok()?.parse().ok()?;
    says_number(text, n).then_some(n)
}

// The number of a type that a text is.
fn read<T: TryFrom<i64>>(text: &[u8]) -> Result<T, NotUnderstood>
where
    T::Error: Drop,
    ensures { IfOk result (λ t. Says T.try_from_gives text.now t) }
{
    let n = of(text).ok_or(NotUnderstood)?;
    T::try_from(n).ok().ok_or(NotUnderstood)
}

impl<'a> Parts<'a> {
    // Takes a number of the type.
    pub fn number<T: TryFrom<i64>>(&mut self) -> Result<T, NotUnderstood>
    where
        T::Error: Drop,
        ensures { IfOk result (λ t. Takes (λ part. Says T.try_from_gives part t) (parts_left self.old) (parts_left self.new)) }
    {
        read(self.part()?)
    }

    // Takes a number of the type, or a word in its place.
    pub fn number_or<T: TryFrom<i64>>(&mut self, word: &[u8]) -> Result<Option<T>, NotUnderstood>
    where
        T::Error: Drop,
        ensures { IfOk result (λ o. Takes (λ part. SaysOr word.now T.try_from_gives part o) (parts_left self.old) (parts_left self.new)) }
    {
        let part = self.part()?;
        if part == word {
            return Ok(None);
        }
        Ok(Some(read(part)?))
    }

    // Takes a number that is 0 or 1.
    pub fn flag(&mut self) -> Result<bool, NotUnderstood>
        ensures { IfOk result (λ yes. Takes (λ part. part ≡ signed_decimal (flag_of yes)) (parts_left self.old) (parts_left self.new)) }
    {
        match self.number::<u8>()? {
            0 => Ok(false),
            1 => Ok(true),
            _ => Err(NotUnderstood),
        }
    }

    // Takes a number from 0 to the most that is taken.
    pub fn up_to(&mut self, most: usize) -> Result<usize, NotUnderstood>
        ensures most { IfOk result (λ n. n ≤ most) }
        ensures taken { IfOk result (λ n. Takes (λ part. part ≡ signed_decimal (pos n)) (parts_left self.old) (parts_left self.new)) }
    {
        let n = self.number::<usize>()?;
        if n > most {
            return Err(NotUnderstood);
        }
        Ok(n)
    }

    // How many parts come before a word.
    fn before(self, word: &[u8]) -> Result<usize, NotUnderstood>
        ensures { IfOk result (λ n. n ≡ place_of word.now (parts_left self.entry)) }
    {
        let left = self.left.ok_or(NotUnderstood)?;
        let place = left.split(|c| *c == b' ').position(|part| part == word);
        place.ok_or(NotUnderstood)
    }

    // Takes a word, and the numbers between it and another word, which is left; they are put into the space.
    pub fn list<'s>(
        &mut self,
        first: &[u8],
        last: &[u8],
        space: &'s mut [i32],
    ) -> Result<&'s [i32], NotUnderstood>
        ensures { IfOk result (λ numbers. length numbers.now ≡ place_of last.now (behind (parts_left self.old))) }
    {
        self.word(first)?;
        let count = self.before(last)?;
        let numbers = space.get_mut(..count).ok_or(NotUnderstood)?;
        for n in numbers.iter_mut() {
            *n = self.number()?;
        }
        Ok(numbers)
    }
}
