// Lines of text, as `replay` reads and answers them: the parts of a line, which single spaces separate.

#![tactic(auto)]

ghost use Rattle.std.specs.Prelude.{◌≡◌, ◌∷◌, ◌↔◌, [], Some, IfOk, IsOk, OnOk};
ghost use Rattle.parts.specs.Parts.{parts_of, parts_in, parts_left};
ghost use Rattle.parts.specs.declared.Unanswered.TheVariants as why;

use std::io;

mod numbers;
mod octets;
pub mod show;

// A line that is not understood.
#[derive(Clone, Copy, Debug)]
pub struct NotUnderstood;

// Why a line has no answer.
#[derive(Debug, Drop)]
pub enum Unanswered {
    NotUnderstood,
    Unwritten(io::Error),
}

// That a line is answered, or why not.
pub type Answered = Result<(), Unanswered>;

impl From<NotUnderstood> for Unanswered {
    ghost from_gives = { λ _ unanswered. unanswered ≡ why.NotUnderstood };

    fn from(_: NotUnderstood) -> Unanswered {
        Unanswered::NotUnderstood
    }
}

impl From<io::Error> for Unanswered {
    ghost from_gives = { λ error unanswered. unanswered ≡ why.Unwritten error };

    fn from(error: io::Error) -> Unanswered {
        Unanswered::Unwritten(error)
    }
}

// The parts of a line that are not taken yet. There is one more than there are spaces: an empty line has one.
#[derive(Clone, Copy)]
pub struct Parts<'a> {
    left: Option<&'a [u8]>,
}

// The first part of a line, and what is left behind its space.
fn cut(line: &[u8]) -> (&[u8], Option<&[u8]>)
    ensures { parts_of line.now ≡ result.0.now ∷ parts_in result.1 }
{
    match line.iter().position(|c| *c == b' ') {
        Some(at) => (&line[..at], Some(&line[at + 1..])),
        None => (line, None),
    }
}

impl<'a> Iterator for Parts<'a> {
    ghost use Rattle.std.specs.Iterator.{YieldsFirstRef, item_count};
    ghost use Rattle.parts.specs.Parts.{parts_left};

    type Item = &'a [u8];

    ghost next_gives = { YieldsFirstRef parts_left };

    ghost remaining = { item_count parts_left };

    fn next(&mut self) -> Option<&'a [u8]> {
        let (part, others) = cut(self.left?);
        self.left = others;
        Some(part)
    }
}

impl<'a> Parts<'a> {
    pub fn of(line: &'a [u8]) -> Parts<'a>
        ensures { parts_left result ≡ parts_of line.now }
    {
        Parts { left: Some(line) }
    }

    // Takes the next part, whatever it is.
    pub fn part(&mut self) -> Result<&'a [u8], NotUnderstood>
        ensures { IfOk result (λ part. parts_left self.old ≡ part.now ∷ parts_left self.new) }
    {
        self.next().ok_or(NotUnderstood)
    }

    // Takes the next part, which is to be this word.
    pub fn word(&mut self, word: &[u8]) -> Result<(), NotUnderstood>
        ensures { OnOk result (parts_left self.old ≡ word.now ∷ parts_left self.new) }
    {
        if self.part()? == word {
            Ok(())
        } else {
            Err(NotUnderstood)
        }
    }

    // Whether all parts are taken, as they are to be.
    pub fn end(&self) -> Result<(), NotUnderstood>
        ensures { IsOk result ↔ parts_left self.now ≡ [] }
    {
        match self.left {
            None => Ok(()),
            Some(_) => Err(NotUnderstood),
        }
    }
}
