// The transmission frame: 128 bits with a start group, marks, check bits and two messages of 49 bits
// (001, Annex A, Appendix 3).

#![tactic(auto)]

ghost use Rattle.std.specs.Prelude.{◌≡◌, ◌+◌, ◌*◌, ◌≤◌};
ghost use Rattle.std.specs.Int.Count.{count_leading_zeros};
ghost use Rattle.bits.specs.Numbers.{num_of};
ghost use Rattle.refusal.specs.Checks.{answered};
ghost use Rattle.frame.specs.Frame.{start_good, marks_good, checks_good, frame_verdict, verdict_of, frame_at, LiesWhole};

use refusal::Refusal;

// A frame where it lies: whole in a run of octets, at a position.
#[derive(Clone, Copy)]
pub struct Frame<'a> {
    pub octets: &'a [u8],
    pub position: usize,
    ghost whole: { LiesWhole octets.now position },
}

impl<'a> Frame<'a> {
    // Bit n of the frame, counted from 1.
    fn bit(self, n: usize) -> u8
        requires { (1 ≤ n) × (n ≤ 128) }
        ensures { result ≡ frame_at self.entry.octets.now self.entry.position n }
    {
        bits::bit(self.octets, self.position + n)
    }

    // The start group: eight zeros.
    fn is_started(self) -> bool
        ensures { result ≡ start_good (frame_at self.entry.octets.now self.entry.position) }
    {
        (0..8).all(|i| self.bit(i + 1) == 0)
    }

    // The fifteen marks and the final one.
    fn is_marked(self) -> bool
        ensures { result ≡ marks_good (frame_at self.entry.octets.now self.entry.position) }
    {
        (0..15).all(|g| self.bit(8 * g + 9) == 1) && self.bit(128) == 1
    }

    // Bit j of the fourteen data groups and check bit j, gathered as a number of fifteen bits. Where it is called j is known, so it is
    // inlined.
    #[inline(always)]
    pub fn column(self, j: usize) -> u32
        requires { (1 ≤ j) × (j ≤ 6) }
        ensures { result ≡ num_of (λ g. frame_at self.entry.octets.now self.entry.position (8 * g + 9 + j)) 15 }
    {
        let mut gathered: u32 = 0;
        for g in 0..15 {
            gathered |= u32::from(self.bit(8 * g + 9 + j)) << g;
        }
        gathered
    }

    // Each of the six check bits makes the ones of its column odd.
    fn is_checked(self) -> bool
        ensures { result ≡ checks_good (frame_at self.entry.octets.now self.entry.position) }
    {
        (0..6).all(|i| self.column(i + 1).count_ones() % 2 == 1)
    }

    // What is wrong first with the frame, if anything. The check bits are counted last.
    pub fn verdict(self) -> Result<(), Refusal>
        ensures { result ≡ answered (frame_verdict (frame_at self.entry.octets.now self.entry.position)) tt }
    {
        if !self.is_started() {
            return Err(Refusal::of(refusal::BAD_START));
        }
        if !self.is_marked() {
            return Err(Refusal::of(refusal::BAD_MARK));
        }
        if !self.is_checked() {
            return Err(Refusal::of(refusal::BAD_CHECK));
        }
        Ok(())
    }
}

// The zeros at the front of an octet. A good frame that begins so many bits behind the front of the octet before, 8 at most, has the
// last of its start group there, and then its first mark. So it begins there or, in these nine places, not at all.
pub fn lead(octet: u8) -> u32
    ensures { (result ≡ count_leading_zeros 8 octet) × (result ≤ 8) }
{
    u8::leading_zeros(octet)
}

// What is wrong first with an image, if anything: 2, 3, 4, 5.
pub fn verdict(image: &[u8]) -> Result<(), Refusal>
    ensures { result ≡ answered (verdict_of image.now) tt }
{
    if image.len() != 16 {
        return Err(Refusal::of(refusal::BAD_LENGTH));
    }
    let frame = Frame {
        octets: image,
        position: 0,
    };
    frame.verdict()
}
