// Line levels: a receiver that hears frames (001, Annex A, Appendix 3, paragraphs 4 and 5).

#![tactic(auto)]

ghost use Rattle.std.specs.Prelude.{◌≡◌, ◌≤◌, ◌<◌, ◌^◌};
ghost use Rattle.line.specs.Levels.{differ};
ghost use Rattle.line.specs.Machine.{pushed_by, window_image, idle_window, handed_of, nothing_handed};
ghost use Rattle.line.specs.Machine.{fresh_of, accepted, answer_with, heard_of};

use refusal::Refusal;

// The last 128 bits: the oldest weighs most in `older`, the newest least in `newer`.
#[derive(Clone, Copy)]
pub struct Window {
    pub older: u64,
    pub newer: u64,
}

// The sixteen octets of a window.
pub fn image(window: Window) -> [u8; 16]
    ensures { result ≡ window_image window }
{
    ((u128::from(window.older) << 64) | u128::from(window.newer)).to_be_bytes()
}

// The window with so many bits more, those of a number, the most significant first; as many of the oldest go.
pub fn push(window: Window, bits: u64, count: u32) -> Window
    requires { (1 ≤ count) × (count < 64) × (bits < 2 ^ count) }
    ensures { result ≡ pushed_by window bits count }
{
    Window {
        older: (window.older << count) | (window.newer >> (64 - count)),
        newer: (window.newer << count) | bits,
    }
}

// The window of an idle line: all ones, in which no start group begins.
pub fn idle() -> Window
    ensures { result ≡ idle_window }
{
    Window {
        older: u64::MAX,
        newer: u64::MAX,
    }
}

// What a window gives: its sixteen octets if they are a good frame, else zero octets.
#[derive(Clone, Copy)]
pub struct Handed {
    pub frame: bool,
    pub image: [u8; 16],
}

// No frame to hand over.
fn hold_back() -> Handed
    ensures { result ≡ nothing_handed }
{
    Handed {
        frame: false,
        image: [0u8; 16],
    }
}

// Hands over the window if it is a good frame. Its first nine bits, the start group and the first mark, are tested before
// an image is made.
pub fn hand_over(window: Window) -> Handed
    ensures { result ≡ handed_of window }
{
    if window.older >> 55 != 1 {
        return hold_back();
    }
    let image = image(window);
    match frame::verdict(&image) {
        Ok(()) => Handed { frame: true, image },
        Err(_) => hold_back(),
    }
}

// A receiver: whether a level has come, the last one, and the window.
#[derive(Clone, Copy)]
pub struct Receiver {
    pub started: bool,
    pub last: u8,
    pub window: Window,
}

// What a level is answered: the receiver to go on with, the refusal, and the frame handed over, if any.
#[derive(Clone, Copy)]
pub struct Heard {
    pub receiver: Receiver,
    pub refusal: Refusal,
    pub frame: bool,
    pub image: [u8; 16],
}

// The bit that two levels in turn give.
fn change(before: u8, level: u8) -> u64
    ensures { result ≡ differ before level }
{
    u64::from(before != level)
}

impl Receiver {
    // As after an idle line: no start group reaches back before the first bit.
    pub fn fresh() -> Receiver
        ensures { result ≡ fresh_of }
    {
        Receiver {
            started: false,
            last: 0,
            window: idle(),
        }
    }

    // The receiver with one level more; the first gives no bit.
    fn accept(self, level: u8) -> Receiver
        requires { level ≤ 1 }
        ensures { result ≡ accepted self level }
    {
        let window = if self.started {
            push(self.window, change(self.last, level), 1)
        } else {
            self.window
        };
        Receiver {
            started: true,
            last: level,
            window,
        }
    }

    // The answer: the state to go on with, the refusal, and what is handed over.
    fn answer(self, number: u8, handed: Handed) -> Heard
        ensures { result ≡ answer_with self number handed }
    {
        let Handed { frame, image } = handed;
        Heard {
            receiver: self,
            refusal: Refusal::of(number),
            frame,
            image,
        }
    }

    // One level. A level that is neither 0 nor 1 is refused, 1, and counts for nothing.
    pub fn step(self, level: u8) -> Heard
        ensures { result ≡ heard_of self level }
    {
        if 1 < level {
            return self.answer(refusal::BAD_LEVEL, hold_back());
        }
        let next = self.accept(level);
        next.answer(refusal::SUCCESS, hand_over(next.window))
    }
}
