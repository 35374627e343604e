// A receiver that is fed octets of eight decoded bits, most significant first (02, item 5).

#![tactic(auto)]

ghost use Rattle.std.specs.Prelude.{◌≡◌, ◌≤◌};
ghost use Rattle.octets.specs.Feeding.{taken, heard_octet, fresh_octets};
ghost use Rattle.octets.specs.OctetSteps.{lead_of, nothing_heard, heard_as};

use line::{Handed, Window};

// The receiver: the last 128 bits.
#[derive(Clone, Copy)]
pub struct OctetReceiver {
    pub window: Window,
}

// What an octet is answered: the receiver to go on with, and if a good frame ended in the octet, at which bit, 1 to 8, and
// the frame; else 0 and zero octets.
#[derive(Clone, Copy)]
pub struct HeardOctet {
    pub receiver: OctetReceiver,
    pub frame: bool,
    pub bit: u8,
    pub image: [u8; 16],
}

// The window with the first j bits of an octet more.
fn take(window: Window, octet: u8, j: u32) -> Window
    requires { (1 ≤ j) × (j ≤ 8) }
    ensures { result ≡ taken window octet j }
{
    line::push(window, u64::from(octet) >> (8 - j), j)
}

// The one bit of the next octet at which a frame can end, or 0. A frame that ends at bit j begins j bits behind the front of the
// window, so the window's second octet says where.
fn lead(window: Window) -> u32
    ensures { (result ≡ lead_of window) × (result ≤ 8) }
{
    frame::lead(window.older.to_be_bytes()[1])
}

impl OctetReceiver {
    // As after an idle line: no start group reaches back before the first bit.
    pub fn fresh() -> OctetReceiver
        ensures { result ≡ fresh_octets }
    {
        OctetReceiver {
            window: line::idle(),
        }
    }

    // No frame ended in the octet.
    fn hear_nothing(self) -> HeardOctet
        ensures { result ≡ nothing_heard self }
    {
        HeardOctet {
            receiver: self,
            frame: false,
            bit: 0,
            image: [0u8; 16],
        }
    }

    // What is handed over at a bit.
    fn hear(self, handed: Handed, bit: u8) -> HeardOctet
        ensures { result ≡ heard_as self handed bit }
    {
        let Handed { frame, image } = handed;
        if !frame {
            return self.hear_nothing();
        }
        HeardOctet {
            receiver: self,
            frame,
            bit,
            image,
        }
    }

    // One octet. Nothing is refused.
    pub fn step(self, octet: u8) -> HeardOctet
        ensures { result ≡ heard_octet self octet }
    {
        let window = self.window;
        let longer = take(window, octet, 8);
        let receiver = OctetReceiver { window: longer };
        let j = lead(window);
        if j == 0 {
            return receiver.hear_nothing();
        }
        let handed = line::hand_over(take(window, octet, j));
        receiver.hear(handed, j as u8)
    }
}
