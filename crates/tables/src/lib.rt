// The layouts of the kinds, as tables: each field with its message bits (001, Annex C, Appendix 2).

#![tactic(auto)]

ghost use Rattle.std.specs.Prelude.{◌≡◌};
ghost use Rattle.layout.specs.Trouble.{trouble};
ghost use Rattle.kind.specs.Layouts.{layout_of};
ghost use Rattle.layout.specs.Rules.{slots_of};

use kind::Kind;
use layout::{Rule, Slot, Trouble};

// Blank.
const BLANK: [Slot; 1] = [
    Slot(43, Rule::Pattern(0)), // 7-49 zeros
];

// The label's six bits and then a zero.
const GROUP: Rule = Rule::Pattern(46);

// S.0.
const TEST: [Slot; 7] = [
    Slot(1, Rule::Pattern(0)), // 7 the first group's zero
    Slot(7, GROUP), // 8-14 the group again
    Slot(7, GROUP), // 15-21 the group again
    Slot(7, GROUP), // 22-28 the group again
    Slot(7, GROUP), // 29-35 the group again
    Slot(7, GROUP), // 36-42 the group again
    Slot(7, GROUP), // 43-49 the group again
];

// S.3.
const IFF: [Slot; 12] = [
    Slot(2, Rule::Spare), // 7-8 spare
    Slot(12, Rule::Free), // 9-20 Mode 3/A
    Slot(3, Rule::Without(0b1110_1010)), // 21-23 request or reply, without 1, 3, 5, 6 and 7
    Slot(1, Rule::Free), // 24 emergency
    Slot(1, Rule::Free), // 25 Mode 1 is present
    Slot(1, Rule::Free), // 26 Mode 2 is present
    Slot(1, Rule::Free), // 27 Mode 3/A is present
    Slot(1, Rule::Free), // 28 validation
    Slot(2, Rule::Spare), // 29-30 spare
    Slot(5, Rule::Free), // 31-35 Mode 1
    Slot(2, Rule::Spare), // 36-37 spare
    Slot(12, Rule::Free), // 38-49 Mode 2
];

// S.4, S.4+, S.8 and S.8+.
const TRACK: [Slot; 4] = [
    Slot(15, Rule::Free), // 7-21 track number
    Slot(2, Rule::Free), // 22-23 quality
    Slot(13, Rule::Free), // 24-36 X
    Slot(13, Rule::Free), // 37-49 Y
];

// S.5.
const AMPLIFYING: [Slot; 11] = [
    Slot(9, Rule::Free), // 7-15 altitude
    Slot(3, Rule::Without(0b10)), // 16-18 strength, without 1
    Slot(4, Rule::Free), // 19-22 identification
    Slot(2, Rule::Free), // 23-24 special use
    Slot(1, Rule::Free), // 25 simulated
    Slot(1, Rule::Free), // 26 drop
    Slot(2, Rule::Free), // 27-28 traffic class
    Slot(8, Rule::Free), // 29-36 X velocity
    Slot(2, Rule::Free), // 37-38 allocation
    Slot(3, Rule::Free), // 39-41 special use
    Slot(8, Rule::Free), // 42-49 Y velocity
];

// S.6.
const STROBE: [Slot; 10] = [
    Slot(1, Rule::Free), // 7 acquisition
    Slot(3, Rule::Free), // 8-10 width
    Slot(2, Rule::Free), // 11-12 type
    Slot(1, Rule::Free), // 13 simulated
    Slot(12, Rule::Free), // 14-25 azimuth
    Slot(6, Rule::Free), // 26-31 site
    Slot(3, Rule::Free), // 32-34 sensor
    Slot(5, Rule::Free), // 35-39 number
    Slot(4, Rule::Without(0b1110_0000_0000_0000)), // 40-43 elevation, without 13, 14 and 15
    Slot(6, Rule::Free), // 44-49 age
];

// S.9.
const CORNER: [Slot; 8] = [
    Slot(2, Rule::Free), // 7-8 area number
    Slot(2, Rule::Spare), // 9-10 spare
    Slot(6, Rule::Free), // 11-16 site
    Slot(2, Rule::Free), // 17-18 corner number
    Slot(1, Rule::Free), // 19 drop
    Slot(4, Rule::Spare), // 20-23 spare
    Slot(13, Rule::Free), // 24-36 X
    Slot(13, Rule::Free), // 37-49 Y
];

// The layout of a kind.
pub fn layout(k: Kind) -> &'static [Slot]
    ensures { result.now ≡ slots_of (layout_of k) }
{
    match k {
        Kind::Blank => &BLANK,
        Kind::S0 => &TEST,
        Kind::S3 => &IFF,
        Kind::S4 | Kind::S4Plus | Kind::S8 | Kind::S8Plus => &TRACK,
        Kind::S5 => &AMPLIFYING,
        Kind::S6 => &STROBE,
        Kind::S9 => &CORNER,
    }
}

// What is first wrong with a word above its label, by the kind's layout.
pub fn find_trouble(k: Kind, word: u64) -> Result<(), Trouble>
    ensures { result ≡ trouble 6 (layout_of k) word }
{
    layout::find_trouble(word, 6, layout(k))
}
