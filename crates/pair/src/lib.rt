// Pairs: which messages may share a frame.

#![tactic(auto)]

ghost use Rattle.std.specs.Prelude.{◌≡◌};
ghost use Rattle.pair.specs.Pairs.{pair_of};

use kind::Kind;

const YES: bool = true;

const NO: bool = false;

// A row for each first kind, a column for each second: Blank, S.0, S.3, S.4, S.4+, S.5, S.6, S.8, S.8+, S.9.
const PAIRS: [[bool; kind::KINDS]; kind::KINDS] = [
    [NO, NO, NO, NO, NO, NO, NO, NO, NO, NO], // Blank
    [NO, YES, NO, NO, NO, NO, NO, NO, NO, NO], // S.0
    [NO, NO, NO, NO, NO, NO, NO, NO, NO, NO], // S.3
    [YES, NO, NO, YES, NO, NO, YES, YES, NO, NO], // S.4
    [NO, NO, YES, NO, NO, YES, NO, NO, NO, NO], // S.4+
    [NO, NO, NO, NO, NO, NO, NO, NO, NO, NO], // S.5
    [YES, NO, NO, YES, NO, NO, YES, YES, NO, NO], // S.6
    [YES, NO, NO, YES, NO, NO, YES, YES, NO, NO], // S.8
    [NO, NO, YES, NO, NO, YES, NO, NO, NO, NO], // S.8+
    [NO, NO, NO, NO, NO, NO, NO, NO, NO, YES], // S.9
];

// Whether the second kind may follow the first in a frame.
pub fn is_pair(first: Kind, second: Kind) -> bool
    ensures { result ≡ pair_of first second }
{
    PAIRS[kind::number(first)][kind::number(second)]
}
