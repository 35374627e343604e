// The sieve of the search: from a position of a capture to the next at which a good frame may begin, or does.

#![tactic(auto)]

ghost use Rattle.std.specs.Prelude.{◌≡◌, ◌+◌, ◌*◌, ◌≤◌, ◌<◌, IfSome, length};
ghost use Rattle.frame.specs.Frame.{LiesWhole};
ghost use Rattle.sieve.specs.Capture.{good_at};
ghost use Rattle.sieve.specs.Sieve.{PassedOver, Seen};

use frame::Frame;
use std::ops::ControlFlow;

// What was seen: a good frame to stop at, or none before a position to go on from.
pub type Seen = ControlFlow<usize, usize>;

// The first octet from i on whose last bit is zero, or the capture's end. The eight zeros of a start group
// cover the last bit of the octet that they begin in, so an idle line is passed at one test an octet.
fn pass_idle(capture: &[u8], i: usize) -> usize
    requires { i ≤ length capture.now }
    ensures { PassedOver capture.now i result }
{
    match capture[i..].iter().position(|octet| *octet % 2 == 0) {
        Some(passed) => i + passed,
        None => capture.len(),
    }
}

// An octet further on that can be gone on from, if this finds one. The fifteen marks of a frame that begins in octet i stand in the
// fifteen octets after it, all in one place of theirs: where the AND of the last eight becomes zero, no frame begins up to there.
fn pass_unmarked(capture: &[u8], i: usize) -> Option<usize>
    requires { i + 16 ≤ length capture.now }
    ensures { IfSome result (λ next. (i < next) × PassedOver capture.now i next) }
{
    let mut ones: u8 = 255;
    for from in (8..16).rev() {
        ones &= capture[i + from];
        if ones == 0 {
            return Some(i + from);
        }
    }
    None
}

// Whether a good frame lies whole at position q.
fn is_frame(capture: &[u8], q: usize) -> bool
    requires { LiesWhole capture.now 0 }
    ensures { result ≡ good_at capture.now q }
{
    if 8 * capture.len() - 128 < q {
        return false;
    }
    let frame = Frame {
        octets: capture,
        position: q,
    };
    frame.verdict().is_ok()
}

// Looks from position p to the end of its octet. A frame that begins there has its first mark where the next octet has its first
// one, so there is one position to try, and before it is judged its octet must end in the zeros of a start group.
fn look_in_octet(capture: &[u8], p: usize) -> Seen
    requires { LiesWhole capture.now p }
    ensures { Seen capture.now p result }
{
    let i = p / 8;
    let none = ControlFlow::Continue(8 * i + 8);
    let lead = frame::lead(capture[i + 1]);
    if lead == 8 {
        return none;
    }
    if capture[i] << lead != 0 {
        return none;
    }
    let q = 8 * i + lead as usize;
    if q < p {
        return none;
    }
    if is_frame(capture, q) {
        return ControlFlow::Break(q);
    }
    none
}

// Looks from position p on, octet by octet, as far as e.
fn look_each(capture: &[u8], p: usize, e: usize) -> Seen
    requires { (p < e) × (e + 127 ≤ 8 * length capture.now) × (length capture.now ≤ 65536) }
    ensures { Seen capture.now p result }
{
    let mut q = p;
    while q < e {
        q = look_in_octet(capture, q)?;
    }
    ControlFlow::Continue(q)
}

// Looks on from position p: past an idle stretch, past octets that lack a mark, or at the next eight octets. So an octet costs a
// few tests, whatever it holds, and only a start group with its first mark costs a verdict.
pub fn look(capture: &[u8], p: usize) -> Seen
    requires { LiesWhole capture.now p }
    ensures { Seen capture.now p result }
{
    let i = p / 8;
    let idle = pass_idle(capture, i);
    if i < idle {
        return ControlFlow::Continue(8 * idle);
    }
    if let Some(next) = pass_unmarked(capture, i) {
        return ControlFlow::Continue(8 * next);
    }
    look_each(capture, p, (8 * i + 64).min(8 * capture.len() - 127))
}
