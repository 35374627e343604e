// Feet, link steps and altitude steps: three measures that never stand in for one another. Handing one in where another is wanted does not
// compile; one becomes another only where it is rounded.

#![tactic(auto)]

ghost use Rattle.std.specs.Prelude.{◌≡◌, ◌<◌, ◌≤◌, ◌^◌, ◌+ℤ◌, length};
ghost use Rattle.std.specs.Int.Signed.{mag};
ghost use Rattle.std.specs.Int.{w32};
ghost use Rattle.std.proofs.Common.{SFits};
ghost use Rattle.units.specs.Offsets.{is_offset, summed_of};
ghost use Rattle.units.specs.Steps.{near, moved_by};
ghost use Rattle.units.specs.Heights.{height_of};

use refusal::Refusal;
use std::ops::Add;

// Feet.
#[derive(Clone, Copy)]
pub struct Feet(pub i32);

// Link steps of 1/8 data mile, 750 feet.
#[derive(Clone, Copy, Default)]
pub struct LinkSteps(pub i16);

// Altitude steps of 375 feet.
#[derive(Clone, Copy, Default)]
pub struct AltSteps(pub u16);

fn is_offset(x: Feet) -> bool
    ensures { result ≡ is_offset x.0 }
{
    (-6144000..=6144000).contains(&x.0)
}

impl Add for Feet {
    type Output = Feet;

    ghost can_add = { λ a b. SFits w32 (a.0 +ℤ b.0) };

    ghost add_gives = { λ a b c. c.0 ≡ a.0 +ℤ b.0 };

    fn add(self, more: Feet) -> Feet {
        Feet(self.0 + more.0)
    }
}

// The sum of a list of offsets, which become feet here.
pub fn add_up(offsets: &[i32]) -> Option<Feet>
    requires { length offsets.now ≤ 8 }
    ensures { result ≡ summed_of offsets.now }
{
    let mut sum = Feet(0);
    for offset in offsets {
        let x = Feet(*offset);
        if !is_offset(x) {
            return None;
        }
        sum = sum + x;
    }
    Some(sum)
}

// The number nearest to a 750th of a number, a half away from zero.
fn round(exact: i64) -> i64
    requires { mag exact < 2 ^ 40 }
    ensures { result ≡ near exact }
{
    if exact < 0 {
        (exact - 375) / 750
    } else {
        (exact + 375) / 750
    }
}

// A position moved by so many feet. Here alone steps and feet meet: 750 times the old value plus the feet, rounded once.
pub fn move_step(old: LinkSteps, by: Feet) -> Option<LinkSteps>
    ensures { result ≡ moved_by old.0 by.0 }
{
    let exact = 750 * i64::from(old.0) + i64::from(by.0);
    let n = round(exact);
    if (-4096..=4095).contains(&n) {
        Some(LinkSteps(n as i16))
    } else {
        None
    }
}

// The altitude of so many feet, never 0: 9.
pub fn altitude(feet: Feet) -> Result<AltSteps, Refusal>
    ensures { result ≡ height_of feet.0 }
{
    let f = feet.0;
    if f <= 375 {
        return Ok(AltSteps(1));
    }
    let steps = (f as u32 + 187) / 375;
    if 511 < steps {
        return Err(Refusal::of(refusal::OUT_OF_RANGE));
    }
    Ok(AltSteps(steps as u16))
}
