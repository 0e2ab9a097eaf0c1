// Tests on whole numbers. Whoever calls a function here owes its `requires`.
ghost use Rattle.std.specs.Prelude.{◌≡◌, pos, ◌+ℤ◌, ◌*ℤ◌};
ghost use Rattle.std.specs.Int.Signed.{lt_z};
ghost use Rattle.phases.specs.Rules.{unit, slack, InRange, same_integer, in_range, near};

use crate::{SLACK, UNIT};

// Whether a number lies in -UNIT .. UNIT.
pub fn in_unit(z: i64) -> bool
    ensures { result ≡ in_range unit z }
{
    if z < -UNIT {
        return false;
    }
    z <= UNIT
}

// Whether a number lies in -SLACK .. SLACK.
pub fn in_slack(z: i64) -> bool
    ensures { result ≡ in_range slack z }
{
    if z < -SLACK {
        return false;
    }
    z <= SLACK
}

// Whether two numbers are the same.
pub fn same(a: i64, b: i64) -> bool
    ensures { result ≡ same_integer a b }
{
    a == b
}

// Whether one number is below another.
pub fn below(a: i64, b: i64) -> bool
    ensures { result ≡ lt_z a b }
{
    a < b
}

// Whether a b + c d is near UNIT times z. Each product is at most 2^60, so nothing leaves 64 bits.
pub fn sum_near(a: i64, b: i64, c: i64, d: i64, z: i64) -> bool
    requires in_range { (InRange unit a) × (InRange unit b) }
    requires in_range_2 { (InRange unit c) × (InRange unit d) }
    requires in_range_3 { InRange unit z }
    ensures { result ≡ near slack (a *ℤ b +ℤ c *ℤ d) (pos unit *ℤ z) }
{
    in_slack(a * b + c * d - UNIT * z)
}
