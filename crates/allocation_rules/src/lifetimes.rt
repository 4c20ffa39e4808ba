// The lifetime granted, and how much of it is left.
ghost use Rattle.std.specs.Prelude.{◌≡◌, min, max};
ghost use Rattle.allocation_rules.specs.Allocations.{granted, granted_refresh, seconds_left};

use stun::values::NumberValue;

// At least 600 seconds, and at most 3600.
fn clamped(seconds: u32) -> u32
    ensures { result ≡ max 600 (min seconds 3600) }
{
    if seconds < 600 {
        return 600;
    }
    if 3600 < seconds {
        return 3600;
    }
    seconds
}

// The lifetime that an Allocate is granted.
pub(crate) fn granted(asked: NumberValue) -> u32
    ensures { result ≡ granted asked }
{
    match asked {
        NumberValue::Number(seconds) => clamped(seconds),
        NumberValue::WrongLength => 600,
        NumberValue::Absent => 600,
    }
}

// The lifetime that a Refresh is granted.
pub(crate) fn granted_refresh(asked: NumberValue) -> u32
    ensures { result ≡ granted_refresh asked }
{
    match asked {
        NumberValue::Number(seconds) => {
            if seconds == 0 {
                return 0;
            }
            clamped(seconds)
        }
        NumberValue::WrongLength => 600,
        NumberValue::Absent => 600,
    }
}

// The seconds until the expiry, as many as LIFETIME can say.
pub(crate) fn seconds_left(time: u64, expiry: u64) -> u32
    ensures { result ≡ seconds_left time expiry }
{
    if expiry <= time {
        return 0;
    }
    let left = expiry - time;
    if 0xffffffff < left {
        return 0xffffffff;
    }
    left as u32
}
