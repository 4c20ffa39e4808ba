// What a look over the slots learns: a survey of no slots, and of one slot more.
ghost use Rattle.std.specs.Prelude.{◌≡◌, true, false, ℕ, ◌+◌, ◌<◌, ◌^◌, eqb, get_or};
ghost use Rattle.choice.specs.Choice.{pick};
ghost use Rattle.slot.specs.Inner.{held_in};
ghost use Rattle.table.specs.Inner.{place_of, SurveyedNone, SurveyedWith};

use crate::keys::{Wanted, matches};
use slot::Allocation;
use slot::allocations::{allocation_is_live, holds_user};
use slot::ports::{Ports, no_ports, with_port};

#[derive(Clone, Copy)]
pub struct Survey {
    // The lowest live slot of the key.
    pub own: Option<usize>,
    // How many live slots the user holds.
    pub held: usize,
    // The lowest slot that isn't live.
    pub free: Option<usize>,
    // The ports that live slots hold.
    pub ports: Ports,
}

pub(crate) fn first_survey() -> Survey
    ensures { SurveyedNone result }
{
    Survey {
        own: None,
        held: 0,
        free: None,
        ports: no_ports(),
    }
}

// The survey that knows of the key's slot alone.
pub(crate) fn only_own(own: Option<usize>) -> Survey
    ensures { result.own ≡ own }
{
    Survey {
        own,
        ..first_survey()
    }
}

// The place that was found; it is asked for only where there is one.
pub fn place_of(found: Option<usize>) -> usize
    ensures { result ≡ place_of found }
{
    found.unwrap_or(0)
}

fn counted(count: usize, counts: bool) -> usize
    requires { count < 2 ^ 63 }
    ensures { result ≡ pick counts (count + 1) count }
{
    if counts { count + 1 } else { count }
}

// The ports with this one held too, if it is one of the 128 from 49152 on, which is 384 * 128.
fn mark(port: u16, ports: Ports) -> Ports
    ensures { (k : ℕ) → k < 128 → get_or (held_in result) k false ≡ pick (get_or (held_in ports) k false) true (eqb port (49152 + k)) }
{
    if port / 128 != 384 {
        return ports;
    }
    with_port(ports, (port % 128) as u64)
}

// The survey of the slots before slot i and of it, which has this allocation. What most slots are is tested first.
pub(crate) fn surveyed_with(
    survey: Survey,
    i: usize,
    wanted: Wanted,
    user: u8,
    allocation: Allocation,
) -> Survey
    requires { survey.held < 2 ^ 63 }
    ensures { SurveyedWith survey i wanted user allocation result }
{
    let time = wanted.time;
    if !allocation_is_live(time, allocation) {
        return Survey {
            free: survey.free.or(Some(i)),
            ..survey
        };
    }
    let held = counted(survey.held, holds_user(time, user, allocation));
    let ports = mark(allocation.port, survey.ports);
    if !matches(time, wanted.key, allocation) {
        return Survey {
            held,
            ports,
            ..survey
        };
    }
    Survey {
        own: survey.own.or(Some(i)),
        held,
        ports,
        ..survey
    }
}
