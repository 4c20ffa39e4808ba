// The relay's entry over a table of another size, which is lent as a slice of records.
ghost use Rattle.std.specs.Prelude.{◌≡◌, ◌≤◌, length, replicate};
ghost use Rattle.state.specs.State.{state};
ghost use Rattle.state.specs.Outcomes.{outcome_of};
ghost use Rattle.state.specs.Step.{act};

use interface::incoming::Call;
use relay::relay_datagram;
use rules::answer::Outcome;
use slot::Slot;
use state::Bookkeeping;

// The outcome over a table of the slot alone, N times.
pub(crate) fn relayed_over<const N: usize>(
    slot: Slot,
    bookkeeping: Bookkeeping,
    call: Call,
    datagram: &[u8],
    reply: &mut [u8],
) -> Outcome
    requires { N ≤ 65 }
    ensures { result ≡ outcome_of (act (state (replicate N slot) bookkeeping) call datagram.now (length reply.old)) }
{
    let mut table = [slot; N];
    let mut kept = bookkeeping;
    relay_datagram(&mut table, &mut kept, call, datagram, reply)
}
