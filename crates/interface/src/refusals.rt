// The refusals, in document 01's order.
ghost use Rattle.std.specs.Prelude.{◌≡◌, ℕ};
ghost use Rattle.interface.specs.Refusals.{refused_caller, refusal};
ghost use Rattle.refusal.specs.Refusal.{number_or, number_of};

use crate::incoming::Call;
use refusal::Refusal;

// The lengths that refusals look at.
#[derive(Clone, Copy)]
pub struct Lengths {
    pub slots: usize,
    pub datagram: usize,
    pub reply: usize,
}

// The refusals of client calls alone.
fn refused_caller(call: Call) -> Result<(), Refusal>
    ensures { (rest : ℕ) → number_or result rest ≡ refused_caller call rest }
{
    match call {
        Call::Client(c) => {
            let five_tuple = c.five_tuple;
            if five_tuple.protocol != 17 {
                return Err(Refusal::NotUdp);
            }
            if 32 < c.user {
                return Err(Refusal::UnknownUser);
            }
            Ok(())
        }
        Call::Peer(_) => Ok(()),
    }
}

// Why a call is refused, or that it is not.
#[tactic(auto, unfolding(crate::specs::Refusals::refusal))]
pub fn refusal(clock: u64, lengths: Lengths, call: Call) -> Result<(), Refusal>
    ensures { number_of result ≡ refusal clock lengths call }
{
    if lengths.reply < 1536 {
        return Err(Refusal::ShortReply);
    }
    if lengths.slots != 64 {
        return Err(Refusal::NotSixtyFourSlots);
    }
    if 1500 < lengths.datagram {
        return Err(Refusal::LongDatagram);
    }
    refused_caller(call)?;
    let time = call.time();
    if 1099511627776 < time {
        return Err(Refusal::TimeTooLate);
    }
    if time < clock {
        return Err(Refusal::TimeBelowClock);
    }
    Ok(())
}
