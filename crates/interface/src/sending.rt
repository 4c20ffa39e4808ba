// What an outcome sends, shown as a part of the reply or of the datagram and not copied.
ghost use Rattle.std.specs.Prelude.{◌≡◌};
ghost use Rattle.interface.specs.Sending.{sent};

use rules::answer::Outcome;
use wire::part;

pub fn what_to_send<'a>(outcome: Outcome, datagram: &'a [u8], reply: &'a [u8]) -> &'a [u8]
    ensures { result.now ≡ sent outcome datagram.now reply.now }
{
    match outcome {
        Outcome::Refused(_) => &reply[..0],
        Outcome::DroppedLapsed => &reply[..0],
        Outcome::DroppedNever => &reply[..0],
        Outcome::DroppedOther => &reply[..0],
        Outcome::ToClient { five_tuple: _, len } => part(reply, 0, len),
        Outcome::ToPeer {
            port: _,
            peer: _,
            start,
            len,
        } => part(datagram, start, len),
    }
}
