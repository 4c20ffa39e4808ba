// The refusals: why a call, a listing or a text of denied prefixes is not taken. Each has the number that document 01 gives it, or the
// request that brought it.
#![tactic(auto)]

ghost use Rattle.std.specs.Prelude.{◌≡◌};
ghost use Rattle.refusal.specs.Refusal.{number, numbered};

#[derive(Clone, Copy, PartialEq, Eq)]
pub enum Refusal {
    // The time is below the clock.
    TimeBelowClock,
    // The time is over 2^40.
    TimeTooLate,
    ShortReply,
    LongDatagram,
    // The user is over 32.
    UnknownUser,
    NotSixtyFourSlots,
    // The protocol is not 17.
    NotUdp,
    // The output is shorter than the listing.
    ShortOutput,
    // A line of denied prefixes is not of the form.
    BadLine,
    // The denied prefixes need more than 512 nodes.
    TooManyNodes,
}

impl Refusal {
    pub fn number(self) -> u8
        ensures { result ≡ number self }
    {
        match self {
            Refusal::TimeBelowClock => 1,
            Refusal::TimeTooLate => 2,
            Refusal::ShortReply => 3,
            Refusal::LongDatagram => 4,
            Refusal::UnknownUser => 5,
            Refusal::NotSixtyFourSlots => 6,
            Refusal::NotUdp => 7,
            Refusal::ShortOutput => 8,
            Refusal::BadLine => 9,
            Refusal::TooManyNodes => 10,
        }
    }

    // The refusal of a number, if it is one's.
    pub fn of(number: u8) -> Option<Self>
        ensures { result ≡ numbered number }
    {
        match number {
            1 => Some(Refusal::TimeBelowClock),
            2 => Some(Refusal::TimeTooLate),
            3 => Some(Refusal::ShortReply),
            4 => Some(Refusal::LongDatagram),
            5 => Some(Refusal::UnknownUser),
            6 => Some(Refusal::NotSixtyFourSlots),
            7 => Some(Refusal::NotUdp),
            8 => Some(Refusal::ShortOutput),
            9 => Some(Refusal::BadLine),
            10 => Some(Refusal::TooManyNodes),
            _ => None,
        }
    }
}
