// The layout of a STUN message: the test of its header and of the fit of its attributes, and the attributes that are read, in order.
ghost use Rattle.std.specs.Prelude.{◌≡◌};
ghost use Rattle.stun.specs.Message.{step_at, attributes_fit, is_well_formed, is_integrity, is_unknown, attributes_from, attributes, first_of};
ghost use Rattle.stun.specs.Inner.{attributes_left, unknowns};

use crate::kinds::AttributeKind;
use wire::Number;

#[derive(Clone, Copy)]
pub struct Attribute {
    pub number: u16,
    // Where the value starts in the datagram, and its length without padding.
    pub start: usize,
    pub len: usize,
}

// What stands at a position among the attributes: three states, which no Option and no Result has.
#[derive(Clone, Copy)]
pub enum Step {
    // An attribute that fits whole, and where the next one starts.
    One { attribute: Attribute, next: usize },
    End,
    Short,
}

#[tactic(auto, unfolding(crate::specs::Message::step_at, crate::specs::Message::next_at))]
pub(crate) fn step_at(s: &[u8], at: usize) -> Step
    ensures { result ≡ step_at s.now at }
{
    if s.len() <= at {
        return Step::End;
    }
    if s.len() - at < 4 {
        return Step::Short;
    }
    let len = u16::at(s, at + 2) as usize;
    let size = 4 + (len + 3) / 4 * 4;
    if s.len() - at < size {
        return Step::Short;
    }
    let attribute = Attribute {
        number: u16::at(s, at),
        start: at + 4,
        len,
    };
    Step::One {
        attribute,
        next: at + size,
    }
}

// Whether each attribute fits whole.
pub(crate) fn attributes_fit(s: &[u8]) -> bool
    ensures { result ≡ attributes_fit s.now }
{
    let mut at = crate::HEADER;
    while let Step::One { next, .. } = step_at(s, at) {
        at = next;
    }
    s.len() <= at
}

// Whether a datagram is a STUN message.
#[tactic(auto, unfolding(crate::specs::Message::is_well_formed))]
pub fn well_formed(s: &[u8]) -> bool
    ensures { result ≡ is_well_formed s.now }
{
    if s.len() < crate::HEADER {
        return false;
    }
    let n = u16::at(s, 2) as usize;
    if n != s.len() - crate::HEADER {
        return false;
    }
    if n % 4 != 0 {
        return false;
    }
    if u32::at(s, 4) != crate::COOKIE {
        return false;
    }
    attributes_fit(s)
}

#[tactic(auto, unfolding(crate::specs::Message::is_integrity))]
fn is_integrity(number: u16) -> bool
    ensures { result ≡ is_integrity number }
{
    number == AttributeKind::MESSAGE_INTEGRITY || number == AttributeKind::MESSAGE_INTEGRITY_SHA256
}

#[tactic(auto, unfolding(crate::specs::Message::is_unknown))]
fn is_unknown(number: u16) -> bool
    ensures { result ≡ is_unknown number }
{
    AttributeKind::of(number) == AttributeKind::Unknown
}

// The attributes that are read, in order.
#[derive(Clone, Copy)]
pub struct Attributes<'a> {
    message: &'a [u8],
    // Where the next one starts.
    at: usize,
}

impl<'a> Attributes<'a> {
    // Those from a place on.
    pub(crate) fn starting_at(message: &'a [u8], at: usize) -> Self
        ensures { attributes_left result ≡ attributes_from message.now at }
    {
        Attributes { message, at }
    }

    pub fn of(message: &'a [u8]) -> Self
        ensures { attributes_left result ≡ attributes message.now }
    {
        Attributes::starting_at(message, crate::HEADER)
    }
}

// Nothing is read from the first MESSAGE-INTEGRITY on.
impl<'a> Iterator for Attributes<'a> {
    ghost use Rattle.std.specs.Iterator.{YieldsFirst, item_count};
    ghost use Rattle.stun.specs.Inner.{attributes_left};

    type Item = Attribute;

    ghost next_gives = { YieldsFirst attributes_left };

    ghost remaining = { item_count attributes_left };

    fn next(&mut self) -> Option<Attribute> {
        match step_at(self.message, self.at) {
            Step::One { attribute, next } => {
                if is_integrity(attribute.number) {
                    return None;
                }
                self.at = next;
                Some(attribute)
            }
            Step::End | Step::Short => None,
        }
    }
}

// The first attribute of a type.
pub fn first_attribute(s: &[u8], number: u16) -> Option<Attribute>
    ensures { result ≡ first_of number (attributes s.now) }
{
    Attributes::of(s).find(|attribute| attribute.number == number)
}

// The first 16 unknown types as met, repeats kept: the first `count` of `types`. An array with a count: no heap, fixed memory.
#[derive(Clone, Copy)]
pub struct UnknownTypes {
    pub types: [u16; 16],
    pub count: usize,
}

pub fn unknown_types(s: &[u8]) -> UnknownTypes
    ensures { result ≡ unknowns s.now }
{
    let mut types = [0u16; 16];
    let mut count: usize = 0;
    for attribute in Attributes::of(s) {
        if count == 16 {
            break;
        }
        if is_unknown(attribute.number) {
            types[count] = attribute.number;
            count += 1;
        }
    }
    UnknownTypes { types, count }
}
