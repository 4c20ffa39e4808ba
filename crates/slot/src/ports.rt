// Which of the 128 relay ports from 49152 on are held, a bit for each. Two words and no array: a survey of the slots is passed on in registers.
ghost use Rattle.std.specs.Prelude.{◌≡◌, true, false, ℕ, ◌<◌, get_or, set};
ghost use Rattle.slot.specs.Inner.{bits_of, held_in};

#[derive(Clone, Copy)]
pub struct Ports {
    // Bit k is the port 49152 + k.
    pub low: u64,
    // Bit k is the port 49216 + k.
    pub high: u64,
}

fn bit_at(word: u64, k: u64) -> bool
    requires { k < 64 }
    ensures { result ≡ get_or (bits_of 64 word) k false }
{
    (word >> k) % 2 == 1
}

fn with_bit(word: u64, k: u64) -> u64
    requires { k < 64 }
    ensures { bits_of 64 result ≡ set (bits_of 64 word) k true }
{
    word | (1 << k)
}

pub fn no_ports() -> Ports
    ensures { (k : ℕ) → k < 128 → get_or (held_in result) k false ≡ false }
{
    Ports { low: 0, high: 0 }
}

// Whether the port 49152 + k is held.
pub fn is_held(ports: Ports, k: u64) -> bool
    requires { k < 128 }
    ensures { result ≡ get_or (held_in ports) k false }
{
    if k < 64 {
        return bit_at(ports.low, k);
    }
    bit_at(ports.high, k - 64)
}

// The ports with 49152 + k held too.
pub fn with_port(ports: Ports, k: u64) -> Ports
    requires { k < 128 }
    ensures { held_in result ≡ set (held_in ports) k true }
{
    if k < 64 {
        return Ports {
            low: with_bit(ports.low, k),
            ..ports
        };
    }
    Ports {
        high: with_bit(ports.high, k - 64),
        ..ports
    }
}
