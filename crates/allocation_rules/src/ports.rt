// The port of a new allocation.
ghost use Rattle.std.specs.Prelude.{◌≡◌};
ghost use Rattle.slot.specs.Inner.{held_in};
ghost use Rattle.allocation_rules.specs.Allocations.{port_for};

use slot::ports::{Ports, is_held};

// The first port from the start on that is not held.
pub fn port_for(held: Ports, start: u32) -> u16
    ensures { result ≡ port_for (held_in held) start }
{
    let from = (start % 128) as u64;
    for i in 0..128u64 {
        let k = (from + i) % 128;
        let taken = is_held(held, k);
        if !taken {
            return 49152 + k as u16;
        }
    }
    49152 + from as u16
}
