// A slot's permissions: fresh, live, the one for an IP address, what is known of an IP address, and the entry that takes one.
ghost use Rattle.std.specs.Prelude.{◌≡◌, ◌≤◌, ◌^◌};
ghost use Rattle.slot.specs.Search.{find};
ghost use Rattle.slot.specs.Slot.{fresh_permission, live_permission, free_permission, permits, permission_state, permission_entry, permit};
ghost use Rattle.slot.specs.Inner.{made};

use crate::{Permission, Slot, is_live};
use address::Address;

// What the permissions say of an IP address: one is live for it, or one was, or there is none for it.
#[derive(Clone, Copy)]
pub enum PermissionState {
    Live,
    Lapsed,
    Never,
}

pub(crate) fn fresh_permission() -> Permission
    ensures { result ≡ fresh_permission }
{
    let address = Address::V4(0);
    Permission { address, expiry: 0 }
}

pub fn permission_is_live(time: u64, permission: Permission) -> bool
    ensures { result ≡ live_permission time permission }
{
    is_live(time, permission.expiry)
}

// Whether the permission is live and for the IP address, at any port.
// One line each: a function over the test would need a contract about every test.
#[tactic(auto, using(address::proofs::Laws::eq_address), unfolding(crate::specs::Slot::permits, choice::specs::Choice::both))]
pub(crate) fn permits(time: u64, address: Address, permission: Permission) -> bool
    ensures { result ≡ permits time address permission }
{
    permission_is_live(time, permission) && permission.address == address
}

// The lowest live permission for the IP address.
// One line each: a function over the test would need a contract about every test.
pub(crate) fn find_permission(
    time: u64,
    address: Address,
    permissions: [Permission; 8],
) -> Option<usize>
    ensures { result ≡ find (permits time address) permissions }
{
    permissions
        .iter()
        .position(|permission| permits(time, address, *permission))
}

// What the permissions say of the IP address. An entry with an expiry above 0 is one that is live at 0.
pub fn permission_state(
    time: u64,
    address: Address,
    permissions: [Permission; 8],
) -> PermissionState
    ensures { result ≡ permission_state time address permissions }
{
    if find_permission(time, address, permissions).is_some() {
        return PermissionState::Live;
    }
    if find_permission(0, address, permissions).is_some() {
        return PermissionState::Lapsed;
    }
    PermissionState::Never
}

// The lowest permission that isn't live. A trait of what expires would be longer than this and the one of channels.
fn lowest_free(time: u64, permissions: [Permission; 8]) -> Option<usize>
    ensures { result ≡ find (free_permission time) permissions }
{
    permissions
        .iter()
        .position(|permission| !permission_is_live(time, *permission))
}

// The entry for an IP address: its live permission, or else the lowest that isn't live.
// As `channel_entry`: a trait of what expires, for the two lines of each, would be longer than both.
pub(crate) fn permission_entry(
    time: u64,
    address: Address,
    permissions: [Permission; 8],
) -> Option<usize>
    ensures { result ≡ permission_entry time address permissions }
{
    let live = find_permission(time, address, permissions);
    let free = lowest_free(time, permissions);
    live.or(free)
}

// The slot with a permission for the IP address that lasts 300 seconds from now, where there is room for it.
pub fn permit(time: u64, address: Address, slot: Slot) -> Option<Slot>
    requires { time ≤ 2 ^ 40 }
    ensures { result ≡ made (permit time address slot) }
{
    let entry = permission_entry(time, address, slot.permissions)?;
    let mut permitted = slot;
    permitted.permissions[entry] = Permission {
        address,
        expiry: time + 300,
    };
    Some(permitted)
}
