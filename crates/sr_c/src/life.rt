//! How a handle is opened and closed.

ghost use Rattle.std.specs.Prelude.{◌≡◌};
ghost use Rattle.sr_c.specs.Calls.{ClosesAs, OpensAs, ResumesAs};
ghost use Rattle.sr_c.specs.Setups.{setup_by};

use crate::codes::{ARGUMENT, CLOSED, NO_MEMORY, OPEN, snapshot_code};
use crate::handle::Handle;
use crate::making::{SetupEntry, endpoint_of, entry_keys, resumed_of, setup_of};
use sr_raw_box::RawBox;
use std::alloc::Global;

/// The number of this interface. It grows where a call, a struct or a number that a program knows changes.
const ABI: u32 = 2;

/// The number of this interface.
#[unsafe(no_mangle)]
pub extern "C" fn seamless_abi() -> u32
    ensures { result ≡ 2 }
{
    ABI
}

/// The version of the library: 10000 for the first number, 100 for the second, 1 for the third.
const VERSION: u32 = 1100;

/// The version of the library.
#[unsafe(no_mangle)]
pub extern "C" fn seamless_version() -> u32
    ensures { result ≡ 1100 }
{
    VERSION
}

/// Makes a node, which the handle keeps then.
#[unsafe(no_mangle)]
pub extern "C" fn seamless_make(alloc: Global, setup: &SetupEntry, node: &mut Handle) -> u32
    ensures { OpensAs (setup_by setup.now) result node.old.value node.new.value }
{
    if node.is_open() {
        return OPEN;
    }
    let Some(wanted) = setup_of(setup) else {
        return ARGUMENT;
    };
    match endpoint_of(alloc, &wanted, entry_keys(setup)) {
        Ok(endpoint) => {
            *node = Handle::of_raw_box(RawBox::of(endpoint));
            0
        }
        Err(_) => NO_MEMORY,
    }
}

/// Makes a node that goes on with what a snapshot says, which the handle keeps then.
#[unsafe(no_mangle)]
pub extern "C" fn seamless_remake(
    alloc: Global,
    setup: &SetupEntry,
    octets: &[u8],
    node: &mut Handle,
) -> u32
    ensures { ResumesAs (setup_by setup.now) octets.now result node.old.value node.new.value }
{
    if node.is_open() {
        return OPEN;
    }
    let Some(wanted) = setup_of(setup) else {
        return ARGUMENT;
    };
    match resumed_of(alloc, &wanted, entry_keys(setup), octets) {
        Ok(endpoint) => {
            *node = Handle::of_raw_box(RawBox::of(endpoint));
            0
        }
        Err(fault) => snapshot_code(fault),
    }
}

/// Frees the node of a handle, which is closed then.
#[unsafe(no_mangle)]
pub extern "C" fn seamless_close(alloc: Global, node: &mut Handle) -> u32
    ensures { ClosesAs result node.old.value node.new.value }
{
    if !node.is_open() {
        return CLOSED;
    }
    drop(
        std::mem::replace(node, Handle::closed(alloc))
            .into_raw_box()
            .into_box(),
    );
    0
}
