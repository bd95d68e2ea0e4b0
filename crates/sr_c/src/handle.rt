//! The handle by which a C program holds a node.

ghost use Rattle.std.specs.Prelude.{◌≡◌, Option, None, Some, true, is_some};
ghost use Rattle.std.specs.Coded.{coded_option};
ghost use Rattle.sr_endpoint.specs.declared.endpoint.Endpoint.{Endpoint};
ghost use Rattle.sr_c.specs.Handles.{handle_owns, endpoint_coded};

use sr_endpoint::Endpoint;
use sr_raw_box::RawBox;
use std::alloc::Global;
use std::marker::Model;

/// A handle in the C program's memory: a pointer, NULL where it is closed. An open one owns what a box of its node owns.
#[repr(C)]
#[derive(Drop)]
pub struct Handle {
    pub(crate) at: *mut u8,
    alloc: Global,
    pub(crate) ghost value: { Option Endpoint } by { coded_option endpoint_coded },
}

impl Model for Handle {
    ghost also_owns = { λ h. handle_owns h.alloc h.at h.value };
}

impl Handle {
    /// A closed handle.
    pub(crate) fn closed(alloc: Global) -> Handle
        ensures { result.value ≡ None }
    {
        Handle {
            at: std::ptr::null_mut(),
            alloc,
        }
    }

    /// The handle of a node.
    pub(crate) fn of_raw_box(parts: RawBox<Endpoint, Global>) -> Handle
        ensures { result.value ≡ Some parts.value }
    {
        let RawBox { ptr, alloc } = parts;
        Handle {
            at: ptr as *mut u8,
            alloc,
        }
    }

    /// The node of an open handle.
    pub(crate) fn into_raw_box(self) -> RawBox<Endpoint, Global>
        requires { is_some self.value ≡ true }
        ensures { self.value ≡ Some result.value }
    {
        let Handle { at, alloc } = self;
        RawBox {
            ptr: at as *mut Endpoint,
            alloc,
        }
    }
}

unsafe impl Send for Handle {}
