//! The node behind a handle, borrowed.

ghost use Rattle.std.specs.Prelude.{◌≡◌, Some, is_some, true};
ghost use types.Logic.{sem};
ghost use Rattle.sr_c.specs.Follows.{handle_follows};

use crate::handle::Handle;
use sr_endpoint::Endpoint;

impl Handle {
    /// Whether the handle is open.
    pub(crate) fn is_open(&mut self) -> bool
        ensures { (result ≡ is_some self.old.value) × (self.new ≡ self.old) }
    {
        !self.at.is_null()
    }

    /// The node behind an open handle.
    pub(crate) fn as_mut(&mut self) -> &mut Endpoint
        requires { is_some self.old.value ≡ true }
        ensures* writes_back { sem 𝓛 (handle_follows self.entry result) }
        ensures value { self.old.value ≡ Some result.now }
    {
        unsafe { &mut *(self.at as *mut Endpoint) }
    }
}
