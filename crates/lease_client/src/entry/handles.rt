ghost use Rattle.std.specs.Prelude.{◌≡◌, ◌+◌, ◌-◌, ◌<◌, ◌^◌, None, Some, true, is_some};

use crate::entry::Asked;
use std::marker::Model;

/// How many handles applications have on an open, and the second create, if one is under way, that
/// asks for one more on other terms.
// docs/DECISIONS.md: "A handle count that can't run over".
#[derive(Clone, Copy, Debug)]
pub struct Handles {
    count: u32,
    asking: Option<Asked>,
}

impl Model for Handles {
    ghost use Rattle.std.specs.Prelude.{◌≡◌, ◌+◌, ◌<◌, ◌^◌, true, is_some};
    ghost use Rattle.lease_client.specs.Handles as handles;

    ghost Value = { handles.Handles };

    ghost view = { λ handles. record { count = handles.count; asking = handles.asking } };

    ghost inverse = { λ handles. record { count = handles.count; asking = handles.asking } };

    // There is room for the one that is asked for.
    ghost invariant = { λ handles. is_some handles.asking ≡ true → handles.count + 1 < 2 ^ 32 };
}

impl Handles {
    /// So many, and none is asked for.
    pub fn of(count: u32) -> Handles
        ensures { result ≡ record { count = count; asking = None } }
    {
        Handles {
            count,
            asking: None,
        }
    }

    /// How many there are; with none the entry is parked.
    pub fn count(&self) -> u32
        ensures { result ≡ self.now.count }
    {
        self.count
    }

    /// The access and the share that are asked for.
    pub fn asking(&self) -> Option<Asked>
        ensures { result ≡ self.now.asking }
    {
        self.asking
    }

    /// One more.
    pub fn with_more(self) -> Handles
        requires room { self.count + 1 < 2 ^ 32 }
        requires idle { self.asking ≡ None }
        ensures { result ≡ record self { count = self.count + 1 } }
    {
        Handles {
            count: self.count + 1,
            asking: None,
        }
    }

    /// One less, if there is one.
    pub fn with_less(self) -> Handles
        ensures { result ≡ record self { count = self.count - 1 } }
    {
        Handles {
            count: self.count.saturating_sub(1),
            asking: self.asking,
        }
    }

    /// One more is asked for.
    pub fn with_asked(self, asked: Asked) -> Handles
        requires { self.count + 1 < 2 ^ 32 }
        ensures { result ≡ record self { asking = Some asked } }
    {
        Handles {
            count: self.count,
            asking: Some(asked),
        }
    }

    /// What was asked for is refused.
    pub fn with_refused(self) -> Handles
        ensures { result ≡ record self { asking = None } }
    {
        Handles {
            count: self.count,
            asking: None,
        }
    }

    /// The one that was asked for is there.
    pub fn with_granted(self) -> Handles
        requires { is_some self.asking ≡ true }
        ensures { result ≡ record { count = self.count + 1; asking = None } }
    {
        Handles {
            count: self.count + 1,
            asking: None,
        }
    }
}
