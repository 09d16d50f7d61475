ghost use Rattle.std.specs.Prelude.{◌≡◌, ◌+◌, ◌^◌, ◌<◌, ◌≤◌, length, Result};
ghost use Rattle.std.specs.Option.{ForSome};
ghost use Rattle.std.specs.Iterator.{YieldsFirstBy, item_count};

use crate::chain::{Context, read_context};
use crate::fault::WireFault;
use std::iter::FusedIterator;

/// The create contexts of a text, in their order, as [`contexts`](crate::contexts) reads them. After
/// its one fault, and after the last context, it gives `None` for good.
#[derive(Debug, Drop)]
pub struct Contexts<'a> {
    place: usize,
    // The text from `place` on where a context is due there.
    rest: Option<&'a [u8]>,
    ghost fits: { ForSome rest (λ bytes. place + length bytes.now < 2 ^ 64) },
}

impl<'a> Contexts<'a> {
    ghost use Rattle.lease_wire.specs.Reading.{items_of};
    ghost use Rattle.lease_wire.specs.Contexts.{items_left};
    ghost use Rattle.lease_wire.specs.Message.{items_from};

    /// The contexts of a text from its start on: none of the empty text.
    pub(crate) fn from_start(bytes: &'a [u8]) -> Contexts<'a>
        ensures { items_left result ≡ items_of bytes.now }
    {
        Contexts {
            place: 0,
            rest: if bytes.is_empty() { None } else { Some(bytes) },
        }
    }

    /// The contexts of a text that begins at a place.
    pub(crate) fn from_place(place: usize, bytes: &'a [u8]) -> Contexts<'a>
        requires { place + length bytes.now < 2 ^ 64 }
        ensures { items_left result ≡ items_from place bytes.now }
    {
        Contexts {
            place,
            rest: if bytes.is_empty() { None } else { Some(bytes) },
        }
    }
}

impl<'a> Iterator for Contexts<'a> {
    ghost use Rattle.lease_wire.specs.Contexts.{items_left, item_view};

    type Item = Result<Context<'a>, WireFault>;

    ghost next_gives = { YieldsFirstBy item_view items_left };

    ghost remaining = { item_count items_left };

    fn next(&mut self) -> Option<Result<Context<'a>, WireFault>> {
        let bytes = self.rest?;
        match read_context(self.place, bytes) {
            Err(fault) => {
                self.rest = None;
                Some(Err(fault))
            }
            Ok((context, 0)) => {
                self.rest = None;
                Some(Ok(context))
            }
            Ok((context, next)) => {
                self.place += next;
                self.rest = Some(&bytes[next..]);
                Some(Ok(context))
            }
        }
    }

    // Each context takes sixteen bytes at least, and a fault may take none.
    fn size_hint(&self) -> (usize, Option<usize>) {
        match self.rest {
            Some(bytes) => (0, Some(bytes.len() / 16 + 1)),
            None => (0, Some(0)),
        }
    }
}

impl<'a> FusedIterator for Contexts<'a> {}
