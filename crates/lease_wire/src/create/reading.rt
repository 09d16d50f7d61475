ghost use Rattle.std.specs.Prelude.{◌≡◌, false, IfSome};
ghost use Rattle.std.specs.Option.{option_map};
ghost use Rattle.lease_wire.specs.Create.{ask_result, answer_result, asked_view, granted_view, IsReadingOf, ValueIsRead};
ghost use Rattle.lease_wire.specs.Gathering.{with_meaning, value_of, no_values};
ghost use Rattle.lease_wire.specs.Contexts.{view_of};
ghost use Rattle.lease_wire.specs.Names as names;
ghost use Rattle.lease_wire.specs.Views.{lease_of, values_of, values_result, meaning_view};
ghost use Rattle.lease_wire.specs.declared.create.Direction.TheVariants.{Request, Reply};

use crate::chain::{Context, contexts};
use crate::create::meaning::{Lease, Meaning, meaning_of};
use crate::create::{CreateAnswer, CreateAsk, Direction};
use crate::fault::WireFault;
use lease_state::{FileId, LeaseKey, LeaseState};

/// What create contexts ask for or grant, gathered context by context: for those who look at each
/// one on the way. [`read_create`] and [`read_create_reply`] read a whole text.
#[derive(Clone, Copy, Debug, PartialEq, Eq)]
pub struct ContextValues {
    pub lease: Option<Lease>,
    pub durable: bool,
    /// Only a request has one.
    pub reconnect: Option<FileId>,
}

impl ContextValues {
    /// The values of no contexts.
    pub fn nothing() -> ContextValues
        ensures { values_of result ≡ no_values }
    {
        ContextValues {
            lease: None,
            durable: false,
            reconnect: None,
        }
    }

    /// These values with those of one more context of a request or a response.
    ///
    /// # Errors
    ///
    /// `BadLength` or `Twice`, with the context's place, where it breaks a rule of names.
    pub fn with_context(
        self,
        direction: Direction,
        context: &Context,
    ) -> Result<ContextValues, WireFault>
        ensures { values_result result ≡ with_meaning (values_of self) context.now.place
            (names.meaning_of direction (view_of context.now)) }
    {
        self.with(context.place, meaning_of(direction, context))
    }

    // With what the context at a place means, or the rule of names that it breaks.
    fn with(self, place: usize, meaning: Meaning) -> Result<ContextValues, WireFault>
        ensures { values_result result ≡ with_meaning (values_of self) place (meaning_view meaning) }
    {
        match meaning {
            Meaning::Unknown => Ok(self),
            Meaning::WrongLength => Err(WireFault::BadLength(place)),
            Meaning::Lease(_) if self.lease.is_some() => Err(WireFault::Twice(place)),
            Meaning::Durable if self.durable => Err(WireFault::Twice(place)),
            Meaning::Reconnect(_) if self.reconnect.is_some() => Err(WireFault::Twice(place)),
            Meaning::Lease(lease) => Ok(ContextValues {
                lease: Some(lease),
                ..self
            }),
            Meaning::Durable => Ok(ContextValues {
                durable: true,
                ..self
            }),
            Meaning::Reconnect(file_id) => Ok(ContextValues {
                reconnect: Some(file_id),
                ..self
            }),
        }
    }
}

// What the contexts of a text ask for or grant, or the first fault.
#[inline(always)]
#[tactic(auto, unfolding(crate::specs::Gathering::gathered))]
fn gather(direction: Direction, bytes: &[u8]) -> Result<ContextValues, WireFault>
    ensures { values_result result ≡ value_of direction bytes.now }
{
    let mut values = ContextValues::nothing();
    for item in contexts(bytes) {
        let context = item?;
        values = values.with_context(direction, &context)?;
    }
    Ok(values)
}

// A request reports no break in progress.
fn asked_lease(lease: Option<Lease>) -> Option<(LeaseKey, LeaseState)>
    requires { IfSome lease (λ lease. lease.breaking ≡ false) }
    ensures { option_map lease_of lease ≡ option_map asked_view result }
{
    match lease {
        Some(lease) => Some((lease.key, lease.state)),
        None => None,
    }
}

fn granted_lease(lease: Option<Lease>) -> Option<(LeaseKey, LeaseState, bool)>
    ensures { option_map lease_of lease ≡ option_map granted_view result }
{
    match lease {
        Some(lease) => Some((lease.key, lease.state, lease.breaking)),
        None => None,
    }
}

/// Reads the create contexts of a CREATE request (MS-SMB2 2.2.13.2). A text of no bytes asks for
/// nothing; contexts that aren't known are passed over.
///
/// # Errors
///
/// The first fault in the order of the text. Within a context the tests come in the order of the
/// faults' numbers. Reading allocates nothing.
pub fn read_create(bytes: &[u8]) -> Result<CreateAsk, WireFault>
    ensures reading { IsReadingOf Request bytes.now (ask_result result) }
    ensures value { ask_result result ≡ value_of Request bytes.now }
{
    match gather(Direction::Request, bytes) {
        Err(fault) => Err(fault),
        Ok(values) => Ok(CreateAsk {
            lease: asked_lease(values.lease),
            durable: values.durable,
            reconnect: values.reconnect,
        }),
    }
}

/// Reads the create contexts of a CREATE response (MS-SMB2 2.2.14.2), as [`read_create`] those of
/// a request. A `DHnC` is not known there.
///
/// # Errors
///
/// As those of [`read_create`].
pub fn read_create_reply(bytes: &[u8]) -> Result<CreateAnswer, WireFault>
    ensures reading { IsReadingOf Reply bytes.now (answer_result result) }
    ensures value { answer_result result ≡ value_of Reply bytes.now }
{
    match gather(Direction::Reply, bytes) {
        Err(fault) => Err(fault),
        Ok(values) => Ok(CreateAnswer {
            lease: granted_lease(values.lease),
            durable: values.durable,
        }),
    }
}

/// Laws of reading: the function that contracts compute with is right for every text. Does nothing.
pub fn reading_laws()
    ensures { ValueIsRead }
{}
