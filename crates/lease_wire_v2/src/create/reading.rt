ghost use Rattle.std.specs.Prelude.{◌≡◌, false, true, IfSome};
ghost use Rattle.std.specs.Option.{option_map};
ghost use Rattle.lease_wire.specs.Contexts.{view_of};
ghost use Rattle.lease_wire.specs.declared.create.Direction.TheVariants.{Request, Reply};
ghost use Rattle.lease_wire_v2.specs.Names as names;
ghost use Rattle.lease_wire_v2.specs.Names.{goes_with};
ghost use Rattle.lease_wire_v2.specs.Faults as faults;
ghost use Rattle.lease_wire_v2.specs.Gathering.{no_values, added, with_meaning, value_of, IsReadingOf, ValueIsRead};
ghost use Rattle.lease_wire_v2.specs.Views.{lease_view_of, asked_lease, any_durable, asked_durable, granted_durable};
ghost use Rattle.lease_wire_v2.specs.Views.{reconnect_view, meaning_view, values_of, values_result, ask_result, answer_result};

use crate::create::meaning::{AnyDurable, Meaning, meaning_of};
use crate::create::{
    CreateAnswerV2, CreateAskV2, DurableAnswer, DurableAsk, LeaseAnswer, LeaseAsk, Reconnect,
};
use crate::fault::CreateFault;
use lease_wire::{Context, Direction, WireFault, contexts};

/// What create contexts ask for or grant, gathered context by context.
#[derive(Clone, Copy)]
pub(crate) struct Values {
    pub(crate) lease: Option<LeaseAnswer>,
    pub(crate) durable: Option<AnyDurable>,
    pub(crate) reconnect: Option<Reconnect>,
}

fn goes_with(durable: AnyDurable, reconnect: Reconnect) -> bool
    ensures { result ≡ goes_with (any_durable durable) (reconnect_view reconnect) }
{
    matches!(
        (durable, reconnect),
        (AnyDurable::First, Reconnect::First(_))
    )
}

fn is_of_one_name(durable: AnyDurable, other: AnyDurable) -> bool
    ensures { result ≡ faults.is_of_one_name (any_durable durable) (any_durable other) }
{
    matches!(durable, AnyDurable::First) == matches!(other, AnyDurable::First)
}

fn reconnects_of_one_name(reconnect: Reconnect, other: Reconnect) -> bool
    ensures { result ≡ faults.reconnects_of_one_name (reconnect_view reconnect) (reconnect_view other) }
{
    matches!(reconnect, Reconnect::First(_)) == matches!(other, Reconnect::First(_))
}

fn again(named: bool, place: usize) -> CreateFault
    ensures { result ≡ faults.again named place }
{
    if named {
        CreateFault::Wire(WireFault::Twice(place))
    } else {
        CreateFault::Excluded(place)
    }
}

impl Values {
    fn nothing() -> Values
        ensures { values_of result ≡ no_values }
    {
        Values {
            lease: None,
            durable: None,
            reconnect: None,
        }
    }

    fn durable_fault(&self, place: usize, durable: AnyDurable) -> Option<CreateFault>
        ensures { result ≡ faults.durable_fault place (any_durable durable)
            (values_of self.now).durable (values_of self.now).reconnect }
    {
        match (self.durable, self.reconnect) {
            (Some(other), _) => Some(again(is_of_one_name(durable, other), place)),
            (None, Some(reconnect)) if !goes_with(durable, reconnect) => {
                Some(CreateFault::Excluded(place))
            }
            _ => None,
        }
    }

    fn reconnect_fault(&self, place: usize, reconnect: Reconnect) -> Option<CreateFault>
        ensures { result ≡ faults.reconnect_fault place (reconnect_view reconnect)
            (values_of self.now).reconnect (values_of self.now).durable }
    {
        match (self.reconnect, self.durable) {
            (Some(other), _) => Some(again(reconnects_of_one_name(reconnect, other), place)),
            (None, Some(durable)) if !goes_with(durable, reconnect) => {
                Some(CreateFault::Excluded(place))
            }
            _ => None,
        }
    }

    // The rule of names that a context at a place breaks after these.
    fn fault(&self, place: usize, meaning: Meaning) -> Option<CreateFault>
        ensures { result ≡ faults.meaning_fault (values_of self.now) place (meaning_view meaning) }
    {
        match meaning {
            Meaning::Unknown => None,
            Meaning::WrongLength => Some(CreateFault::Wire(WireFault::BadLength(place))),
            Meaning::Lease(_) if self.lease.is_some() => {
                Some(CreateFault::Wire(WireFault::Twice(place)))
            }
            Meaning::Lease(_) => None,
            Meaning::Durable(durable) => self.durable_fault(place, durable),
            Meaning::Reconnect(reconnect) => self.reconnect_fault(place, reconnect),
        }
    }

    // With what a context says.
    fn added(self, meaning: Meaning) -> Values
        ensures { values_of result ≡ added (values_of self) (meaning_view meaning) }
    {
        match meaning {
            Meaning::Unknown | Meaning::WrongLength => self,
            Meaning::Lease(lease) => Values {
                lease: Some(lease),
                ..self
            },
            Meaning::Durable(durable) => Values {
                durable: Some(durable),
                ..self
            },
            Meaning::Reconnect(reconnect) => Values {
                reconnect: Some(reconnect),
                ..self
            },
        }
    }

    // With what the context says, or the rule of names that it breaks.
    fn with_context(self, direction: Direction, context: &Context) -> Result<Values, CreateFault>
        ensures { values_result result ≡ with_meaning (values_of self) context.now.place
            (names.meaning_of direction (view_of context.now)) }
    {
        let meaning = meaning_of(direction, context);
        match self.fault(context.place, meaning) {
            Some(fault) => Err(fault),
            None => Ok(self.added(meaning)),
        }
    }
}

// What the contexts of a text ask for or grant, or the first fault.
#[tactic(auto, unfolding(crate::specs::Gathering::gathered))]
fn gather(direction: Direction, bytes: &[u8]) -> Result<Values, CreateFault>
    ensures { values_result result ≡ value_of direction bytes.now }
{
    let mut values = Values::nothing();
    for item in contexts(bytes) {
        match item {
            Err(fault) => return Err(CreateFault::Wire(fault)),
            Ok(context) => values = values.with_context(direction, &context)?,
        }
    }
    Ok(values)
}

// A request reports no break in progress.
fn lease_asked(lease: Option<LeaseAnswer>) -> Option<LeaseAsk>
    requires { IfSome lease (λ lease. lease.breaking ≡ false) }
    ensures { option_map lease_view_of lease ≡ option_map asked_lease result }
{
    match lease {
        Some(lease) => Some(LeaseAsk {
            key: lease.key,
            state: lease.state,
            second: lease.second,
        }),
        None => None,
    }
}

// A request grants nothing.
fn durable_asked(durable: Option<AnyDurable>) -> Option<DurableAsk>
    requires { IfSome durable (λ durable. names.is_directed Request (any_durable durable) ≡ true) }
    ensures { option_map any_durable durable ≡ option_map asked_durable result }
{
    match durable {
        Some(AnyDurable::First) => Some(DurableAsk::First),
        Some(AnyDurable::Asked(ask)) => Some(DurableAsk::Second(ask)),
        _ => None,
    }
}

// A response asks for nothing.
fn durable_granted(durable: Option<AnyDurable>) -> Option<DurableAnswer>
    requires { IfSome durable (λ durable. names.is_directed Reply (any_durable durable) ≡ true) }
    ensures { option_map any_durable durable ≡ option_map granted_durable result }
{
    match durable {
        Some(AnyDurable::First) => Some(DurableAnswer::First),
        Some(AnyDurable::Granted(grant)) => Some(DurableAnswer::Second(grant)),
        _ => None,
    }
}

/// Reads the create contexts of a CREATE request, of either version (MS-SMB2 2.2.13.2). A text of no bytes asks for nothing;
/// contexts that aren't known are passed over. Reading allocates nothing.
///
/// # Errors
///
/// The first fault in the order of the text. Within a context the tests come in this order: its layout, as `lease_wire` has it;
/// the length of its data (`BadLength`), which is 32 or 52 of `RqLs`, 16 of `DHnQ` and `DHnC`, 32 of `DH2Q` and 36 of `DH2C`;
/// an earlier context of the same name (`Twice`); and an earlier durable context that excludes it (`Excluded`). Of durable
/// contexts only `DHnQ` and `DHnC` go together.
pub fn read_create_v2(bytes: &[u8]) -> Result<CreateAskV2, CreateFault>
    ensures reading { IsReadingOf Request bytes.now (ask_result result) }
    ensures value { ask_result result ≡ value_of Request bytes.now }
{
    match gather(Direction::Request, bytes) {
        Err(fault) => Err(fault),
        Ok(values) => Ok(CreateAskV2 {
            lease: lease_asked(values.lease),
            durable: durable_asked(values.durable),
            reconnect: values.reconnect,
        }),
    }
}

/// Reads the create contexts of a CREATE response, of either version (MS-SMB2 2.2.14.2), as [`read_create_v2`] those of a
/// request. `DHnQ` and `DH2Q` have 8 bytes of data there; `DHnC` and `DH2C` are not known.
///
/// # Errors
///
/// As those of [`read_create_v2`].
pub fn read_create_reply_v2(bytes: &[u8]) -> Result<CreateAnswerV2, CreateFault>
    ensures reading { IsReadingOf Reply bytes.now (answer_result result) }
    ensures value { answer_result result ≡ value_of Reply bytes.now }
{
    match gather(Direction::Reply, bytes) {
        Err(fault) => Err(fault),
        Ok(values) => Ok(CreateAnswerV2 {
            lease: values.lease,
            durable: durable_granted(values.durable),
        }),
    }
}

/// The law of reading: the function that contracts compute with is right for every text. Does nothing.
pub fn create_laws()
    ensures { ValueIsRead }
{}
