// The services that code may ask for, and their numbers.
ghost use Rattle.std.specs.Prelude.{◌≡◌};
ghost use Rattle.rgctx_fill.specs.ServiceTable.{low_service, high_service, service_of};

/// A service, in the order of the numbers that x17 has at ECALL. This project's own.
#[derive(Clone, Copy, Debug, PartialEq, Eq)]
pub enum ServiceKind {
    Call,
    Return,
    Raise,
    Throw,
    Fill,
    FindSlot,
    Assignable,
    Element,
    Alloc,
    TypeOf,
    Length,
    Load,
    Save,
    Exchange,
    CompareExchange,
    Add,
    Print,
    Start,
    Ended,
}

impl ServiceKind {
    /// The service with a number; None where the table lacks it.
    pub fn of(number: u64) -> Option<ServiceKind>
        ensures { result ≡ service_of number }
    {
        if number < 16 {
            low_service(number)
        } else {
            high_service(number)
        }
    }
}

// Calls, throws, fills and types.
fn low_service(number: u64) -> Option<ServiceKind>
    ensures { result ≡ low_service number }
{
    match number {
        1 => Some(ServiceKind::Call),
        2 => Some(ServiceKind::Return),
        3 => Some(ServiceKind::Raise),
        4 => Some(ServiceKind::Throw),
        5 => Some(ServiceKind::Fill),
        6 => Some(ServiceKind::FindSlot),
        7 => Some(ServiceKind::Assignable),
        8 => Some(ServiceKind::Element),
        _ => None,
    }
}

// Requests.
fn high_service(number: u64) -> Option<ServiceKind>
    ensures { result ≡ high_service number }
{
    match number {
        16 => Some(ServiceKind::Alloc),
        17 => Some(ServiceKind::TypeOf),
        18 => Some(ServiceKind::Length),
        19 => Some(ServiceKind::Load),
        20 => Some(ServiceKind::Save),
        21 => Some(ServiceKind::Exchange),
        22 => Some(ServiceKind::CompareExchange),
        23 => Some(ServiceKind::Add),
        24 => Some(ServiceKind::Print),
        25 => Some(ServiceKind::Start),
        26 => Some(ServiceKind::Ended),
        _ => None,
    }
}
