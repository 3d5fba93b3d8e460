//! Why a log isn't one that a synchroniser writes.

/// Why an entry doesn't fit the log before it: the first case that it shows, in this order.
#[derive(Clone, Copy, PartialEq, Eq)]
pub enum Why {
    /// Its time doesn't follow that of the last entry.
    Time,
    /// A request that isn't framed.
    Unframed,
    /// It repeats a sender and command, a participant's response, or a verdict on one request.
    Repeated,
    /// It responds to or decides nothing, or its sender isn't asked there.
    NoRequest,
    /// A response or a verdict after the decision time.
    TooLate,
    /// A response other than the one that its sender owes.
    WrongCheck,
    /// A verdict other than the mediator's decision.
    WrongDecision,
    /// A request with the command of a rule, which isn't what that rule may cause.
    WrongTrigger,
}
