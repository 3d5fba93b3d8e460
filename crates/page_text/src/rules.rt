//! The rules by which requests aren't approved, in the words of docs/PROTOCOL.md.
use canton_model::Reason;

/// The rule by which a participant rejects a view for this reason, to be read behind `holds where`.
pub(crate) fn rule_of(reason: Reason) -> &'static str {
    match reason {
        Reason::RootMismatch => {
            "an envelope to the participant is there, and is no tree of the request"
        }
        Reason::ViewMissing => "none is there, or it isn't complete",
        Reason::WrongSender => {
            "the name in the tree isn't the sender's, or the sender doesn't confirm for a requester, where they are told"
        }
        Reason::WrongCommon => {
            "an action of the core or the first action of a view directly below has no roles; or the view's informees or confirmers aren't those of its core;
or an action of the core below the first starts a view; or the first action of a view directly below doesn't start one"
        }
        Reason::IdMismatch => "the action is not authentic",
        Reason::NotVetted => {
            "the participant has not vetted the package of the action's template"
        }
        Reason::TimeSkew => { "ledger time and the request's time differ by more than the skew" }
        Reason::Locked => "the contract is locked at the request's place",
        Reason::Inactive => {
            "an Exercise or Fetch of a contract that is not active there and that no earlier opened action of the request creates"
        }
        Reason::NotFresh => "a Create of a contract that is not unknown there",
        Reason::Unordered => {
            "an earlier opened action of the request consumes the contract, or the action is a Create and an earlier one is on the contract"
        }
        Reason::NotConformant => { "the view's first action with all below it is not possible" }
        Reason::NotAuthorised => {
            "a child of a core action is not authorised by it, or the first action of a root view is not by the requesters"
        }
    }
}

/// How a request times out.
pub(crate) const TIMED_OUT: &str =
    "An entry whose time is past the deadline settles it as timed out, with the confirming participants that have not responded before it.";

/// How a request expires.
pub(crate) const EXPIRED: &str =
    "Its outcome over a log is its first verdict; without one it is expired where some entry is later than the decision time.";

/// A link to the part of docs/PROTOCOL.md that has the checks of a participant.
pub(crate) const CHECKS: &str =
    " <a href=\"../PROTOCOL.md#a-participant\">docs/PROTOCOL.md, 'A participant'</a>";

/// A link to the part of docs/PROTOCOL.md that has the rules of the log.
pub(crate) const LOG: &str = " <a href=\"../PROTOCOL.md#the-log\">docs/PROTOCOL.md, 'The log'</a>";
