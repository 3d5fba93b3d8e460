//! Laws of what submissions want, each the contract of a function with nothing to do.
ghost use Rattle.std.specs.Prelude.{◌≡◌, ◌||◌, ℕ, true, false, List, Ok, Err, Some, None, []};
ghost use Rattle.ledger_terms.specs.declared.known.Known.{Known};
ghost use Rattle.ledger_terms.specs.declared.submission.Submission.{Submission};
ghost use Rattle.ledger_terms.specs.declared.topology.Topology.{Topology};
ghost use Rattle.ledger_terms.specs.Trees.{Actions};
ghost use Rattle.ledger_model.specs.Terms.{Hash, ParticipantId};
ghost use Rattle.canton_model.specs.Genuine.{Genuine};
ghost use Rattle.canton_model.specs.declared.entry.Entry.{Entry};
ghost use Rattle.canton_model.specs.Inbox.{Item, inbox, is_stakeholder_hosted, node_active};
ghost use Rattle.canton_model.specs.Reading.{Reading};
ghost use Rattle.canton_model.specs.declared.request.Request.{Request};
ghost use Rattle.world_model.specs.Machine.{IsMachine};
ghost use Rattle.lang_eval.specs.Found.{Packages};
ghost use Rattle.lang_eval.specs.Named.{AreKnown};
ghost use Rattle.interpret.specs.NamedParties.{parties_in_contracts};
ghost use Rattle.contract_store.specs.Active.{knowns};
ghost use Rattle.contract_store.specs.Below.{placed_below};
ghost use Rattle.contract_store.specs.Rows.{consumed, created, row_of};
ghost use Rattle.contract_store.specs.Written.{written};
ghost use Rattle.contract_store.specs.declared.row.StoreRow.{StoreRow};
ghost use Rattle.std.specs.Str.{bytes_eq};
ghost use Rattle.sealed_form.specs.SealedForm.{CanBeSealed, IsSealedForm};
ghost use Rattle.sealed_form.specs.Within.{is_hosted};
ghost use Rattle.framed_form.specs.Framed.{is_framed};
ghost use Rattle.framed_form.specs.FramedReading.{framed_reading};
ghost use Rattle.prepare_request.specs.Causes.{AreWanted, HasCause, IsRequestOf};
ghost use Rattle.prepare_request.specs.Hosted.{AreTold, TellHosted, hosted_rows, is_among};
ghost use Rattle.prepare_request.specs.Machine.{Offered, machine_over, prepare_over};
ghost use Rattle.prepare_request.specs.Opens.{OpensByRules};
ghost use Rattle.prepare_request.specs.Prepared.{prepared, request_for, tx_for, whole_for};
ghost use Rattle.prepare_request.specs.declared.submit_fault.SubmitFault.{SubmitFault};

/// What is prepared is the request of the transaction that the submission wants, and there is no other.
pub fn prepared_requests_are_wanted()
    ensures given { (topology : Topology) (packages : Packages) (me : ℕ) (known : List Known) (what : Submission) (now : ℕ) (request : Request)
        → prepared topology packages me known what now ≡ Ok request
        → IsRequestOf topology packages me known what now request }
    ensures wanted { (topology : Topology) (packages : Packages) (me : ℕ) (known : List Known) (what : Submission) (now : ℕ) (request : Request)
        → IsRequestOf topology packages me known what now request
        → prepared topology packages me known what now ≡ Ok request }
{}

/// Where `prepared` gives a fault for a submission, the cause that the fault says is there: the participant doesn't confirm for a requester
/// (NotHosted), the commands or the prepared tree stop with it (Command), or the wanted transaction can't be split into views (Split). It gives no
/// other fault.
pub fn faults_have_causes()
    ensures { (topology : Topology) (packages : Packages) (me : ℕ) (known : List Known) (what : Submission) (now : ℕ) (fault : SubmitFault)
        → prepared topology packages me known what now ≡ Err fault
        → HasCause topology packages me known what now fault }
{}

/// A submission that has the cause of a fault (`HasCause`) is refused with that fault. With `faults_have_causes` a fault is given exactly where its
/// cause holds, so no two faults have their causes at once.
pub fn causes_are_given()
    ensures { (topology : Topology) (packages : Packages) (me : ℕ) (known : List Known) (what : Submission) (now : ℕ) (fault : SubmitFault)
        → HasCause topology packages me known what now fault
        → prepared topology packages me known what now ≡ Err fault }
{}

/// Where the wanted transaction can be sealed its request is sealed, and where that is framed it is read back as the transaction.
pub fn prepared_requests_are_sealed()
    ensures whole { (topology : Topology) (packages : Packages) (me : ℕ) (known : List Known) (what : Submission) (now : ℕ) (roots : Actions)
        → AreWanted topology packages me known what roots
        → CanBeSealed topology packages me (whole_for topology me (tx_for topology me what now roots))
        → is_framed topology (request_for topology packages me what.command (tx_for topology me what now roots)) ≡ true
        → (framed_reading topology packages).whole (request_for topology packages me what.command (tx_for topology me what now roots))
        ≡ Some (whole_for topology me (tx_for topology me what now roots)).transaction }
    ensures sealed { (topology : Topology) (packages : Packages) (me : ℕ) (known : List Known) (what : Submission) (now : ℕ) (roots : Actions)
        → AreWanted topology packages me known what roots
        → CanBeSealed topology packages me (whole_for topology me (tx_for topology me what now roots))
        → IsSealedForm topology packages (request_for topology packages me what.command (tx_for topology me what now roots)) }
{}

/// The request that a submission wants over an inbox is prepared of what its participant offers, and is sealed and framed. Its
/// envelopes are complete, and open what the rules ask for.
pub fn wanted_requests_are_sealed()
    ensures prepared { (topology : Topology) (packages : Packages) (offered : Offered) (what : Submission) (items : List Item) (now : ℕ) (request : Request)
        → prepare_over topology packages offered what items now ≡ Some request
        → prepared topology packages what.participant (offered what.participant items) what now ≡ Ok request }
    ensures sealed { (topology : Topology) (packages : Packages) (offered : Offered) (what : Submission) (items : List Item) (now : ℕ) (request : Request)
        → prepare_over topology packages offered what items now ≡ Some request
        → IsSealedForm topology packages request }
    ensures framed { (topology : Topology) (packages : Packages) (offered : Offered) (what : Submission) (items : List Item) (now : ℕ) (request : Request)
        → prepare_over topology packages offered what items now ≡ Some request
        → is_framed topology request ≡ true }
    ensures opens { (topology : Topology) (packages : Packages) (offered : Offered) (what : Submission) (items : List Item) (now : ℕ) (request : Request)
        → prepare_over topology packages offered what items now ≡ Some request
        → OpensByRules topology packages request }
{}

/// The machine over a topology and packages, whose requests are the prepared ones, keeps what every world asks of its machine, whatever participants
/// offer.
pub fn prepared_requests_make_a_machine()
    ensures { (topology : Topology) (packages : Packages) (capacity : ℕ) (offered : Offered) → IsMachine (machine_over topology packages capacity offered) }
{}

/// Where a store has what the approved requests of an inbox write below a place, and the ids tell which of its active contracts
/// have a hosted stakeholder, what is offered are the model's active contracts there.
pub fn offered_contracts_are_active()
    ensures { (reading : Reading) (p : ParticipantId) (items : List Item) (n : ℕ) (ids : List Hash)
        → TellHosted reading p ids (written (placed_below reading items n) [])
        → hosted_rows ids (written (placed_below reading items n) []) ≡ knowns (node_active reading p items n) }
{}

/// What a participant offers at any place of its inbox of a genuine log names only parties of the topology.
pub fn offered_contracts_name_parties_of_the_topology()
    ensures { (topology : Topology) (packages : Packages) (log : List Entry) (p : ParticipantId) (n : ℕ)
        → Genuine (framed_reading topology packages) topology.params log
        → AreKnown (is_hosted topology)
        (parties_in_contracts (knowns (node_active (framed_reading topology packages) p (inbox (framed_reading topology packages) p log) n))) }
{}

/// Ids that tell which contracts of a store have a hosted stakeholder (`AreTold`) still tell it after each creation and consumption, where the id of a
/// contract that is created and had no row is put among them exactly if the contract has one.
pub fn ids_tell_after_each_change()
    ensures begun { (reading : Reading) (p : ParticipantId) → AreTold reading p [] [] }
    ensures told { (reading : Reading) (p : ParticipantId) (ids : List Hash) (rows : List StoreRow) → AreTold reading p ids rows
        → TellHosted reading p ids rows }
    ensures hosted { (reading : Reading) (p : ParticipantId) (ids more : List Hash) (rows : List StoreRow) (known : Known) (place : ℕ)
        → AreTold reading p ids rows
        → row_of known.id rows ≡ None
        → is_stakeholder_hosted reading p known.instance ≡ true
        → ((c : Hash) → is_among more c ≡ (bytes_eq known.id c || is_among ids c))
        → AreTold reading p more (created known place rows) }
    ensures other { (reading : Reading) (p : ParticipantId) (ids : List Hash) (rows : List StoreRow) (known : Known) (place : ℕ)
        → AreTold reading p ids rows
        → row_of known.id rows ≡ None
        → is_stakeholder_hosted reading p known.instance ≡ false
        → AreTold reading p ids (created known place rows) }
    ensures again { (reading : Reading) (p : ParticipantId) (ids : List Hash) (rows : List StoreRow) (known : Known) (place : ℕ) (row : StoreRow)
        → AreTold reading p ids rows
        → row_of known.id rows ≡ Some row
        → AreTold reading p ids (created known place rows) }
    ensures consumed { (reading : Reading) (p : ParticipantId) (ids : List Hash) (rows : List StoreRow) (known : Known) (place : ℕ)
        → AreTold reading p ids rows
        → AreTold reading p ids (consumed known place rows) }
{}
