//! Laws of framed requests, each the contract of a function with nothing to do.
ghost use Rattle.std.specs.Bool.{Decides};
ghost use Rattle.std.specs.Prelude.{◌≡◌, ◌≢◌, ℕ, true, List, Contains, Ok, Some, None, nat_eq, if◌then◌else◌};
ghost use Rattle.ledger_terms.specs.Forest.{Forest, NoRoots};
ghost use Rattle.ledger_terms.specs.Hosting.{hosts_at};
ghost use Rattle.ledger_terms.specs.declared.action.Action.{Action};
ghost use Rattle.ledger_terms.specs.declared.topology.Topology.{Topology};
ghost use Rattle.ledger_model.specs.declared.roles.Roles.{Roles};
ghost use Rattle.canton_model.specs.Log.{request_at};
ghost use Rattle.canton_model.specs.declared.entry.Entry.{Entry};
ghost use Rattle.canton_model.specs.declared.envelope.Envelope.{Envelope};
ghost use Rattle.canton_model.specs.declared.request.Request.{Request};
ghost use Rattle.lang_eval.specs.Found.{Packages};
ghost use Rattle.view_split.specs.Filled.{AreFilled};
ghost use Rattle.view_split.specs.Numbered.{map_forest};
ghost use Rattle.view_split.specs.Placed.{tops};
ghost use Rattle.view_split.specs.SeenViews.{seen_views};
ghost use Rattle.view_split.specs.Split.{split, assembled};
ghost use Rattle.view_split.specs.declared.opened_tree.OpenedTree.{OpenedTree};
ghost use Rattle.view_split.specs.declared.split_view.SplitView.{SplitView};
ghost use Rattle.blind_tree.specs.Leaves.{Sets};
ghost use Rattle.blind_tree.specs.declared.tree.Tree.{Tree};
ghost use Rattle.framed_form.specs.Framed.{AreBytes, IsFramed, is_framed};
ghost use Rattle.sealed_form.specs.SealedForm.{CanBeSealed, IsSealedForm, Whole, request_of, tree_in, views_by};
ghost use Rattle.framed_form.specs.Agreeing.{AreAgreed};
ghost use Rattle.framed_form.specs.Collisions.{AreFramed, Collides};
ghost use Rattle.framed_form.specs.FramedForm.{offered, opened_to, whole_views};
ghost use Rattle.framed_form.specs.Frames.{roles_read};
ghost use Rattle.framed_form.specs.Structure.{AreStructured};
ghost use Rattle.ledger_terms.specs.declared.act.Act.{Act};
ghost use Rattle.ledger_model.specs.Consistency.{Consistent};
ghost use Rattle.ledger_model.specs.Forest.{acts, ledger_acts};
ghost use Rattle.ledger_model.specs.Opening.{Transaction, shown_of};
ghost use Rattle.ledger_model.specs.Terms.{Name, ParticipantId, Path};
ghost use Rattle.canton_model.specs.Genuine.{Genuine, IsReading, IsSound, IsVouched, NoCollision};
ghost use Rattle.canton_model.specs.Ledger.{ledger};
ghost use Rattle.canton_model.specs.Reading.{Reading, shown_to, view_paths};
ghost use Rattle.interpret.specs.Language.{the_language};
ghost use Rattle.blind_tree.specs.Blind.{sees_root};
ghost use Rattle.blind_tree.specs.Recipients.{is_recipient};
ghost use Rattle.blind_tree.specs.declared.shown_for.OpenedFor.TheVariants.{Open};
ghost use Rattle.framed_form.specs.ByRules.{HasSignatories, IsByRules};
ghost use Rattle.framed_form.specs.FramedReading.{framed_reading};

/// The test of framed requests, `is_framed`, is true exactly of those that are framed.
pub fn framing_is_decided()
    ensures { (topology : Topology) (request : Request) → Decides (is_framed topology request) (IsFramed topology request) }
{}

/// A sealed request is framed where its transaction has a root action and all that it sends are bytes.
pub fn sealed_requests_are_framed()
    ensures { (topology : Topology) (packages : Packages) (request : Request) (sealed : IsSealedForm topology packages request)
        → ((sealed.whole).transaction).roots ≢ NoRoots
        → AreBytes request.mediator
        → ((envelope : Envelope) → Contains request.envelopes envelope → AreBytes envelope.bytes)
        → IsFramed topology request }
{}

/// A request that is made of a transaction that can be sealed is sealed, where it is framed; being framed says that its bytes aren't too long.
pub fn framed_requests_that_are_made_are_sealed()
    ensures { (topology : Topology) (packages : Packages) (sender : ℕ) (command : List ℕ) (whole : Whole) (request : Request)
        → CanBeSealed topology packages sender whole
        → request ≡ request_of topology packages sender whole.sender command whole.salts whole.transaction
        → IsFramed topology request
        → IsSealedForm topology packages request }
{}

/// In a log that doesn't collide, any two trees of one request with one root agree on every leaf that both show, where what the request sends are
/// bytes.
pub fn requests_agree_where_a_log_does_not_collide()
    ensures { (topology : Topology) (log : List Entry) (k : ℕ) (request : Request)
        → (Collides topology log → ⊥)
        → request_at log k ≡ Some request
        → AreBytes request.mediator
        → ((envelope : Envelope) → Contains request.envelopes envelope → AreBytes envelope.bytes)
        → AreAgreed request }
{}

/// Where the trees of a request agree, the mediator can read its own, and the complete envelopes together open all views (`whole_views`): a complete
/// envelope opens the topmost of these that its participant sees, and the mediator is told the informees and confirmers of these.
pub fn complete_envelopes_open_parts_of_the_whole()
    ensures views { (topology : Topology) (request : Request) (tree : Tree) (outline : Forest Sets) (views : Forest SplitView) (p : ℕ) (opened : OpenedTree)
        → AreAgreed request → tree_in request.mediator ≡ Some tree → roles_read tree.views ≡ Ok outline → whole_views topology request ≡ Some views
        → opened_to topology p request ≡ Some opened
        → opened.views ≡ tops (seen_views (hosts_at topology.hosts p) views) }
    ensures told { (topology : Topology) (request : Request) (tree : Tree) (outline : Forest Sets) (views : Forest SplitView)
        → AreAgreed request → tree_in request.mediator ≡ Some tree → roles_read tree.views ≡ Ok outline → whole_views topology request ≡ Some views
        → map_forest (λ (view : SplitView). (view.informees, view.confirmers)) views ≡ outline }
{}

/// Views that are structured as the rules make them of their actions (`AreStructured`), each with as many holes as views directly below it, are the
/// views of the transaction that they are put back to.
pub fn structured_views_are_those_of_the_rules()
    ensures { (roles : Action → Roles) (views : Forest SplitView) → AreFilled views → AreStructured roles views
        → split roles (assembled views) ≡ views }
{}

/// A request of which everybody is told and shown what the rules ask for (`IsByRules`) is sound where its actions have roles, and also where each of
/// its views is vouched for; provided that who confirms for a party hosts it, and each action that has roles has a signatory.
pub fn requests_by_the_rules_are_sound()
    ensures roles { (reading : Reading) (request : Request) (sender : Name) (transaction : Transaction)
        → ((p : ParticipantId) (name : Name) → reading.confirms p name ≡ true → reading.hosts p name ≡ true)
        → HasSignatories reading.language
        → IsByRules reading request sender transaction
        → ((a : Act) → Contains (acts transaction.roots) a → reading.language.has_roles a.action ≡ true)
        → IsSound reading request }
    ensures vouched { (reading : Reading) (request : Request) (sender : Name) (transaction : Transaction)
        → ((p : ParticipantId) (name : Name) → reading.confirms p name ≡ true → reading.hosts p name ≡ true)
        → HasSignatories reading.language
        → IsByRules reading request sender transaction
        → ((path : Path) → Contains (view_paths reading request) path → IsVouched reading request path)
        → IsSound reading request }
{}

/// A framed request whose trees agree is sound where each of its views is vouched for.
pub fn vouched_framed_requests_are_sound()
    ensures { (topology : Topology) (packages : Packages) (request : Request)
        → AreAgreed request
        → IsFramed topology request
        → ((path : Path) → Contains (view_paths (framed_reading topology packages) request) path → IsVouched (framed_reading topology packages) request path)
        → IsSound (framed_reading topology packages) request }
{}

/// The reading of framed requests is a reading (`IsReading`): what the ledger's definitions ask of a request it has, whoever sent it and whatever
/// collides.
pub fn framed_reading_is_reading()
    ensures { (topology : Topology) (packages : Packages) → IsReading (framed_reading topology packages) }
{}

/// In a log of framed requests of which no two hashed strings collide, authentic actions on one contract that complete envelopes
/// open carry one instance, and a request of which each view is vouched for is sound.
pub fn logs_that_do_not_collide()
    ensures { (topology : Topology) (packages : Packages) (log : List Entry)
        → ((k : ℕ) (request : Request) → request_at log k ≡ Some request → IsFramed topology request)
        → (Collides topology log → ⊥)
        → NoCollision (framed_reading topology packages) log }
{}

/// Each request of a genuine log is framed, and where the log doesn't collide its approved requests are one consistent ledger.
pub fn framed_logs_are_one_ledger()
    ensures framed { (topology : Topology) (packages : Packages) (log : List Entry)
        → Genuine (framed_reading topology packages) topology.params log
        → AreFramed topology log }
    ensures ledger { (topology : Topology) (packages : Packages) (log : List Entry)
        → Genuine (framed_reading topology packages) topology.params log
        → (Collides topology log → ⊥)
        → Consistent (ledger_acts (ledger (framed_reading topology packages) log)) }
{}

/// The envelopes of a sealed request are complete: each opens to its recipient just the views that it sees, and the requesters where one of them is a
/// root view, which is what the rules show of its transaction. Where the request is framed, its whole is that transaction, and it is sound.
pub fn sealed_requests_are_complete()
    ensures opened { (topology : Topology) (packages : Packages) (request : Request) (sealed : IsSealedForm topology packages request) (p : ParticipantId)
        → is_recipient topology.hosts (views_by packages (sealed.whole).transaction) request.sender p ≡ true
        → offered topology p request ≡ Open (record {
          sender = (sealed.whole).sender;
          ledger_time = ((sealed.whole).transaction).ledger_time;
          requesters = if sees_root (hosts_at topology.hosts p) (views_by packages (sealed.whole).transaction)
              then Some ((sealed.whole).transaction).requesters else None;
          views = tops (seen_views (hosts_at topology.hosts p) (views_by packages (sealed.whole).transaction));
        }) }
    ensures shown { (topology : Topology) (packages : Packages) (request : Request) (sealed : IsSealedForm topology packages request) (p : ParticipantId)
        → shown_to (framed_reading topology packages) p request
        ≡ shown_of (the_language packages) (hosts_at topology.hosts p) (nat_eq p request.sender) (sealed.whole).sender (sealed.whole).transaction }
    ensures whole { (topology : Topology) (packages : Packages) (request : Request) (sealed : IsSealedForm topology packages request)
        → IsFramed topology request
        → (framed_reading topology packages).whole request ≡ Some (sealed.whole).transaction }
    ensures sound { (topology : Topology) (packages : Packages) (request : Request)
        → IsSealedForm topology packages request
        → IsFramed topology request
        → IsSound (framed_reading topology packages) request }
{}
