//! The laws of the sealed form, as the clauses of functions that do nothing.
ghost use Rattle.std.specs.Prelude.{◌≡◌, ℕ, Bool, true, false, List, Some, None, IsSome, Contains, ◌≤◌, [], Ok, length, option_map, if◌then◌else◌};
ghost use Rattle.std.specs.Bool.{Decides};
ghost use Rattle.ledger_terms.specs.declared.act.Act.{Act};
ghost use Rattle.ledger_terms.specs.Trees.{Actions};
ghost use Rattle.ledger_terms.specs.Forest.{Forest, below_at};
ghost use Rattle.ledger_model.specs.Terms.{Path};
ghost use Rattle.ledger_model.specs.Opening.{seen_paths, Transaction, Shown, confirming_of};
ghost use Rattle.ledger_model.specs.Forest.{acts};
ghost use Rattle.view_split.specs.Split.{split};
ghost use Rattle.canton_model.specs.Checks.{authorises_children};
ghost use Rattle.authorise.specs.Below.{are_authorised_below};
ghost use Rattle.ledger_terms.specs.declared.command.Command.{Command};
ghost use Rattle.ledger_terms.specs.declared.known.Known.{Known};
ghost use Rattle.lang_eval.specs.Parts.{PartyNames};
ghost use Rattle.interpret.specs.Wanted.{IsWanted};
ghost use Rattle.interpret.specs.FilledTree.{IsFilled};
ghost use Rattle.ledger_terms.specs.Drafts.{Drafts};
ghost use Rattle.ledger_terms.specs.Hosting.{hosts_at};
ghost use Rattle.ledger_terms.specs.Topologies.{IsValid};
ghost use Rattle.ledger_terms.specs.declared.limits.TheConstants.{MOST_TREE_BYTES};
ghost use Rattle.ledger_terms.specs.declared.topology.Topology.{Topology};
ghost use Rattle.sha2.specs.Sha256.{sha256};
ghost use Rattle.blind_tree.specs.Blind.{blind_for, is_host_named, salts_of, tree_to_mediator};
ghost use Rattle.blind_tree.specs.declared.recipient.Recipient.TheVariants.{Mediator, Participant};
ghost use Rattle.ledger_model.specs.Language.{Language, roles_of};
ghost use Rattle.canton_model.specs.declared.envelope.Envelope.{Envelope};
ghost use Rattle.canton_model.specs.declared.request.Request.{Request};
ghost use Rattle.lang_eval.specs.Found.{Packages};
ghost use Rattle.ledger_terms.specs.declared.action.Action.{Action};
ghost use Rattle.ledger_terms.specs.declared.tx.Tx.{Tx};
ghost use Rattle.ledger_model.specs.declared.roles.Roles.{Roles};
ghost use Rattle.lang_eval.specs.Language.{has_roles, roles_in};
ghost use Rattle.view_split.specs.Faults.{views_of_tx};
ghost use Rattle.view_split.specs.declared.views.Views.{Views};
ghost use Rattle.blind_tree.specs.Limits.{KeepLimits};
ghost use Rattle.blind_tree.specs.LeafBytes.{core_bytes};
ghost use Rattle.blind_tree.specs.ShownViews.{contents_shown};
ghost use Rattle.blind_tree.specs.declared.tree.Tree.{Tree};
ghost use Rattle.sealed_form.specs.Envelopes.{contents_at, sees_at, view_at};
ghost use Rattle.sealed_form.specs.SealedForm.{CanBeSealed, IsSealedForm, Whole, confirming_by, envelope_to, request_of, roles_by, tree_for, tree_in};
ghost use Rattle.sealed_form.specs.SealedForm.{views_by};
ghost use Rattle.sealed_form.specs.SealedTest.{can_be_sealed};

/// The test of what can be sealed, `can_be_sealed`, is true exactly of what can be sealed (`CanBeSealed`).
pub fn what_can_be_sealed_is_decided()
    ensures { (topology : Topology) (packages : Packages) (sender : ℕ) (whole : Whole)
        → Decides (can_be_sealed topology packages sender whole) (CanBeSealed topology packages sender whole) }
{}

/// The tree that is made for a participant of a transaction that can be sealed shows the contents of exactly the views that the participant sees.
pub fn trees_show_the_contents_of_what_is_seen()
    ensures { (topology : Topology) (packages : Packages) (sender : ℕ) (whole : Whole) (p : ℕ)
        → CanBeSealed topology packages sender whole
        → contents_shown [] 0 (tree_for topology packages sender whole.sender whole.salts whole.transaction p).views ≡ seen_paths (roles_by packages)
        (hosts_at topology.hosts p) (whole.transaction).roots }
{}

/// Each envelope of a sealed request can be read, and it shows the contents of exactly those views of which its participant hosts an informee, or an
/// informee of a view above. A participant to which there is no envelope sees no view.
pub fn envelopes_show_the_contents_of_what_is_seen()
    ensures read { (topology : Topology) (packages : Packages) (request : Request) (sealed : IsSealedForm topology packages request) (p : ℕ) (bytes : List ℕ)
        → envelope_to p request.envelopes ≡ Some bytes → IsSome (tree_in bytes) }
    ensures shown { (topology : Topology) (packages : Packages) (request : Request) (sealed : IsSealedForm topology packages request) (p : ℕ) (bytes : List ℕ)
        (tree : Tree) (path : Path) → envelope_to p request.envelopes ≡ Some bytes → tree_in bytes ≡ Some tree
        → contents_at path tree.views ≡ (if sees_at (hosts_at topology.hosts p) path (views_by packages (sealed.whole).transaction)
        then option_map core_bytes (view_at path (views_by packages (sealed.whole).transaction)) else None) }
    ensures none { (topology : Topology) (packages : Packages) (request : Request) (sealed : IsSealedForm topology packages request) (p : ℕ) (path : Path)
        → envelope_to p request.envelopes ≡ None → sees_at (hosts_at topology.hosts p) path (views_by packages (sealed.whole).transaction) ≡ false }
{}

/// The request that is made of a transaction that can be sealed is sealed, where neither the mediator's bytes nor an envelope is too long.
pub fn requests_made_are_sealed()
    ensures { (topology : Topology) (packages : Packages) (sender : ℕ) (command : List ℕ) (whole : Whole) (request : Request)
        → CanBeSealed topology packages sender whole
        → request ≡ request_of topology packages sender whole.sender command whole.salts whole.transaction
        → length request.mediator ≤ MOST_TREE_BYTES
        → ((envelope : Envelope) → Contains request.envelopes envelope → length envelope.bytes ≤ MOST_TREE_BYTES)
        → IsSealedForm topology packages request }
{}

/// The request of a transaction that can be sealed and keeps the limits of actions (`KeepLimits`) is sealed: its bytes aren't too long.
pub fn requests_within_limits_are_sealed()
    ensures { (topology : Topology) (packages : Packages) (sender : ℕ) (command : List ℕ) (whole : Whole)
        → CanBeSealed topology packages sender whole
        → KeepLimits (whole.transaction).roots
        → IsSealedForm topology packages (request_of topology packages sender whole.sender command whole.salts whole.transaction) }
{}

/// The trees of a request are those that blinding gives, with the salts of the transaction's seed, where the topology is valid and the given name is
/// the sender's.
pub fn requests_are_blinded()
    ensures participants { (topology : Topology) (packages : Packages) (sender : ℕ) (name : List ℕ) (t : Transaction) (seed : List ℕ) (p : ℕ)
        → IsValid topology
        → is_host_named topology.hosts sender name ≡ true
        → blind_for sha256
        (record { act_as = t.requesters; ledger_time = t.ledger_time; seed = seed; roots = split (roles_in packages) t.roots }) name
        topology.hosts (Participant p)
        ≡ tree_for topology packages sender name (salts_of sha256 seed) t p }
    ensures mediator { (topology : Topology) (packages : Packages) (sender : ℕ) (name : List ℕ) (t : Transaction) (seed : List ℕ)
        → IsValid topology
        → is_host_named topology.hosts sender name ≡ true
        → blind_for sha256
        (record { act_as = t.requesters; ledger_time = t.ledger_time; seed = seed; roots = split (roles_in packages) t.roots }) name
        topology.hosts Mediator
        ≡ tree_to_mediator sha256 (salts_of sha256 seed) name t (views_by packages t) }
{}

/// Where splitting a transaction succeeds, its views are those that the rules make of its roots, and each of its actions has roles.
pub fn what_is_split_has_roles()
    ensures roots { (packages : Packages) (tx : Tx) (views : Views) → views_of_tx packages tx ≡ Ok views → views.roots ≡ split (roles_in packages) tx.roots }
    ensures roles { (packages : Packages) (tx : Tx) (views : Views) (a : Act) → views_of_tx packages tx ≡ Ok views → Contains (acts tx.roots) a
        → has_roles packages a.action ≡ true }
{}

/// The transaction that commands want (`IsWanted`) keeps the limits under which its trees can be made and written (`KeepLimits`).
pub fn wanted_transactions_keep_the_limits_of_trees()
    ensures { (packages : Packages) (known : List Known) (seed : List ℕ) (act_as : PartyNames) (commands : List Command) (forest : Actions)
        → IsWanted packages known seed act_as commands forest
        → KeepLimits forest }
{}

/// What a prepared tree is filled to (`IsFilled`) keeps the limits under which trees can be made and written (`KeepLimits`).
pub fn filled_trees_keep_the_limits_of_trees()
    ensures { (known : List Known) (seed : List ℕ) (drafts : Drafts) (forest : Actions) → IsFilled known seed drafts forest → KeepLimits forest }
{}

/// Which participants are asked can be read off the views that a transaction is split into: just those that confirm a view.
pub fn views_tell_who_is_asked()
    ensures { (language : Language) (confirms : ℕ → List ℕ → Bool) (participants : List ℕ) (roots : Forest Act)
        → confirming_by confirms participants (split (roles_of language) roots) ≡ confirming_of language confirms participants roots }
{}

/// What a participant checks of the children of an action that is opened to it is the test of the rules, `are_authorised_below`, on the actions
/// directly below it.
pub fn authority_is_checked()
    ensures { (roles : Action → Roles) (shown : Shown) (a : ℕ × Act)
        → authorises_children roles shown a ≡ are_authorised_below roles (a.1).action (below_at a.0 shown.roots) }
{}
