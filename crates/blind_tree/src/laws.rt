//! Laws of trees, each the contract of a function with nothing to do.
ghost use Rattle.std.specs.Prelude.{◌≡◌, ◌⊎◌, ◌||◌, ◌<◌, ◌↔◌, ℕ, Bool, false, true, List, [], length, nat_eq, All, Contains, Some, None, Ok, if◌then◌else◌};
ghost use Rattle.std.specs.List.{AllPairs, list_any};
ghost use Rattle.ledger_terms.specs.declared.act.Act.{Act};
ghost use Rattle.ledger_terms.specs.Forest.{Forest};
ghost use Rattle.ledger_terms.specs.declared.action.Action.{Action};
ghost use Rattle.ledger_terms.specs.Topologies.{AreApart};
ghost use Rattle.ledger_model.specs.declared.roles.Roles.{Roles};
ghost use Rattle.ledger_model.specs.Opening.{Transaction, is_root_path, seen_paths};
ghost use Rattle.ledger_terms.specs.Names.{IsName};
ghost use Rattle.wire_form.specs.InRange.{IsPartySet};
ghost use Rattle.wire_form.specs.Reading.{set_at};
ghost use Rattle.wire_form.specs.Spelling.{spell_parties};
ghost use Rattle.view_split.specs.Split.{split};
ghost use Rattle.view_split.specs.declared.split_view.SplitView.{SplitView};
ghost use Rattle.blind_tree.specs.LeafBytes.{AreSpellable, AreSpellableViews};
ghost use Rattle.blind_tree.specs.Vertices.{IsNarrow};
ghost use Rattle.ledger_terms.specs.Grown.{tree_of};
ghost use Rattle.view_split.specs.declared.placed_view.PlacedView.{PlacedView};
ghost use Rattle.blind_tree.specs.Limits.{AllAmong, AreFew, KeepLimits};
ghost use Rattle.view_split.specs.Filled.{AreFilled};
ghost use Rattle.view_split.specs.Placed.{placed_forest, tops};
ghost use Rattle.view_split.specs.Numbered.{map_forest};
ghost use Rattle.view_split.specs.declared.opened_tree.OpenedTree.{OpenedTree};
ghost use Rattle.view_split.specs.SeenViews.{put_back, seen_views};
ghost use Rattle.ledger_model.specs.Forest.{acts};
ghost use Rattle.ledger_model.specs.Terms.{instance_of};
ghost use Rattle.wire_form.specs.Spellable.{IsSpellableInstance};
ghost use Rattle.ledger_terms.specs.declared.host.Host.{Host};
ghost use Rattle.view_split.specs.declared.views.Views.{Views};
ghost use Rattle.blind_tree.specs.declared.recipient.Recipient.{Recipient};
ghost use Rattle.blind_tree.specs.Blind.{Salts, blind_for, blind_for_mediator, blind_to, digest_with, has_sight};
ghost use Rattle.blind_tree.specs.Blind.{is_host_named, sees_root, shown_to, transaction_digest, tree_to, tree_to_mediator, vertices_shown};
ghost use Rattle.blind_tree.specs.Recipients.{is_recipient, recipients_of};
ghost use Rattle.blind_tree.specs.ShownViews.{AreInRange, AreViews, contents_shown, IsSmall, paths_seen, roles_of_all};
ghost use Rattle.blind_tree.specs.Opening.{head_at, roles_at, informee_tree_of, tree_opened, views_read};
ghost use Rattle.blind_tree.specs.CoreReading.{core_at};
ghost use Rattle.blind_tree.specs.Cores.{spell_node};
ghost use Rattle.blind_tree.specs.Leaves.{AreRoles, IsCommon, IsNode, spell_common, spell_roles};
ghost use Rattle.sha2.specs.Sha256.{sha256};
ghost use Rattle.wire_form.specs.Laws.{HasOneSpelling, IsEnoughFor, NoneBeginsAnother};
ghost use Rattle.blind_tree.specs.declared.tree.Tree.{Tree};
ghost use Rattle.blind_tree.specs.TreeHashes.{hash_of_root, tree_strings};
ghost use Rattle.blind_tree.specs.InRange.{IsSpellableTree, IsTree};
ghost use Rattle.blind_tree.specs.Spelling.{spell_tree};
ghost use Rattle.blind_tree.specs.Reading.{tree_at};
ghost use Rattle.blind_tree.specs.Agreement.{AgreeTrees, Clash, IsSized};

/// Each tree has one spelling, no spelling of a tree begins that of another, and each tree that can be read can be written.
pub fn one_spelling()
    ensures spelled { HasOneSpelling spell_tree IsTree tree_at }
    ensures none_begins { NoneBeginsAnother spell_tree IsTree }
    ensures encoded { IsEnoughFor IsTree IsSpellableTree }
{}

/// Each kind of leaf has one spelling of what it holds, that is of sender and ledger time, of requesters, of roles or of a core: bytes that are read as
/// a value are its spelling, and the spelling of a value in range is read as it.
pub fn leaves_have_one_spelling()
    ensures common { HasOneSpelling spell_common IsCommon head_at }
    ensures requesters { HasOneSpelling spell_parties IsPartySet set_at }
    ensures roles { HasOneSpelling spell_roles AreRoles roles_at }
    ensures contents { HasOneSpelling spell_node IsNode core_at }
{}

/// Two trees of one root, whose hashes and salts have 32 bytes, agree on every leaf that both show, or two different strings, one hashed in each, have
/// one hash.
pub fn one_root_one_tree()
    ensures { (t u : Tree) → IsSized t → IsSized u → hash_of_root sha256 t ≡ hash_of_root sha256 u
        → AgreeTrees t u ⊎ Clash sha256 (tree_strings sha256 t) (tree_strings sha256 u) }
{}

/// All trees of one transaction have one root, also with other salts of the first two leaves than those of its seed. With the salts of its seed, each
/// hash and salt in them has 32 bytes.
pub fn blinding_keeps_the_root()
    ensures root { (views : Views) (sender : List ℕ) (hosts : List Host) (to : Recipient)
        → hash_of_root sha256 (blind_for sha256 views sender hosts to) ≡ transaction_digest sha256 views sender }
    ensures participants { (salts : Salts) (sender : List ℕ) (transaction : Transaction) (views : Forest SplitView) (hosts : List ℕ → Bool) (sends : Bool)
        → hash_of_root sha256 (tree_to sha256 salts sender transaction views hosts sends) ≡ digest_with sha256 salts sender transaction views }
    ensures mediator { (salts : Salts) (sender : List ℕ) (transaction : Transaction) (views : Forest SplitView)
        → hash_of_root sha256 (tree_to_mediator sha256 salts sender transaction views) ≡ digest_with sha256 salts sender transaction views }
    ensures sized { (views : Views) (sender : List ℕ) (hosts : List Host) (to : Recipient) → IsSized (blind_for sha256 views sender hosts to) }
{}

/// The definitions of who sees what agree: a tree shows contents at just the paths that the ledger's rules name, a participant sees some view where
/// the rules name a path, and a root view where they name the path of a root.
pub fn sight_is_that_of_the_rules()
    ensures paths { (roles : Action → Roles) (hosts : List ℕ → Bool) (roots : Forest Act)
        → paths_seen hosts false [] 0 (split roles roots) ≡ seen_paths roles hosts roots }
    ensures views { (roles : Action → Roles) (hosts : List ℕ → Bool) (roots : Forest Act)
        → list_any (λ (path : List ℕ). true) (seen_paths roles hosts roots) ≡ has_sight hosts (split roles roots) }
    ensures root_views { (roles : Action → Roles) (hosts : List ℕ → Bool) (roots : Forest Act)
        → list_any is_root_path (seen_paths roles hosts roots) ≡ sees_root hosts (split roles roots) }
{}

/// The recipients of a transaction's trees are its sender, which is a participant, and each participant that sees a view. Where no two participants
/// have a name in common, the one with the sender's name is the sender.
pub fn recipients_are_the_sender_and_who_sees()
    ensures recipients { (hosts : List Host) (views : Forest SplitView) (sender p : ℕ) → sender < length hosts
        → Contains (recipients_of hosts views sender) p ↔ (is_recipient hosts views sender p ≡ true) }
    ensures sender { (hosts : List Host) (sender p : ℕ) (name : List ℕ) → AllPairs AreApart hosts → is_host_named hosts sender name ≡ true
        → is_host_named hosts p name ≡ nat_eq p sender }
{}

/// Of vertices that show their views whole, all these views are read back, where each is in range and has as many holes as views directly below it.
pub fn views_shown_whole_are_read()
    ensures { (hosts : List ℕ → Bool) (views : Forest SplitView) → AreViews views → AreFilled views
        → views_read (vertices_shown sha256 (shown_to hosts true views)) ≡ Ok views }
{}

/// In an opened tree each view has as many holes in its core as views stand directly below it.
pub fn opened_views_are_filled()
    ensures { (tree : Tree) (opened : OpenedTree) → tree_opened tree ≡ Ok opened
        → AreFilled (map_forest (λ (v : List ℕ × SplitView). v.1) (placed_forest opened.views)) }
{}

/// Every view of an opened tree can be encoded again, whatever bytes it was read from, where at most 65,536 vertices stand side by side, as in each
/// tree that can be read.
pub fn opened_views_are_spellable()
    ensures { (tree : Tree) (opened : OpenedTree) → IsNarrow tree.views → tree_opened tree ≡ Ok opened
        → All (λ (placed : PlacedView). AreSpellableViews (tree_of placed.view)) opened.views }
{}

/// The instance of each action that an opened tree shows can be encoded, so that its contract's id can be made of it, where at most 65,536 vertices
/// stand side by side, as in each tree that can be read.
pub fn opened_actions_are_spellable()
    ensures { (tree : Tree) (opened : OpenedTree) → IsNarrow tree.views → tree_opened tree ≡ Ok opened
        → All (λ (act : Act). IsSpellableInstance (instance_of act.action)) (acts (put_back (placed_forest opened.views))) }
{}

/// A participant's tree shows the contents of exactly the views that it sees, and the mediator's of none.
pub fn contents_are_shown_where_seen()
    ensures participants { (views : Views) (sender : List ℕ) (hosts : List ℕ → Bool) (is_sender : Bool)
        → contents_shown [] 0 (blind_to sha256 views sender hosts is_sender).views ≡ paths_seen hosts false [] 0 views.roots }
    ensures mediator { (views : Views) (sender : List ℕ) → contents_shown [] 0 (blind_for_mediator sha256 views sender).views ≡ [] }
{}

/// A transaction's trees can be written where at most 64 of its views stand side by side and 16 one below another, and its
/// leaves have fewer than 2^32 bytes.
pub fn blinded_trees_are_spellable()
    ensures { (views : Views) (sender : List ℕ) (hosts : List Host) (to : Recipient) → IsSmall sender views
        → IsSpellableTree (blind_for sha256 views sender hosts to) }
{}

/// Of a transaction in range whose views have as many holes as views directly below them, a participant's tree opens the topmost views that it sees,
/// with all below them, and the requesters to the sender and to who sees a root view. Of any in range the mediator's tree tells the sender, and the
/// informees and confirmers of every view.
pub fn trees_open_what_is_seen()
    ensures participants { (views : Views) (sender : List ℕ) (hosts : List ℕ → Bool) (is_sender : Bool) → AreInRange sender views → AreFilled views.roots
        → tree_opened (blind_to sha256 views sender hosts is_sender)
        ≡ Ok (record {
          sender = sender;
          ledger_time = views.ledger_time;
          requesters = if (sees_root hosts views.roots || is_sender) then Some views.act_as else None;
          views = tops (seen_views hosts views.roots);
        }) }
    ensures mediator { (views : Views) (sender : List ℕ) → AreInRange sender views
        → informee_tree_of (blind_for_mediator sha256 views sender) ≡ Ok (record { sender = sender; views = roles_of_all [] 0 views.roots }) }
{}

/// The views of a transaction within the limits can be blinded, and its trees can be written: with at most 64 actions, 16 of them one below another,
/// with at most 32,768 bytes, with requesters that are a set of at most 128 names, and with roles among at most 128 parties.
pub fn split_views_are_within()
    ensures blinded { (roles : Action → Roles) (parties : List (List ℕ)) (views : Views) (roots : Forest Act)
        → views.roots ≡ split roles roots → IsPartySet views.act_as → KeepLimits roots → AreFew parties → AllAmong roles parties roots → AreSpellable views }
    ensures small { (roles : Action → Roles) (parties : List (List ℕ)) (views : Views) (sender : List ℕ) (roots : Forest Act)
        → views.roots ≡ split roles roots → IsName sender → IsPartySet views.act_as → KeepLimits roots → AreFew parties
        → AllAmong roles parties roots → IsSmall sender views }
{}
