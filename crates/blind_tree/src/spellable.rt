//! Whether transactions and trees have room in a spelling.
ghost use Rattle.std.specs.Prelude.{◌↔◌, ◌≤◌, ◌<◌, ◌^◌, ◌∷◌, [], ℕ, List, IsTrue};
ghost use Rattle.ledger_terms.specs.Names.{IsName};
ghost use Rattle.wire_form.specs.InRange.{IsHash};
ghost use Rattle.view_split.specs.Holed.{Inner, NoMore};
ghost use Rattle.blind_tree.specs.ShownViews.{AreChildren, AreInRange, AreViews};
ghost use Rattle.view_split.specs.CoreLists.{children_of};
ghost use Rattle.ledger_terms.specs.Grown.{tree_of};
ghost use Rattle.blind_tree.specs.Cores.{AreSpellableChildren, IsSpellableChild, IsSpellableCore, levels};
ghost use Rattle.blind_tree.specs.LeafBytes.{AreSpellable, AreSpellableViews};
ghost use Rattle.blind_tree.specs.InRange.{FitLevels, IsSpellableLeaf, IsSpellableTree};
ghost use Rattle.blind_tree.specs.Vertices.{IsNarrow};
ghost use Rattle.blind_tree.specs.VertexLists.{one_vertex};

use crate::core_read::{CHILDREN_MAX, LEVELS_BELOW};
use crate::decode::{LEVELS_MAX, VERTICES_MAX};
use crate::leaf::Leaf;
use crate::tree::Tree;
use crate::vertex::{Vertex, VertexList};
use ledger_terms::{Action, Hash};
use view_split::{CoreChild, CoreChildList, SplitView, View, ViewList, Views};
use wire_form::{is_spellable_action, is_spellable_set};

// The greatest number of views side by side: a step of a path has two bytes.
const VIEWS_MAX: usize = 65536;

/// Whether a transaction can be blinded: the counts and lengths of its views and leaves have room in their spellings. Then what its trees show can be
/// read again, whoever sends it.
pub fn are_spellable(views: &Views) -> bool
    ensures exact { IsTrue result ↔ AreSpellable views.now }
    ensures in_range { (sender : List ℕ) → IsName sender → IsTrue result → AreInRange sender views.now }
{
    is_time(views.ledger_time)
        && is_spellable_set(&views.act_as)
        && views.roots.len() <= VIEWS_MAX
        && are_views(&views.roots)
}

// The next two hold of every time and hash. They are asked so that the contracts here can say what the types keep.
fn is_time(time: u64) -> bool
    ensures always { IsTrue result }
    ensures fits { time < 2 ^ 64 }
{
    time <= u64::MAX
}

fn is_hash(hash: &Hash) -> bool
    ensures always { IsTrue result }
    ensures count { IsHash hash.now }
{
    !hash.as_bytes().is_empty()
}

#[cycle(views)]
fn are_views(views: &ViewList) -> bool
    ensures exact { IsTrue result ↔ AreSpellableViews views.now }
    ensures in_range { IsTrue result → AreViews views.now }
{
    for view in views.as_slice() {
        if !is_view(view) {
            return false;
        }
    }
    true
}

#[cycle(views)]
fn is_view(view: &View) -> bool
    ensures exact { IsTrue result ↔ AreSpellableViews (tree_of view.now) }
    ensures in_range { IsTrue result → AreViews (tree_of view.now) }
{
    let SplitView {
        informees,
        confirmers,
        first,
        below,
    } = &view.root;
    is_spellable_set(informees)
        && is_spellable_set(confirmers)
        && is_core(&first.seed, &first.action, below)
        && is_nested(below, LEVELS_BELOW)
        && view.below.len() <= VIEWS_MAX
        && are_views(&view.below)
}

#[cycle(cores)]
fn is_core(seed: &Hash, action: &Action, children: &CoreChildList) -> bool
    ensures exact { IsTrue result ↔ IsSpellableCore (record { seed = seed.now; action = action.now }) children.now }
    ensures in_range { IsTrue result → AreChildren (Inner (record { seed = seed.now; action = action.now }) children.now NoMore) }
{
    is_hash(seed)
        && is_spellable_action(action)
        && children.len() <= CHILDREN_MAX as usize
        && are_children(children)
}

#[cycle(cores)]
fn are_children(children: &CoreChildList) -> bool
    ensures exact { IsTrue result ↔ AreSpellableChildren children.now }
    ensures in_range { IsTrue result → AreChildren children.now }
{
    for child in children.as_slice() {
        if !is_child(child) {
            return false;
        }
    }
    true
}

#[cycle(cores)]
fn is_child(child: &CoreChild) -> bool
    ensures exact { IsTrue result ↔ IsSpellableChild child.now }
    ensures in_range { IsTrue result → AreChildren (children_of (child.now ∷ [])) }
{
    match child {
        CoreChild::Inner(core) => is_core(&core.seed, &core.action, &core.children),
        CoreChild::Hole => true,
    }
}

// Whether actions stand on at most so many levels.
#[cycle(nested)]
fn is_nested(children: &CoreChildList, most: u8) -> bool
    ensures { IsTrue result ↔ (levels children.now ≤ most) }
{
    for child in children.as_slice() {
        if !is_nested_child(child, most) {
            return false;
        }
    }
    true
}

#[cycle(nested)]
fn is_nested_child(child: &CoreChild, most: u8) -> bool
    ensures { IsTrue result ↔ (levels (children_of (child.now ∷ [])) ≤ most) }
{
    match child {
        CoreChild::Inner(core) => most > 0 && is_nested(&core.children, most - 1),
        CoreChild::Hole => true,
    }
}

/// Whether a tree can be written: its counts, lengths and levels have room in a spelling. Then it can also be hashed and opened.
pub fn is_spellable(tree: &Tree) -> bool
    ensures exact { IsTrue result ↔ IsSpellableTree tree.now }
    ensures narrow { IsTrue result → IsNarrow tree.now.views }
{
    is_tree(tree)
}

fn is_tree(tree: &Tree) -> bool
    ensures { IsTrue result ↔ IsSpellableTree tree.now }
{
    is_leaf(&tree.common)
        && is_leaf(&tree.requesters)
        && tree.views.len() <= VERTICES_MAX as usize
        && are_vertices(&tree.views, LEVELS_MAX)
}

fn is_leaf(leaf: &Leaf) -> bool
    ensures { IsTrue result ↔ IsSpellableLeaf leaf.now }
{
    match leaf {
        Leaf::Blind(_) => true,
        Leaf::Plain { bytes, .. } => bytes.len() <= 0xffff_ffff,
    }
}

// Whether vertices stand on at most so many levels, and have room in a spelling.
#[cycle(vertices)]
fn are_vertices(vertices: &VertexList, levels: u8) -> bool
    ensures { IsTrue result ↔ FitLevels levels vertices.now }
{
    for vertex in vertices.as_slice() {
        if !is_vertex(vertex, levels) {
            return false;
        }
    }
    true
}

#[cycle(vertices)]
fn is_vertex(vertex: &Vertex, levels: u8) -> bool
    ensures { IsTrue result ↔ FitLevels levels (one_vertex vertex.now) }
{
    if levels == 0 {
        return false;
    }
    match vertex {
        Vertex::Blind(_) => true,
        Vertex::Inner {
            informees,
            contents,
            subviews,
        } => {
            is_leaf(informees)
                && is_leaf(contents)
                && subviews.len() <= VERTICES_MAX as usize
                && are_vertices(subviews, levels - 1)
        }
    }
}
