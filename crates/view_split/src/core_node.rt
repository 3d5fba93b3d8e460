//! The cores of views.
ghost use Rattle.std.specs.Prelude.{◌≡◌, ◌∷◌, [], OnOk, OnErr};
ghost use Rattle.view_split.specs.Holed.{NoMore, beside, width};
ghost use Rattle.view_split.specs.CoreLists.{children_of};

use ledger_terms::{Action, Hash, push_closely};
use std::alloc::{AllocError, Global};
use std::marker::Model;

/// An action of a core, with its seed and what stands below it in the core.
#[cycle(core)]
#[derive(Drop)]
pub struct CoreNode {
    pub seed: Hash,
    pub action: Action,
    pub children: CoreChildList,
}

/// A consequence of a core's action: an action of the same core, or a hole where a view below starts.
#[cycle(core)]
#[derive(Drop)]
pub enum CoreChild {
    Inner(CoreNode),
    Hole,
}

/// The consequences of a core's action in order, which contracts see as a forest with holes.
#[cycle(core)]
#[derive(Drop)]
pub struct CoreChildList {
    children: Vec<CoreChild>,
}

impl Model for CoreChildList {
    ghost use Rattle.ledger_terms.specs.declared.act.Act.{Act};
    ghost use Rattle.view_split.specs.Holed.{Holed, coded_holed};
    ghost use Rattle.std.specs.Coded.{codes};

    ghost Value = { Holed Act };

    ghost coded = { coded_holed (Prim.hlevel codes) };

    ghost use Rattle.view_split.specs.CoreLists.{children_of, core_weight};

    ghost view = { λ l. children_of l.children.items };

    ghost size = { core_weight };

    ghost use Rattle.view_split.specs.CoresFall.{falls};

    ghost size_decreases = { λ l h. falls l };
}

impl CoreChildList {
    /// The list without children.
    pub fn new(alloc: Global) -> CoreChildList
        ensures { result ≡ NoMore }
    {
        CoreChildList {
            children: Vec::new(alloc),
        }
    }

    /// The list of a vector's children, without memory.
    pub fn of(children: Vec<CoreChild>) -> CoreChildList
        ensures { result ≡ children_of children.items }
    {
        CoreChildList { children }
    }

    /// The vector of the children, without memory.
    pub fn into_vec(self) -> Vec<CoreChild>
        ensures { children_of result.items ≡ self }
    {
        let CoreChildList { children } = self;
        children
    }

    /// The allocator of the list, for what is made beside it.
    pub fn allocator(&self) -> &Global {
        self.children.allocator()
    }

    /// How many children there are, holes counted.
    #[tactic(auto, using(crate::proofs::Grow::child_widths))]
    pub fn len(&self) -> usize
        ensures { result ≡ width self.now }
    {
        self.children.len()
    }

    /// The children as a slice.
    pub fn as_slice(&self) -> &[CoreChild]
        ensures { children_of result.now ≡ self.now }
    {
        self.children.as_slice()
    }

    /// Puts a child at the end. Err is want of memory, and leaves the list as it was.
    #[tactic(auto, using(crate::proofs::Grow::child_pushed))]
    pub fn push(&mut self, child: CoreChild) -> Result<(), AllocError>
        ensures ok { OnOk result (self.new ≡ beside self.old (children_of (child ∷ []))) }
        ensures err { OnErr result (self.new ≡ self.old) }
    {
        push_closely(&mut self.children, child)
    }
}
