//! What a core is tried by.
use crate::opened_input::OpenedInput;
use consist::Earlier;
use lang_eval::NativeList;
use ledger_terms::ActionNode;
use std::alloc::Global;

/// What is opened to a participant, in pre-order, with the numbers of a view's core.
#[derive(Drop)]
pub(crate) struct Trial<'a, 's, 'n> {
    pub(crate) alloc: Global,
    pub(crate) input: &'a OpenedInput<'s>,
    pub(crate) natives: &'a NativeList,
    pub(crate) nodes: &'a [&'n ActionNode],
    pub(crate) earlier: &'a [Earlier<'n>],
    pub(crate) core: &'a [usize],
    pub(crate) is_root: bool,
}
