//! A list that stands once.
ghost use Rattle.std.specs.Prelude.{◌≡◌, IfOk, option_copied, slice_get};
ghost use Rattle.std.specs.Arc.{arc_value};

use crate::exact::Exact;
use crate::list::ListOf;
use std::alloc::{AllocError, Global};
use std::marker::Model;
use std::sync::Arc;

/// A list that stands once for all copies of what it is in, as the fields of a contract do. Contracts see its items.
#[derive(Drop)]
pub struct SharedList<T> {
    list: Arc<ListOf<T>>,
}

impl<T> Model for SharedList<T> {
    ghost use Rattle.std.specs.Prelude.{List};
    ghost use Rattle.std.specs.Arc.{arc_value};
    ghost use Rattle.std.specs.Coded.{coded_list};

    ghost Value = { List T };

    ghost coded = { coded_list T.code };

    ghost view = { λ s. arc_value s.list };
}

impl<T> SharedList<T> {
    /// The list in memory of its own, which all clones of the result share.
    pub fn new(alloc: Global, list: ListOf<T>) -> Result<SharedList<T>, AllocError>
    where
        T: Drop,
        ensures { IfOk result (λ shared. shared ≡ list) }
    {
        let list = Arc::new(alloc, list)?;
        Ok(SharedList { list })
    }

    /// The list itself, to look at.
    pub fn as_list(&self) -> &ListOf<T>
        ensures { result.now ≡ self.now }
    {
        &*self.list
    }

    /// The items as a slice.
    pub fn as_slice(&self) -> &[T]
        ensures { result.now ≡ self.now }
    {
        self.as_list().as_slice()
    }

    /// The item at the index `at`, counted from 0, and None where the list is shorter.
    pub fn get(&self, at: usize) -> Option<&T>
        ensures { option_copied result ≡ slice_get self.now at }
    {
        self.as_list().get(at)
    }
}

impl<T: Drop> Clone for SharedList<T> {
    ghost is_clone = { λ s t. t ≡ s };

    fn clone(&self) -> Result<SharedList<T>, AllocError> {
        let list = Arc::try_clone(&self.list)?;
        Ok(SharedList { list })
    }
}

impl<T: Drop> Exact for SharedList<T> {
    ghost same = { λ a b h. h };
}

impl<T: PartialEq> PartialEq for SharedList<T> {
    ghost use Rattle.std.specs.Cmp.Lexicographic.{pointwise, lists_per};

    ghost eq = { pointwise T.eq };

    ghost laws = { lists_per T.laws };

    fn eq(&self, other: &SharedList<T>) -> bool {
        self.as_slice() == other.as_slice()
    }
}
