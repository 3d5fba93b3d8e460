//! Lists, read item by item. `at` is the place of the list or value that is read; a fault Shape is there where a value has another form. `alloc` gives
//! the memory for what is read; where memory is wanting, also for the place in a fault, the fault is Memory.
ghost use Rattle.std.specs.Prelude.{◌≡◌, ◌≢◌, ◌≤◌, ◌+◌, ℕ, List, [], length, Result, Ok, Err, MatchResult, IfOk, OnOk};
ghost use Rattle.std.specs.Borrow.{Bor};
ghost use Rattle.serde_json.specs.Data.{Data};
ghost use Rattle.serde_json.specs.declared.value.Value.{Value};
ghost use Rattle.serde_json.specs.View.{view, items_view};
ghost use Rattle.ledger_terms.specs.Answers.{Follows, FollowsOn, FollowsAs};
ghost use Rattle.json_walk.specs.Walk.{items_of, few_items_of, two_of, walk_items};
ghost use Rattle.json_walk.specs.declared.walk_fault.WalkFault.{WalkFault};
ghost use Rattle.json_walk.specs.Lists.{ReadsBy, CountsBy, item_step, counted_item, counted_step, list_of, few_of, counted_of};

use crate::limit::Limit;
use crate::place::Place;
use crate::scalar::{check_limit, shape};
use crate::walk_fault::WalkFault;
use ledger_terms::ListOf;
use serde_json::Value;
use std::alloc::Global;

/// The items of the list that the value at the place `at` is; the fault Shape where it is no list.
#[tactic(auto, unfolding(crate::specs::Walk::items_of))]
pub fn read_items<'v>(value: &'v Value, at: &Place) -> Result<&'v [Value], WalkFault>
    ensures { MatchResult result (λ v. items_of at.now (view value.now) ≡ Ok (items_view v.now))
        (λ e. e ≢ WalkFault.Memory → items_of at.now (view value.now) ≡ Err e) }
{
    match value.as_array() {
        Some(items) => Ok(items.as_slice()),
        None => shape(at),
    }
}

/// The items of the list that the value at the place `at` is. It is Shape where the value is no list, and Limit where its length is outside the
/// limit.
#[tactic(auto, using(crate::proofs::Items::item_count_view), unfolding(crate::specs::Walk::few_items_of))]
pub fn read_few_items<'v>(
    value: &'v Value,
    at: &Place,
    limit: Limit,
) -> Result<&'v [Value], WalkFault>
    ensures exact { MatchResult result (λ v. few_items_of at.now limit (view value.now) ≡ Ok (items_view v.now))
        (λ e. e ≢ WalkFault.Memory → few_items_of at.now limit (view value.now) ≡ Err e) }
    ensures few { IfOk result (λ v. length v.now ≤ limit.most) }
{
    let items = read_items(value, at)?;
    check_limit(at, limit, items.len() as u64)?;
    Ok(items)
}

/// The two items of a list that has just two, and the fault Shape where it has more or fewer; `at` is the place of the list.
pub fn read_two<'v>(items: &'v [Value], at: &Place) -> Result<(&'v Value, &'v Value), WalkFault>
    ensures { MatchResult result (λ p. two_of at.now (items_view items.now) ≡ Ok (view p.0.now, view p.1.now))
        (λ e. e ≢ WalkFault.Memory → two_of at.now (items_view items.now) ≡ Err e) }
{
    if items.len() != 2 {
        return shape(at);
    }
    Ok((&items[0], &items[1]))
}

fn push_item<T: Drop, F: Fn(&Value, &Place) -> Result<T, WalkFault>>(
    value: &Value,
    at: &Place,
    index: usize,
    list: &mut ListOf<T>,
    read_item: &F,
) -> Result<(), WalkFault>
    requires { F.IsAlwaysCallable read_item.now }
    ensures read { (item_of : List ℕ → Data → Result T WalkFault) → ReadsBy (F.post read_item.now) item_of
        → FollowsOn WalkFault.Memory list.new result (item_step item_of at.now index list.old (view value.now)) }
    ensures one { OnOk result (length list.new ≡ length list.old + 1) }
{
    let item = read_item(value, &at.item(index))?;
    list.push(item)?;
    Ok(())
}

/// What the items of the list at the place `at` say, in order: `read_item` reads each of them, given the item and its place. The first fault of an item
/// is the result; no items give the empty list.
pub fn read_each<T: Drop, F: Fn(&Value, &Place) -> Result<T, WalkFault>>(
    alloc: Global,
    items: &[Value],
    at: &Place,
    read_item: F,
) -> Result<ListOf<T>, WalkFault>
    requires { F.IsAlwaysCallable read_item }
    ensures read { (item_of : List ℕ → Data → Result T WalkFault) → ReadsBy (F.post read_item) item_of
        → Follows WalkFault.Memory result (walk_items (item_step item_of at.now) 0 [] (items_view items.now)) }
    ensures many { IfOk result (λ l. length l ≡ length items.now) }
{
    let mut list = ListOf::new(alloc);
    'items: for (i, item) in items.iter().enumerate() {
        push_item(item, at, i, &mut list, &read_item)?;
    }
    Ok(list)
}

/// What the items of the list at the place `at` say, in order, each as `read_item` reads it, given the item and its place. It is Shape where the
/// value is no list, else the first fault of an item.
#[tactic(auto, unfolding(crate::specs::Lists::list_of))]
pub fn read_list<T: Drop, F: Fn(&Value, &Place) -> Result<T, WalkFault>>(
    alloc: Global,
    value: &Value,
    at: &Place,
    read_item: F,
) -> Result<ListOf<T>, WalkFault>
    requires { F.IsAlwaysCallable read_item }
    ensures { (item_of : List ℕ → Data → Result T WalkFault) → ReadsBy (F.post read_item) item_of
        → Follows WalkFault.Memory result (list_of item_of at.now (view value.now)) }
{
    let items = read_items(value, at)?;
    read_each(alloc, items, at, read_item)
}

/// What the items of the list at the place `at` say, in order, each as `read_item` reads it, given the item and its place. It is Shape where the
/// value is no list, Limit where its length is outside the limit, else the first fault of an item.
#[tactic(auto, unfolding(crate::specs::Lists::few_of))]
pub fn read_few<T: Drop, F: Fn(&Value, &Place) -> Result<T, WalkFault>>(
    alloc: Global,
    value: &Value,
    at: &Place,
    limit: Limit,
    read_item: F,
) -> Result<ListOf<T>, WalkFault>
    requires { F.IsAlwaysCallable read_item }
    ensures { (item_of : List ℕ → Data → Result T WalkFault) → ReadsBy (F.post read_item) item_of
        → Follows WalkFault.Memory result (few_of item_of at.now limit (view value.now)) }
{
    let items = read_few_items(value, at, limit)?;
    read_each(alloc, items, at, read_item)
}

fn push_counted<T: Drop, F: Fn(&Value, &Place, u64) -> Result<(T, u64), WalkFault>>(
    value: &Value,
    here: &Place,
    before: u64,
    bound: u64,
    list: &mut ListOf<T>,
    read_item: &F,
) -> Result<u64, WalkFault>
    requires few { before ≤ bound }
    requires callable { (v : Bor Value) (p : Bor (List ℕ)) (n : ℕ) → n ≤ bound → F.pre read_item.now v p n }
    requires within { (v : Bor Value) (p : Bor (List ℕ)) (n : ℕ) (r : Result _ WalkFault) → n ≤ bound → F.post read_item.now v p n r
        → IfOk r (λ s. s.1 ≤ bound) }
    ensures read { (item_of : ℕ → List ℕ → Data → Result _ WalkFault) → CountsBy bound (F.post read_item.now) item_of
        → FollowsAs WalkFault.Memory (λ n. (list.new, n)) result (counted_item item_of here.now (list.old, before) (view value.now)) }
    ensures few { IfOk result (λ n. n ≤ bound) }
{
    let (item, count) = read_item(value, here, before)?;
    list.push(item)?;
    Ok(count)
}

fn read_each_counted<T: Drop, F: Fn(&Value, &Place, u64) -> Result<(T, u64), WalkFault>>(
    alloc: Global,
    items: &[Value],
    at: &Place,
    bound: u64,
    read_item: &F,
) -> Result<(ListOf<T>, u64), WalkFault>
    requires callable { (v : Bor Value) (p : Bor (List ℕ)) (n : ℕ) → n ≤ bound → F.pre read_item.now v p n }
    requires within { (v : Bor Value) (p : Bor (List ℕ)) (n : ℕ) (r : Result _ WalkFault) → n ≤ bound → F.post read_item.now v p n r
        → IfOk r (λ s. s.1 ≤ bound) }
    ensures { (item_of : ℕ → List ℕ → Data → Result _ WalkFault) → CountsBy bound (F.post read_item.now) item_of
        → Follows WalkFault.Memory result (walk_items (counted_step item_of at.now) 0 ([], 0) (items_view items.now)) }
{
    let mut list = ListOf::new(alloc);
    let mut count = 0;
    'items: for (i, item) in items.iter().enumerate() {
        count = push_counted(item, &at.item(i), count, bound, &mut list, read_item)?;
    }
    Ok((list, count))
}

/// What the items of the list at the place `at` say, with the count after the last of them, 0 for an empty list. `read_item` takes what was counted in
/// the items before, 0 at the first and never above `bound`, and gives the count after its item. Shape where the value is no list, Limit where its
/// length is outside the limit, else the first fault of an item.
#[tactic(auto, unfolding(crate::specs::Lists::counted_of))]
pub fn read_counted<T: Drop, F: Fn(&Value, &Place, u64) -> Result<(T, u64), WalkFault>>(
    alloc: Global,
    value: &Value,
    at: &Place,
    limit: Limit,
    bound: u64,
    read_item: F,
) -> Result<(ListOf<T>, u64), WalkFault>
    requires callable { (v : Bor Value) (p : Bor (List ℕ)) (n : ℕ) → n ≤ bound → F.pre read_item v p n }
    requires within { (v : Bor Value) (p : Bor (List ℕ)) (n : ℕ) (r : Result _ WalkFault) → n ≤ bound → F.post read_item v p n r → IfOk r (λ s. s.1 ≤ bound) }
    ensures { (item_of : ℕ → List ℕ → Data → Result _ WalkFault) → CountsBy bound (F.post read_item) item_of
        → Follows WalkFault.Memory result (counted_of item_of at.now limit (view value.now)) }
{
    let items = read_few_items(value, at, limit)?;
    read_each_counted(alloc, items, at, bound, &read_item)
}
