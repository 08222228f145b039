//! The values of the keys of an object.
ghost use Rattle.std.specs.Prelude.{◌≡◌, IfSome, IfNone, Some, None, is_some, option_and_then};
ghost use Rattle.serde_json.specs.Data.{Data, Members};
ghost use Rattle.serde_json.specs.Find.{as_object};
ghost use Rattle.serde_json.specs.View.{members_view, view};
ghost use Rattle.json_form.specs.Left.{seen_values};
ghost use Rattle.json_form.specs.Taking.{next_member, order_member, values_from, values_of};

use serde_json::{Map, Value};
use std::alloc::Global;

// The values of an input's first four keys.
#[derive(Drop)]
pub(crate) struct FirstValues {
    pub(crate) callers: Value,
    pub(crate) calls: Value,
    pub(crate) edges: Value,
    pub(crate) k: Value,
}

// The values of the keys after them.
#[derive(Drop)]
pub(crate) struct LastValues {
    pub(crate) nodes: Value,
    pub(crate) order: Value,
    pub(crate) subs: Value,
    pub(crate) track: Value,
}

// The values of an input's keys.
#[derive(Drop)]
pub(crate) struct InputValues {
    pub(crate) first: FirstValues,
    pub(crate) last: LastValues,
}

// Takes the first member, where it has this key.
fn take_member(members: &mut Map<String, Value>, key: &str) -> Option<Value>
    ensures some { IfSome result (λ v. next_member key.now (members_view members.old.entries)
        ≡ Some (view v, members_view members.new.entries)) }
    ensures none { IfNone result (next_member key.now (members_view members.old.entries) ≡ None) }
{
    let (name, value) = members.pop_first()?;
    if name.as_str() == key {
        Some(value)
    } else {
        None
    }
}

// Whether the first member has this key.
fn is_next(members: &Map<String, Value>, key: &str) -> bool
    ensures { result ≡ is_some (next_member key.now (members_view members.now.entries)) }
{
    match members.first_key_value() {
        Some((name, _)) => name.as_str() == key,
        None => false,
    }
}

// Takes the order, where it is the first member; else it is an empty list.
fn take_order(alloc: Global, members: &mut Map<String, Value>) -> Value
    ensures { order_member (members_view members.old.entries)
        ≡ (view result, members_view members.new.entries) }
{
    if is_next(members, "order") {
        if let Some(order) = take_member(members, "order") {
            return order;
        }
    }
    Value::Array(Vec::new(alloc))
}

// The values of an object that has exactly the keys of an input.
pub(crate) fn take_values(alloc: Global, value: Value) -> Option<InputValues>
    ensures some { IfSome result (λ values. option_and_then values_of (as_object (view value))
        ≡ Some (seen_values values)) }
    ensures none { IfNone result (option_and_then values_of (as_object (view value)) ≡ None) }
{
    let Value::Object(members) = value else {
        return None;
    };
    take_all(alloc, members)
}

// Takes the members of the first four keys, where the members begin with them.
fn take_first(members: &mut Map<String, Value>) -> Option<FirstValues>
    ensures some { IfSome result (λ first. values_of (members_view members.old.entries)
        ≡ values_from (view first.callers) (view first.calls) (view first.edges) (view first.k)
        (members_view members.new.entries)) }
    ensures none { IfNone result (values_of (members_view members.old.entries) ≡ None) }
{
    Some(FirstValues {
        callers: take_member(members, "callers")?,
        calls: take_member(members, "calls")?,
        edges: take_member(members, "edges")?,
        k: take_member(members, "k")?,
    })
}

// Takes the other members, where they have exactly the other keys.
fn take_last(alloc: Global, members: &mut Map<String, Value>) -> Option<LastValues>
    ensures some { (callers calls edges k : Data) → IfSome result (λ last.
        values_from callers calls edges k (members_view members.old.entries) ≡ Some (record {
          callers = callers;
          calls = calls;
          edges = edges;
          k = k;
          nodes = view last.nodes;
          order = view last.order;
          subs = view last.subs;
          track = view last.track;
        })) }
    ensures none { (callers calls edges k : Data) → IfNone result
        (values_from callers calls edges k (members_view members.old.entries) ≡ None) }
{
    let nodes = take_member(members, "nodes")?;
    let order = take_order(alloc, members);
    let subs = take_member(members, "subs")?;
    let track = take_member(members, "track")?;
    if !members.is_empty() {
        return None;
    }
    Some(LastValues {
        nodes,
        order,
        subs,
        track,
    })
}

// The values, where the members have exactly the keys of an input.
fn take_all(alloc: Global, members: Map<String, Value>) -> Option<InputValues>
    ensures some { IfSome result (λ values. values_of (members_view members.entries)
        ≡ Some (seen_values values)) }
    ensures none { IfNone result (values_of (members_view members.entries) ≡ None) }
{
    let mut left = members;
    let first = take_first(&mut left)?;
    let last = take_last(alloc, &mut left)?;
    Some(InputValues { first, last })
}
