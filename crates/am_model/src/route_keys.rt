//! The keys of routes, by which Alertmanager's log knows a route again: `Route.Key` of its
//! `dispatch`.
//!
//! A key is a text, the same as in Alertmanager's own log lines, such as `{}/{severity="critical"}`.
//! It repeats the matchers of the routes above. So the keys of a tree take memory for the matchers of
//! each route, times the routes below it.
ghost use Rattle.std.specs.Prelude.{◌≡◌, ◌++◌, ◌≤◌, ℕ, List, [], ◌∷◌, ◌+◌, IfOk, OnOk, codes, if◌then◌else◌, length, string_bytes};
ghost use Rattle.std.specs.List.{insert, join_by};
ghost use Rattle.std.specs.Str.{bytes_eq};
ghost use Rattle.am_alerts.specs.Layout.{preorder, planted};
ghost use Rattle.am_alerts.specs.RouteLayouts.{IsPreorder, part};
ghost use Rattle.am_alerts.specs.RoutingTree.{last_of};
ghost use Rattle.am_alerts.specs.declared.limits.TheConstants.{MAX_ROUTES};
ghost use Rattle.am_model.specs.Lists.{in_order, put_in_order};
ghost use Rattle.am_model.specs.RouteKeys.{rank, matcher_cmp, matcher_text, matchers_text, key_below, keys_below, keys_of};
ghost use Rattle.am_model.specs.KeyIndex.{IsIndexOf, positions_at};

use am_alerts::label_text::push_escaped;
use am_alerts::matcher::{Matcher, MatcherParts, Operator};
use am_alerts::route::Routes;
use am_alerts::text::Text;
use std::alloc::{AllocError, Global};
use std::cmp::Ordering;
use std::collections::HashMap;

/// Returns the keys of a tree's routes, by their positions.
///
/// The root's is `{}`. Each other is the key of the route right above it, `/`, and the route's own
/// matchers between braces. They are sorted by name, value and operator, and the values are quoted.
pub fn route_keys(alloc: Global, routes: &Routes) -> Result<Vec<Text>, AllocError>
    ensures keys { IfOk result (λ keys. keys.items ≡ keys_of routes.now) }
    ensures few { IfOk result (λ keys. length keys.items ≤ 1 + MAX_ROUTES) }
{
    let mut keys = Vec::new(alloc);
    let root = Text::new(alloc, "{}")?;
    let count = routes.last() as usize;
    keys.push(root.copy(alloc)?)?;
    push_keys(alloc, &mut keys, routes, 0, count, root.as_str())?;
    Ok(keys)
}

/// Adds the keys of the routes at one level and below them, which are in the list of children from
/// one index up to another, below a route with this key.
fn push_keys(
    alloc: Global,
    keys: &mut Vec<Text>,
    routes: &Routes,
    from: usize,
    to: usize,
    above: &str,
) -> Result<(), AllocError>
    requires ordered { from ≤ to }
    requires within { to ≤ last_of routes.now }
    requires preorder { IsPreorder (part from to (preorder routes.now.below)) }
    ensures { OnOk result (keys.new.items ≡ keys.old.items
        ++ keys_below above.now (planted (part from to (preorder routes.now.below)))) }
{
    let children = routes.children();
    let mut at = from;
    while at < to {
        let end = at + 1 + routes.below(at as u32 + 1) as usize;
        let key = key_below(alloc, above, children[at].matchers.as_slice())?;
        keys.push(key.copy(alloc)?)?;
        push_keys(alloc, keys, routes, at + 1, end, key.as_str())?;
        at = end;
    }
    Ok(())
}

/// Returns the key of a route of these matchers right below one with this key.
fn key_below(alloc: Global, above: &str, matchers: &[Matcher]) -> Result<Text, AllocError>
    ensures { IfOk result (λ key. key ≡ key_below above.now matchers.now) }
{
    let mut text = String::from_str(alloc, above)?;
    text.push_str("/")?;
    push_matchers(alloc, &mut text, matchers)?;
    Ok(Text::from(text))
}

/// Appends matchers, in their order, between braces.
fn push_matchers(alloc: Global, out: &mut String, matchers: &[Matcher]) -> Result<(), AllocError>
    ensures { OnOk result (string_bytes out.new ≡ string_bytes out.old ++ matchers_text matchers.now) }
{
    let sorted = sorted(alloc, matchers)?;
    out.push_str("{")?;
    push_list(out, sorted.as_slice())?;
    out.push_str("}")
}

/// Returns matchers in their order.
fn sorted(alloc: Global, matchers: &[Matcher]) -> Result<Vec<MatcherParts>, AllocError>
    ensures { IfOk result (λ sorted. sorted.items ≡ in_order matcher_cmp matchers.now) }
{
    let mut sorted = Vec::new(alloc);
    for i in 0..matchers.len() {
        let parts = matchers[matchers.len() - 1 - i].parts();
        let index = index_for(sorted.as_slice(), parts);
        sorted.insert(index, parts.copy(alloc)?)?;
    }
    Ok(sorted)
}

/// Returns the index of a matcher among sorted ones: before the first that it isn't above.
fn index_for(sorted: &[MatcherParts], parts: &MatcherParts) -> usize
    ensures within { result ≤ length sorted.now }
    ensures index { insert sorted.now result parts.now ≡ put_in_order matcher_cmp parts.now sorted.now }
{
    for i in 0..sorted.len() {
        if !matcher_cmp(parts, &sorted[i]).is_gt() {
            return i;
        }
    }
    sorted.len()
}

/// Compares matchers by name, then by value, then by operator.
fn matcher_cmp(a: &MatcherParts, b: &MatcherParts) -> Ordering
    ensures { result ≡ matcher_cmp a.now b.now }
{
    let operators = rank(a.op).cmp(&rank(b.op));
    let values = a.value.cmp(&b.value);
    a.name.cmp(&b.name).then(values.then(operators))
}

/// Returns the rank of an operator among all.
fn rank(op: Operator) -> u8
    ensures { result ≡ rank op }
{
    match op {
        Operator::Equal => 0,
        Operator::NotEqual => 1,
        Operator::Like => 2,
        Operator::NotLike => 3,
    }
}

/// Appends matchers with a comma between them.
fn push_list(out: &mut String, matchers: &[MatcherParts]) -> Result<(), AllocError>
    ensures { OnOk result (string_bytes out.new
        ≡ string_bytes out.old ++ join_by matcher_text (codes ",") matchers.now) }
{
    for i in 0..matchers.len() {
        if i > 0 {
            out.push_str(",")?;
        }
        push_matcher(out, &matchers[i])?;
    }
    Ok(())
}

fn push_matcher(out: &mut String, parts: &MatcherParts) -> Result<(), AllocError>
    ensures { OnOk result (string_bytes out.new ≡ string_bytes out.old ++ matcher_text parts.now) }
{
    out.push_str(parts.name.as_str())?;
    out.push_str(parts.op.text())?;
    out.push_str("\"")?;
    push_escaped(out, parts.value.as_str())?;
    out.push_str("\"")
}

/// The positions of routes by their keys.
pub(crate) type KeyIndex = HashMap<Text, Vec<u32>>;

/// Returns where each of these keys is.
pub(crate) fn index_of(alloc: Global, keys: &[Text]) -> Result<KeyIndex, AllocError>
    requires few { length keys.now ≤ 1 + MAX_ROUTES }
    ensures { IfOk result (λ index. IsIndexOf keys.now index) }
{
    let mut index = HashMap::new(alloc);
    for i in 0..keys.len() {
        let key = keys[i].copy(alloc)?;
        put(alloc, &mut index, key, i as u32)?;
    }
    Ok(index)
}

/// Puts a position behind those of a key.
fn put(alloc: Global, index: &mut KeyIndex, key: Text, position: u32) -> Result<(), AllocError>
    ensures { OnOk result ((other : List ℕ) → positions_at index.new other
        ≡ (if bytes_eq key other then positions_at index.old other ++ position ∷ [] else positions_at index.old other)) }
{
    let mut positions = match index.remove(&key) {
        Some(positions) => positions,
        None => Vec::new(alloc),
    };
    positions.push(position)?;
    index.insert(key, positions)?;
    Ok(())
}

/// Returns where a key is.
pub(crate) fn positions_at<'i>(index: &'i KeyIndex, key: &Text) -> &'i [u32]
    ensures { result.now ≡ positions_at index.now key.now }
{
    match index.get(key) {
        Some(positions) => positions.as_slice(),
        None => &[],
    }
}
