//! Nodes in a slab, each with the keys of its neighbours, and how two of them become neighbours.
ghost use Rattle.std.specs.Prelude.{◌≡◌, ◌≢◌, ℕ, List, ◌∷◌, ◌++◌, Option, Some, None};
ghost use Rattle.slab.specs.Slab.{get, slab_len, ContainsKey};
ghost use Rattle.lb_links.specs.Lists.{last_from, Lacks, AreDistinct};
ghost use Rattle.lb_links.specs.declared.node.Node.{Node};
ghost use Rattle.lb_links.specs.Chains.{first_of, Linked, Rewrites, Keeps, IsGap, IsChain, stored};

use slab::Slab;
use std::mem;

/// A value in the list, with the keys of its neighbours: None at an end of the list.
#[derive(Drop)]
pub struct Node<X> {
    pub(crate) value: X,
    pub(crate) before: Option<usize>,
    pub(crate) after: Option<usize>,
}

/// The keys of the first node and of the last one: None where the list is empty.
#[derive(Drop)]
pub struct Ends {
    pub(crate) front: Option<usize>,
    pub(crate) back: Option<usize>,
}

// The node of a key gets another neighbour towards the front.
fn set_before<X>(nodes: &mut Slab<Node<X>>, key: usize, before: Option<usize>)
    ensures { Rewrites (λ n. record n { before = before }) nodes.old nodes.new key }
{
    if let Some(node) = nodes.get_mut(key) {
        node.before = before;
    }
}

// The node of a key gets another neighbour towards the back.
fn set_after<X>(nodes: &mut Slab<Node<X>>, key: usize, after: Option<usize>)
    ensures { Rewrites (λ n. record n { after = after }) nodes.old nodes.new key }
{
    if let Some(node) = nodes.get_mut(key) {
        node.after = after;
    }
}

// What is before a gap is followed by what is after it: a node, or else the front of the list.
fn link_after<X>(
    nodes: &mut Slab<Node<X>>,
    ends: &mut Ends,
    before: Option<usize>,
    after: Option<usize>,
)
    ensures left { (xs : List (ℕ × X)) (a0 a1 : Option ℕ) → before ≡ last_from None xs → Linked nodes.old None xs a0
        → AreDistinct xs → ends.old.front ≡ first_of xs a1
        → Linked nodes.new None xs after × (ends.new.front ≡ first_of xs after) }
    ensures others { (k : ℕ) → before ≢ Some k → get nodes.new k ≡ get nodes.old k }
    ensures back { ends.new.back ≡ ends.old.back }
    ensures kept { Keeps nodes.old nodes.new }
{
    match before {
        Some(key) => set_after(nodes, key, after),
        None => ends.front = after,
    }
}

// What is after a gap follows what is before it: a node, or else the back of the list.
fn link_before<X>(
    nodes: &mut Slab<Node<X>>,
    ends: &mut Ends,
    before: Option<usize>,
    after: Option<usize>,
)
    ensures right { (ys : List (ℕ × X)) (b0 b1 : Option ℕ) → after ≡ first_of ys None → Linked nodes.old b0 ys None
        → AreDistinct ys → ends.old.back ≡ last_from b1 ys
        → Linked nodes.new before ys None × (ends.new.back ≡ last_from before ys) }
    ensures others { (k : ℕ) → after ≢ Some k → get nodes.new k ≡ get nodes.old k }
    ensures front { ends.new.front ≡ ends.old.front }
    ensures kept { Keeps nodes.old nodes.new }
{
    match after {
        Some(key) => set_before(nodes, key, before),
        None => ends.back = before,
    }
}

// Makes the nodes before and after a gap neighbours. None stands for an end of the list.
fn link<X>(nodes: &mut Slab<Node<X>>, ends: &mut Ends, before: Option<usize>, after: Option<usize>)
    ensures chain { (xs ys : List (ℕ × X)) → IsGap nodes.old ends.old before after xs ys
        → IsChain nodes.new ends.new (xs ++ ys) }
    ensures kept { Keeps nodes.old nodes.new }
{
    link_after(nodes, ends, before, after);
    link_before(nodes, ends, before, after);
}

/// Puts another value into the node of a key, and answers the one that was there.
pub(crate) fn replace_value<X>(nodes: &mut Slab<Node<X>>, key: usize, value: X) -> X
    requires { ContainsKey nodes.old key }
    ensures value { stored nodes.old key ≡ Some result }
    ensures node { (n : Node X) → get nodes.old key ≡ Some n → get nodes.new key ≡ Some (record n { value = value }) }
    ensures others { (other : ℕ) → other ≢ key → get nodes.new other ≡ get nodes.old other }
    ensures len { slab_len nodes.new ≡ slab_len nodes.old }
    ensures capacity { nodes.new.capacity ≡ nodes.old.capacity }
{
    mem::replace(&mut nodes[key].value, value)
}

/// Takes the node of a key out of the list, and leaves it in the slab.
pub(crate) fn unlink<X>(nodes: &mut Slab<Node<X>>, ends: &mut Ends, key: usize)
    ensures chain { (xs ys : List (ℕ × X)) (x : X) → IsChain nodes.old ends.old (xs ++ (key, x) ∷ ys)
        → IsChain nodes.new ends.new (xs ++ ys) }
    ensures kept { Keeps nodes.old nodes.new }
{
    if let Some(node) = nodes.get(key) {
        let (before, after) = (node.before, node.after);
        link(nodes, ends, before, after);
    }
}

/// Puts a node that stands in the slab, and not in the list, before all others.
pub(crate) fn lead<X>(nodes: &mut Slab<Node<X>>, ends: &mut Ends, key: usize)
    ensures chain { (cells : List (ℕ × X)) (x : X) → IsChain nodes.old ends.old cells → Lacks key cells
        → stored nodes.old key ≡ Some x → IsChain nodes.new ends.new ((key, x) ∷ cells) }
    ensures kept { Keeps nodes.old nodes.new }
{
    let first = ends.front;
    ends.front = Some(key);
    set_before(nodes, key, None);
    link(nodes, ends, Some(key), first);
}
