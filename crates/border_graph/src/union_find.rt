//! Union-find: nodes are joined if they have the same root.
ghost use Rattle.std.specs.Prelude.{◌≡◌, ℕ, ℤ, ◌<◌, ◌≤◌, ◌⊎◌, List, IfOk, true, false, length, slice_index_or};
ghost use Rattle.border_graph.specs.UnionFind.{AreOver, IsFalling, IsRoot, roots};
ghost use Rattle.border_graph.specs.Passes.{AreJoined};
ghost use Rattle.border_graph.specs.declared.pass.Pass.{Pass as PassOf};

use std::alloc::{AllocError, Global};

/// A list of `count` nodes, each of which is a root.
pub(crate) fn singletons(alloc: Global, count: usize) -> Result<Vec<usize>, AllocError>
    ensures whole { IfOk result (λ parent. length parent.items ≡ count) }
    ensures roots { IfOk result (λ parent. (x : ℕ) → x < count
        → slice_index_or parent.items x 0 ≡ x) }
{
    let mut parent = Vec::new(alloc);
    for x in 0..count {
        parent.push(x)?;
    }
    Ok(parent)
}

// The root above the node. Each node on the path gets its grandparent as parent.
fn find(parent: &mut [usize], from: usize) -> usize
    requires inside { from < length parent.old }
    requires falling { IsFalling parent.old }
    ensures inside { result < length parent.new }
    ensures top { slice_index_or parent.new result 0 ≡ result }
    ensures below { result ≤ from }
    ensures whole { length parent.new ≡ length parent.old }
    ensures falling { IsFalling parent.new }
    ensures same { (x : ℕ) → IsRoot parent.old x → IsRoot parent.new x }
    ensures as_many { roots (length parent.old) parent.new ≡ roots (length parent.old) parent.old }
    ensures over { (passes : List PassOf) (level : ℤ) → AreOver passes level parent.old
        → AreOver passes level parent.new }
    ensures joined { (passes : List PassOf) (level : ℤ) → AreOver passes level parent.old
        → AreJoined passes level from result }
{
    let mut x = from;
    'up: while parent[x] != x {
        let next = parent[parent[x]];
        parent[x] = next;
        x = next;
    }
    x
}

/// Joins the trees of the two nodes. True if they were apart.
pub(crate) fn union(parent: &mut [usize], a: usize, b: usize) -> bool
    requires inside { (a < length parent.old) × (b < length parent.old) }
    requires falling { IsFalling parent.old }
    ensures whole { length parent.new ≡ length parent.old }
    ensures falling { IsFalling parent.new }
    ensures fewer { result ≡ true
        → roots (length parent.old) parent.new < roots (length parent.old) parent.old }
    ensures no_more { roots (length parent.old) parent.new ≤ roots (length parent.old) parent.old }
    ensures over { (passes : List PassOf) (level : ℤ) → AreJoined passes level a b
        → AreOver passes level parent.old → AreOver passes level parent.new }
    ensures together { result ≡ false → (passes : List PassOf) (level : ℤ)
        → AreOver passes level parent.old → AreJoined passes level a b }
{
    let one = find(parent, a);
    let other = find(parent, b);
    if one == other {
        return false;
    }
    link_roots(parent, one, other);
    true
}

// Makes the earlier of two roots the parent of the later.
fn link_roots(parent: &mut [usize], one: usize, other: usize)
    requires inside { (one < length parent.old) × (other < length parent.old) }
    requires apart { one ≡ other → ⊥ }
    requires falling { IsFalling parent.old }
    requires roots { IsRoot parent.old one × IsRoot parent.old other }
    ensures whole { length parent.new ≡ length parent.old }
    ensures falling { IsFalling parent.new }
    ensures fewer { roots (length parent.old) parent.new < roots (length parent.old) parent.old }
    ensures over { (passes : List PassOf) (level : ℤ) → AreJoined passes level one other
        → AreOver passes level parent.old → AreOver passes level parent.new }
{
    if one < other {
        set_parent(parent, other, one);
    } else {
        set_parent(parent, one, other);
    }
}

// Makes an earlier node the parent of a root.
fn set_parent(parent: &mut [usize], later: usize, earlier: usize)
    requires inside { later < length parent.old }
    requires before { earlier < later }
    requires falling { IsFalling parent.old }
    requires top { IsRoot parent.old later }
    ensures whole { length parent.new ≡ length parent.old }
    ensures falling { IsFalling parent.new }
    ensures fewer { roots (length parent.old) parent.new < roots (length parent.old) parent.old }
    ensures over { (passes : List PassOf) (level : ℤ) → AreJoined passes level later earlier
        → AreOver passes level parent.old → AreOver passes level parent.new }
{
    parent[later] = earlier;
}
