//! Hidden names.
ghost use Rattle.std.specs.Prelude.{◌≡◌, ◌++◌, ◌∷◌, [], IfOk};
ghost use Rattle.lp_preproc.specs.Names.{among, order, with_name, with_names};
ghost use Rattle.lp_preproc.specs.NameTrees.{AreInOrder, height_of, names_in};

use lp_tree::chars::Chars;
use std::alloc::{AllocError, Global};
use std::cmp::Ordering;
use std::marker::Model;
use std::rc::Rc;

// Names in order.
#[cycle(tree)]
#[derive(Debug, Drop)]
enum Tree {
    Leaf,
    Fork(Rc<Branch>),
}

// A name, those before it, and those behind it. `height` is one more than that of the higher of the two branches, which
// keeps them alike.
#[cycle(tree)]
#[derive(Debug, Drop)]
struct Branch {
    left: Tree,
    name: Chars,
    height: u32,
    right: Tree,
}

/// The names that are no macros in a place. Copies share their memory, and so does a set with one that has a name more.
#[derive(Debug, Drop)]
pub struct Names {
    tree: Tree,
}

impl Model for Names {
    ghost use Rattle.std.specs.Prelude.{List, ℕ};
    ghost use Rattle.lp_preproc.specs.NameTrees.{AreInOrder, names_in};

    ghost Value = { List (List ℕ) };

    ghost view = { λ n. names_in n.tree };

    ghost invariant = { λ n. AreInOrder (names_in n.tree) };
}

// The order of two names.
fn order(a: &[char], b: &[char]) -> Ordering
    ensures { result ≡ order a.now b.now }
{
    a.cmp(b)
}

// How high a tree is.
fn height(tree: &Tree) -> u32
    ensures { result ≡ height_of tree.now }
{
    match tree {
        Tree::Leaf => 0,
        Tree::Fork(b) => b.height,
    }
}

// The same tree, in the same memory.
fn copy(tree: &Tree) -> Result<Tree, AllocError>
    ensures { IfOk result (λ t. names_in t ≡ names_in tree.now) }
{
    match tree {
        Tree::Leaf => Ok(Tree::Leaf),
        Tree::Fork(b) => Ok(Tree::Fork(b.clone()?)),
    }
}

// A name with those before it and those behind it.
fn fork(alloc: Global, left: Tree, name: Chars, right: Tree) -> Result<Tree, AllocError>
    ensures { IfOk result (λ t. names_in t ≡ names_in left ++ name ∷ names_in right) }
{
    let height = height(&left).max(height(&right)).saturating_add(1);
    let branch = Branch {
        left,
        name,
        height,
        right,
    };
    Ok(Tree::Fork(Rc::new(alloc, branch)?))
}

// The same, where the left branch is too high.
fn lean_left(alloc: Global, left: &Branch, name: Chars, right: Tree) -> Result<Tree, AllocError>
    ensures { IfOk result (λ t. names_in t ≡ (names_in left.now.left ++ left.now.name ∷ names_in left.now.right) ++ name ∷ names_in right) }
{
    let first = copy(&left.left)?;
    if height(&left.left) >= height(&left.right) {
        let last = fork(alloc, copy(&left.right)?, name, right)?;
        return fork(alloc, first, left.name.copy()?, last);
    }
    match &left.right {
        Tree::Leaf => {
            let last = fork(alloc, Tree::Leaf, name, right)?;
            fork(alloc, first, left.name.copy()?, last)
        }
        Tree::Fork(middle) => {
            let first = fork(alloc, first, left.name.copy()?, copy(&middle.left)?)?;
            let last = fork(alloc, copy(&middle.right)?, name, right)?;
            fork(alloc, first, middle.name.copy()?, last)
        }
    }
}

// The same, where the right branch is too high.
fn lean_right(alloc: Global, left: Tree, name: Chars, right: &Branch) -> Result<Tree, AllocError>
    ensures { IfOk result (λ t. names_in t ≡ names_in left ++ name ∷ (names_in right.now.left ++ right.now.name ∷ names_in right.now.right)) }
{
    let last = copy(&right.right)?;
    if height(&right.right) >= height(&right.left) {
        let first = fork(alloc, left, name, copy(&right.left)?)?;
        return fork(alloc, first, right.name.copy()?, last);
    }
    match &right.left {
        Tree::Leaf => {
            let first = fork(alloc, left, name, Tree::Leaf)?;
            fork(alloc, first, right.name.copy()?, last)
        }
        Tree::Fork(middle) => {
            let first = fork(alloc, left, name, copy(&middle.left)?)?;
            let last = fork(alloc, copy(&middle.right)?, right.name.copy()?, last)?;
            fork(alloc, first, middle.name.copy()?, last)
        }
    }
}

// A name with those before it and those behind it, in branches about as high as one another.
fn balanced(alloc: Global, left: Tree, name: Chars, right: Tree) -> Result<Tree, AllocError>
    ensures { IfOk result (λ t. names_in t ≡ names_in left ++ name ∷ names_in right) }
{
    let before = height(&left);
    let behind = height(&right);
    match (&left, &right) {
        (Tree::Fork(branch), _) if before > behind.saturating_add(1) => {
            lean_left(alloc, branch, name, right)
        }
        (_, Tree::Fork(branch)) if behind > before.saturating_add(1) => {
            lean_right(alloc, left, name, branch)
        }
        _ => fork(alloc, left, name, right),
    }
}

// One name more.
fn with_name(alloc: Global, tree: &Tree, name: &Chars) -> Result<Tree, AllocError>
    ensures { AreInOrder (names_in tree.now) → IfOk result (λ t. names_in t ≡ with_name name.now (names_in tree.now)) }
{
    match tree {
        Tree::Leaf => fork(alloc, Tree::Leaf, name.copy()?, Tree::Leaf),
        Tree::Fork(b) => match order(name.as_slice(), b.name.as_slice()) {
            Ordering::Less => {
                let left = with_name(alloc, &b.left, name)?;
                balanced(alloc, left, b.name.copy()?, copy(&b.right)?)
            }
            Ordering::Greater => {
                let right = with_name(alloc, &b.right, name)?;
                balanced(alloc, copy(&b.left)?, b.name.copy()?, right)
            }
            Ordering::Equal => copy(tree),
        },
    }
}

// Whether a name is in a tree.
fn contains(tree: &Tree, name: &[char]) -> bool
    requires { AreInOrder (names_in tree.now) }
    ensures { result ≡ among name.now (names_in tree.now) }
{
    let mut at = tree;
    'down: while let Tree::Fork(b) = at {
        match order(name, b.name.as_slice()) {
            Ordering::Less => at = &b.left,
            Ordering::Greater => at = &b.right,
            Ordering::Equal => return true,
        }
    }
    false
}

// Names, and those of a tree.
fn with_tree(alloc: Global, more: &Tree, names: Names) -> Result<Names, AllocError>
    ensures { IfOk result (λ n. n ≡ with_names (names_in more.now) names) }
{
    match more {
        Tree::Leaf => Ok(names),
        Tree::Fork(b) => {
            let first = with_tree(alloc, &b.left, names)?;
            let middle = first.with(alloc, &b.name)?;
            with_tree(alloc, &b.right, middle)
        }
    }
}

impl Names {
    /// No names. Takes no memory.
    pub fn none() -> Names
        ensures { result ≡ [] }
    {
        Names { tree: Tree::Leaf }
    }

    /// Whether a name is one of them. Takes time by the logarithm of their number.
    pub fn contains(&self, name: &[char]) -> bool
        ensures { result ≡ among name.now self.now }
    {
        contains(&self.tree, name)
    }

    /// The same names, in the same memory.
    pub fn copy(&self) -> Result<Names, AllocError>
        ensures { IfOk result (λ n. n ≡ self.now) }
    {
        Ok(Names {
            tree: copy(&self.tree)?,
        })
    }

    /// These names and one more. Takes time and memory by the logarithm of their number.
    pub fn with(&self, alloc: Global, name: &Chars) -> Result<Names, AllocError>
        ensures { IfOk result (λ n. n ≡ with_name name.now self.now) }
    {
        if contains(&self.tree, name.as_slice()) {
            return self.copy();
        }
        Ok(Names {
            tree: with_name(alloc, &self.tree, name)?,
        })
    }

    /// The names of both.
    pub fn with_all(&self, alloc: Global, more: &Names) -> Result<Names, AllocError>
        ensures { IfOk result (λ n. n ≡ with_names more.now self.now) }
    {
        with_tree(alloc, &more.tree, self.copy()?)
    }
}
