//! What the making of a cover writes over.

ghost use Rattle.std.specs.Prelude.{◌≡◌, ◌≤◌, ◌++◌, ◌∷◌, ◌-◌, ℕ, [], All, IfOk, IsOk, OnErr, OnOk, length};
ghost use Rattle.node_set.specs.Nodes.{Nodes};
ghost use Rattle.node_set.specs.Workspaces.{IsWorkspace, SpareTaken};

use crate::set::{NodeSet, OutOfMemory};
use std::alloc::Global;

/// The balls of the cluster that grows, and the waiting balls that touch it; and sets to make
/// clusters of.
#[derive(Drop)]
pub struct Growth {
    pub taken: NodeSet,
    pub touched: NodeSet,
    pub spare: Vec<NodeSet>,
}

/// The balls that are left, those that wait in a phase, and those of the cluster that grows. It
/// serves one coarsening after another.
#[derive(Drop)]
pub struct Workspace {
    pub left: NodeSet,
    pub waiting: NodeSet,
    pub growth: Growth,
}

impl Workspace {
    /// A workspace for coarsenings of `n` balls.
    pub fn new(alloc: Global, n: u32) -> Result<Self, OutOfMemory>
        requires { n ≤ 1024 }
        ensures { IfOk result (IsWorkspace n) }
    {
        Ok(Self {
            left: NodeSet::empty(alloc, n)?,
            waiting: NodeSet::empty(alloc, n)?,
            growth: Growth {
                taken: NodeSet::empty(alloc, n)?,
                touched: NodeSet::empty(alloc, n)?,
                spare: Vec::new(alloc),
            },
        })
    }

    /// Takes the set of a cluster that is done with, to make another of: it is the next that
    /// [`empty_set`] hands out. Where memory is wanting the set is dropped, and the workspace stays
    /// of use.
    pub fn give_back(&mut self, set: NodeSet) -> Result<(), OutOfMemory>
        ensures kept { OnOk result
            (self.new.growth.spare.items ≡ self.old.growth.spare.items ++ set ∷ []) }
        ensures others { self.new ≡ record self.old {
          growth = record self.old.growth
              { spare = self.new.growth.spare };
        } }
        ensures dropped { OnErr result
            (self.new.growth.spare.items ≡ self.old.growth.spare.items) }
        ensures sized { (n : ℕ) → IsWorkspace n self.old → set.room ≡ n
            → IsWorkspace n self.new }
    {
        self.growth.spare.push(set)?;
        Ok(())
    }
}

/// An empty set: the last of the spare sets where there is one, so that memory can't be wanting
/// then, and the others stay.
pub fn empty_set(alloc: Global, spare: &mut Vec<NodeSet>, room: u32) -> Result<NodeSet, OutOfMemory>
    requires small { room ≤ 1024 }
    requires spare { All (λ (s : Nodes). s.room ≡ room) spare.old.items }
    ensures set { IfOk result (λ set. set ≡ record { room = room; members = [] }) }
    ensures spare { All (λ (s : Nodes). s.room ≡ room) spare.new.items }
    ensures taken { SpareTaken 1 spare.old.items spare.new.items }
    ensures there { 1 ≤ length spare.old.items → IsOk result }
{
    match spare.pop() {
        Some(set) => {
            let mut cleared = set;
            cleared.clear();
            Ok(cleared)
        }
        None => Ok(NodeSet::empty(alloc, room)?),
    }
}
