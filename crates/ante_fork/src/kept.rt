ghost use Rattle.std.specs.Prelude.{◌≡◌, ◌+◌, ◌<◌, ◌++◌, ◌∷◌, [], length, take, drop, slice_index_or, None, OnOk, OnErr};
ghost use Rattle.std.specs.Option.{option_copied};
ghost use Rattle.std.specs.List.{AllByRecursion};
ghost use Rattle.std.specs.BTreeMap.{get};
ghost use Rattle.std.specs.Ordering.{nat_cmp};
ghost use Rattle.std.specs.Cmp.Lexicographic.{slice_cmp};
ghost use Rattle.ante_fork.specs.declared.node.Node.{Node};
ghost use Rattle.ante_fork.specs.Tree.{id_of, find_block};
ghost use Rattle.ante_fork.specs.Shown.{newest, IsNamed};
ghost use Rattle.ante_fork.specs.Found.{block_shown};

use crate::node::Node;
use ante_pack::Digest;
use ante_types::Block;
use std::alloc::{AllocError, Global};
use std::collections::BTreeMap;
use std::marker::Model;
use std::rc::Rc;

/// Kept blocks in the order of arrival, the oldest first, and by id.
#[derive(Drop)]
pub struct KeptBlocks {
    nodes: Vec<Node>,
    by_id: BTreeMap<Digest, Rc<Block>>,
}

impl Model for KeptBlocks {
    ghost use Rattle.std.specs.Prelude.{List};
    ghost use Rattle.ante_fork.specs.declared.node.Node.{Node};
    ghost use Rattle.ante_fork.specs.Found.{IsFound};

    ghost Value = { List Node };

    ghost view = { λ s. s.nodes.items };

    ghost invariant = { λ s. IsFound s.by_id s.nodes.items };
}

fn block_in<'a>(blocks: &'a BTreeMap<Digest, Rc<Block>>, id: &Digest) -> Option<&'a Block>
    ensures { option_copied result ≡ block_shown (get (slice_cmp nat_cmp) blocks.now id.now) }
{
    let block = blocks.get(id)?;
    Some(block.as_ref())
}

fn node_at(nodes: &[Node], at: usize) -> &Node
    requires within { at < length nodes.now }
    requires named { AllByRecursion IsNamed nodes.now }
    ensures value { (d : Node) → result.now ≡ slice_index_or nodes.now at d }
    ensures named { IsNamed result.now }
{
    &nodes[at]
}

impl KeptBlocks {
    pub fn new(alloc: Global) -> KeptBlocks
        ensures { result ≡ [] }
    {
        KeptBlocks {
            nodes: Vec::new(alloc),
            by_id: BTreeMap::new(alloc),
        }
    }

    pub fn as_slice(&self) -> &[Node]
        ensures value { result.now ≡ self.now }
        ensures named { AllByRecursion IsNamed self.now }
    {
        self.nodes.as_slice()
    }

    pub fn len(&self) -> usize
        ensures { result ≡ length self.now }
    {
        self.nodes.as_slice().len()
    }

    /// The node at a place.
    pub fn node(&self, at: usize) -> &Node
        requires { at < length self.now }
        ensures value { (d : Node) → result.now ≡ slice_index_or self.now at d }
        ensures named { IsNamed result.now }
    {
        node_at(self.as_slice(), at)
    }

    /// The block of an id.
    pub fn find(&self, id: &Digest) -> Option<&Block>
        ensures { option_copied result ≡ find_block id.now (newest self.now) }
    {
        block_in(&self.by_id, id)
    }

    /// Room is made in the list before the map is changed.
    pub fn push(&mut self, alloc: Global, id: Digest, block: Block) -> Result<(), AllocError>
        requires id { id ≡ id_of block }
        requires new { find_block id (newest self.old) ≡ None }
        ensures ok { OnOk result (newest self.new ≡ block ∷ newest self.old) }
        ensures err { OnErr result (self.new ≡ self.old) }
    {
        let block = Rc::new(alloc, block)?;
        let copy = block.clone()?;
        self.nodes.reserve(1)?;
        self.by_id.insert(id, copy)?;
        self.nodes.push_reserved(Node { id, block });
        Ok(())
    }

    /// Takes out the block at a place.
    pub fn take_out(&mut self, at: usize)
        requires { at < length self.old }
        ensures { self.new ≡ take at self.old ++ drop (at + 1) self.old }
    {
        let node = self.nodes.remove(at);
        self.by_id.remove(&node.id);
    }
}
