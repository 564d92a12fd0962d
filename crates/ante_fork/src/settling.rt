ghost use Rattle.std.specs.Prelude.{◌≡◌, ◌+◌, ◌≤◌, ◌<◌, true, length, take, slice_index_or, nat_lt, bytes_eq};
ghost use Rattle.std.specs.List.{AllByRecursion};
ghost use Rattle.ante_fork.specs.declared.node.Node.{Node};
ghost use Rattle.ante_fork.specs.Shown.{newest, test_on, IsNamed};
ghost use Rattle.ante_fork.specs.Tree.{id_of, num_of, pruned, AllPlaced};
ghost use Rattle.ante_types.specs.Ids as ids;
ghost use Rattle.ante_fork.specs.Finality.{opened, always};

use crate::kept::KeptBlocks;
use crate::node::Node;
use crate::walks::find_in;
use ante_pack::Digest;
use ante_types::block_num;

/// Leaves the blocks on the way down from the head, and those above the number. All before the place that it tells lie on
/// that way, and stay.
pub fn keep_open(nodes: &mut KeptBlocks, genesis: &Digest, head: &Digest, num: u32) -> usize
    requires first { ids.block_num genesis.now ≡ 1 }
    requires placed { AllPlaced genesis.now (newest nodes.old) }
    ensures left { newest nodes.new ≡ opened num head.now (newest nodes.old) }
    ensures within { result ≤ length nodes.new }
    ensures low { AllPlaced genesis.now (newest (take result nodes.new)) }
{
    let mut at = nodes.len();
    let mut next = *head;
    while at > 0 {
        at -= 1;
        if is_on(nodes, at, &next) {
            if is_full(nodes, at) {
                return at;
            }
            let previous = previous_at(nodes, at);
            next = previous;
            continue;
        }
        if is_above(nodes, at, num) {
            continue;
        }
        nodes.take_out(at);
    }
    0
}

fn is_on(nodes: &KeptBlocks, at: usize, id: &Digest) -> bool
    requires { at < length nodes.now }
    ensures { (d : Node) → result ≡ bytes_eq id.now (id_of (slice_index_or nodes.now at d).block.value) }
{
    *id == nodes.node(at).id
}

// Its number says that all older blocks lie below it.
fn is_full(nodes: &KeptBlocks, at: usize) -> bool
    requires { at < length nodes.now }
    ensures { (d : Node) → result ≡ true → num_of (slice_index_or nodes.now at d).block.value ≡ at + 2 }
{
    let num = block_num(&nodes.node(at).id);
    num > 1 && (num - 2) as usize == at
}

fn is_above(nodes: &KeptBlocks, at: usize, num: u32) -> bool
    requires { at < length nodes.now }
    ensures { (d : Node) → result ≡ nat_lt num (num_of (slice_index_or nodes.now at d).block.value) }
{
    num < block_num(&nodes.node(at).id)
}

fn previous_at(nodes: &KeptBlocks, at: usize) -> Digest
    requires { at < length nodes.now }
    ensures { (d : Node) → result ≡ (slice_index_or nodes.now at d).block.value.header.previous }
{
    nodes.node(at).block.header.previous
}

/// Leaves the blocks whose predecessors are left. Those before the place have theirs.
pub fn link(nodes: &mut KeptBlocks, genesis: &Digest, from: usize)
    requires within { from ≤ length nodes.old }
    requires low { AllPlaced genesis.now (newest (take from nodes.old)) }
    ensures { newest nodes.new ≡ pruned always genesis.now (newest nodes.old) }
{
    let mut at = from;
    while at < nodes.len() {
        if linked_at(nodes.as_slice(), at, genesis) {
            at += 1;
            continue;
        }
        nodes.take_out(at);
    }
}

fn linked_at(nodes: &[Node], at: usize, genesis: &Digest) -> bool
    requires within { at < length nodes.now }
    requires named { AllByRecursion IsNamed nodes.now }
    ensures { (d : Node) → result ≡ test_on always genesis.now (take at nodes.now) (slice_index_or nodes.now at d) }
{
    let (front, rest) = nodes.split_at(at);
    linked(front, &rest[0], genesis)
}

fn linked(front: &[Node], node: &Node, genesis: &Digest) -> bool
    requires { AllByRecursion IsNamed front.now }
    ensures { result ≡ test_on always genesis.now front.now node.now }
{
    let previous = node.block.header.previous;
    if previous == *genesis {
        return true;
    }
    find_in(front, &previous).is_some()
}
