ghost use Rattle.std.specs.Prelude.{◌≡◌, ℕ, ◌+◌, ◌<◌, [], ◌∷◌, length, slice_get, slice_index_or, take, nat_lt, bytes_eq, if◌then◌else◌, true, None, Some, IsSome};
ghost use Rattle.std.specs.List.{AllByRecursion};
ghost use Rattle.std.specs.Option.{option_copied, MatchOption};
ghost use Rattle.ante_types.specs.declared.chain.Block.{Block};
ghost use Rattle.ante_fork.specs.declared.node.Node.{Node};
ghost use Rattle.ante_fork.specs.Shown.{newest, test_on, IsNamed, IsNewest};
ghost use Rattle.ante_fork.specs.Tree.{find_block, branch, meeting, tip, best_of, id_of, num_of, pruned, other_than, AllPlaced};
ghost use Rattle.ante_types.specs.Ids as ids;
ghost use Rattle.ante_fork.specs.Paths.{num_on};
ghost use Rattle.ante_fork.specs.Numbers.{AllFrom, block_or};

use crate::kept::KeptBlocks;
use crate::node::Node;
use ante_pack::Digest;
use ante_types::{Block, block_num};

/// The newest node, and the older ones.
pub fn newest_of(nodes: &[Node]) -> Option<(&Node, &[Node])>
    requires { AllByRecursion IsNamed nodes.now }
    ensures { MatchOption result (newest nodes.now ≡ []) (λ p. IsNewest nodes.now p.0.now p.1.now) }
{
    let (node, older) = nodes.split_last()?;
    Some((node, older))
}

/// The block of an id.
pub fn find_in<'a>(nodes: &'a [Node], id: &Digest) -> Option<&'a Block>
    requires { AllByRecursion IsNamed nodes.now }
    ensures { option_copied result ≡ find_block id.now (newest nodes.now) }
{
    let mut rest = nodes;
    while let Some((node, older)) = newest_of(rest) {
        if *id == node.id {
            return Some(&node.block);
        }
        rest = older;
    }
    None
}

/// The n-th block on the way down from an id.
pub fn nth_down<'a>(nodes: &'a [Node], id: &Digest, n: u32) -> Option<&'a Block>
    requires { AllByRecursion IsNamed nodes.now }
    ensures { option_copied result ≡ slice_get (branch id.now (newest nodes.now)) n }
{
    let mut rest = nodes;
    let mut next = *id;
    let mut left = n;
    while let Some((node, older)) = newest_of(rest) {
        rest = older;
        if next != node.id {
            continue;
        }
        if left == 0 {
            return Some(&node.block);
        }
        left -= 1;
        next = node.block.header.previous;
    }
    None
}

/// The block of a number on the way down from an id. From a block on that has all older ones below it, the number tells the
/// place.
pub fn num_down<'a>(
    nodes: &'a [Node],
    genesis: &'a Node,
    id: &Digest,
    num: u32,
) -> Option<&'a Block>
    requires named { AllByRecursion IsNamed nodes.now }
    requires genesis { IsNamed genesis.now }
    requires first { num_of genesis.now.block.value ≡ 1 }
    requires placed { AllPlaced (id_of genesis.now.block.value) (newest nodes.now) }
    ensures { option_copied result ≡ num_on num genesis.now.block.value (branch id.now (newest nodes.now)) }
{
    let mut rest = nodes;
    let mut next = *id;
    while let Some((node, older)) = newest_of(rest) {
        if has_all_below(node, older, &next) {
            return numbered(rest, genesis, num);
        }
        if next != node.id {
            rest = older;
            continue;
        }
        if block_num(&node.id) == num {
            return Some(&node.block);
        }
        rest = older;
        next = node.block.header.previous;
    }
    if block_num(&genesis.id) != num {
        return None;
    }
    Some(&genesis.block)
}

// It has the id, and its number says that all older ones lie below it.
fn has_all_below(node: &Node, older: &[Node], id: &Digest) -> bool
    requires { IsNamed node.now }
    ensures id { result ≡ true → bytes_eq id.now (id_of node.now.block.value) ≡ true }
    ensures num { result ≡ true → num_of node.now.block.value ≡ length older.now + 2 }
{
    if *id != node.id {
        return false;
    }
    let num = block_num(&node.id);
    num > 1 && (num - 2) as usize == older.len()
}

// The oldest has number 2, and each one the next.
fn numbered<'a>(nodes: &'a [Node], genesis: &'a Node, num: u32) -> Option<&'a Block>
    requires first { num_of genesis.now.block.value ≡ 1 }
    requires all { AllFrom 2 nodes.now }
    ensures { option_copied result ≡ num_on num genesis.now.block.value (newest nodes.now) }
{
    if num == 0 {
        return None;
    }
    if num == 1 {
        return Some(&genesis.block);
    }
    block_at(nodes, (num - 2) as usize)
}

fn block_at(nodes: &[Node], at: usize) -> Option<&Block>
    ensures { option_copied result ≡ block_or None (slice_get nodes.now at) }
{
    let node = nodes.get(at)?;
    Some(&node.block)
}

/// The id of the newest block that lies on the ways down from both.
pub fn meet(nodes: &[Node], genesis: &Node, first: &Digest, second: &Digest) -> Digest
    requires named { AllByRecursion IsNamed nodes.now }
    requires genesis { IsNamed genesis.now }
    ensures { result ≡ tip genesis.now.block.value (meeting first.now second.now (newest nodes.now)) }
{
    let mut rest = nodes;
    let mut a = *first;
    let mut b = *second;
    while let Some((node, older)) = newest_of(rest) {
        rest = older;
        if a == node.id {
            if b == node.id {
                return node.id;
            }
            a = node.block.header.previous;
            continue;
        }
        if b == node.id {
            b = node.block.header.previous;
            continue;
        }
    }
    genesis.id
}

/// Among the head and these blocks the one of greatest number. None of those below a place has a number greater than the place
/// allows, so they aren't looked at where a greater one is found.
pub fn best_in(nodes: &[Node], genesis: &Digest, head: &Digest) -> Digest
    requires named { AllByRecursion IsNamed nodes.now }
    requires first { ids.block_num genesis.now ≡ 1 }
    requires placed { AllPlaced genesis.now (newest nodes.now) }
    ensures { result ≡ best_of head.now (newest nodes.now) }
{
    let mut rest = nodes;
    let mut best = *head;
    while let Some((node, older)) = newest_of(rest) {
        if is_past(&best, rest) {
            return above(head, &best);
        }
        rest = older;
        let next = not_above(&best, node);
        best = next;
    }
    above(head, &best)
}

// None of these has the number.
fn is_past(best: &Digest, nodes: &[Node]) -> bool
    ensures { result ≡ true → length nodes.now + 1 < ids.block_num best.now }
{
    let num = block_num(best);
    num > 1 && (num - 1) as usize > nodes.len()
}

fn not_above(best: &Digest, node: &Node) -> Digest
    requires { IsNamed node.now }
    ensures { result ≡ (if nat_lt (num_of node.now.block.value) (ids.block_num best.now) then best.now else id_of node.now.block.value) }
{
    if block_num(&node.id) < block_num(best) {
        *best
    } else {
        node.id
    }
}

fn above(head: &Digest, best: &Digest) -> Digest
    ensures { result ≡ (if nat_lt (ids.block_num head.now) (ids.block_num best.now) then best.now else head.now) }
{
    if block_num(head) < block_num(best) {
        *best
    } else {
        *head
    }
}

/// Drops the block of an id and all above it.
pub fn prune(nodes: &mut KeptBlocks, genesis: &Digest, id: &Digest)
    requires { AllPlaced genesis.now (newest nodes.old) }
    ensures { newest nodes.new ≡ pruned (other_than id.now) genesis.now (newest nodes.old) }
{
    let mut at = 0;
    while at < nodes.len() {
        if stays_at(nodes.as_slice(), at, genesis, id) {
            at += 1;
            continue;
        }
        nodes.take_out(at);
    }
}

fn stays_at(nodes: &[Node], at: usize, genesis: &Digest, id: &Digest) -> bool
    requires within { at < length nodes.now }
    requires named { AllByRecursion IsNamed nodes.now }
    ensures { (d : Node) → result ≡ test_on (other_than id.now) genesis.now (take at nodes.now) (slice_index_or nodes.now at d) }
{
    let (front, rest) = nodes.split_at(at);
    stays(front, &rest[0], genesis, id)
}

fn stays(front: &[Node], node: &Node, genesis: &Digest, id: &Digest) -> bool
    requires node { IsNamed node.now }
    requires named { AllByRecursion IsNamed front.now }
    ensures { result ≡ test_on (other_than id.now) genesis.now front.now node.now }
{
    if *id == node.id {
        return false;
    }
    let previous = node.block.header.previous;
    if previous == *genesis {
        return true;
    }
    find_in(front, &previous).is_some()
}
