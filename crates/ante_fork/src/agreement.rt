ghost use Rattle.std.specs.Prelude.{◌≡◌, ℕ, ◌≤◌, length, slice_index_or};
ghost use Rattle.std.specs.List.{AllByRecursion, insert};
ghost use Rattle.ante_fork.specs.Shown.{newest, IsNamed};
ghost use Rattle.ante_fork.specs.Tree.{branch};
ghost use Rattle.ante_fork.specs.Finality.{last_number, insert_down};
ghost use Rattle.ante_fork.specs.Finality as finality;

use crate::node::Node;
use crate::walks::newest_of;
use ante_pack::{Digest, Name, Seq};
use ante_types::block_num;
use arrayvec::ArrayVec;

/// The number of a producer's last block on the way down from an id, 0 where it has none.
pub fn last_of(nodes: &[Node], genesis: &Node, id: &Digest, producer: Name) -> u32
    requires { AllByRecursion IsNamed nodes.now }
    ensures { result ≡ last_number genesis.now.block.value (branch id.now (newest nodes.now)) producer }
{
    let mut rest = nodes;
    let mut next = *id;
    while let Some((node, older)) = newest_of(rest) {
        rest = older;
        if next != node.id {
            continue;
        }
        if producer == node.block.header.producer {
            return block_num(&node.id);
        }
        next = node.block.header.previous;
    }
    if producer == genesis.block.header.producer {
        1
    } else {
        0
    }
}

/// Where a number stands among those that go down.
pub fn place_of(numbers: &[u32], n: u32) -> usize
    ensures within { result ≤ length numbers.now }
    ensures place { insert numbers.now result n ≡ insert_down n numbers.now }
{
    let mut at = 0;
    while at < numbers.len() {
        if numbers[at] <= n {
            return at;
        }
        at += 1;
    }
    at
}

/// The greatest number on which more than two thirds of the producers have built.
pub fn agreed_on(nodes: &[Node], genesis: &Node, producers: &Seq<Name>, head: &Digest) -> u32
    requires named { AllByRecursion IsNamed nodes.now }
    requires few { length producers.now ≤ 21 }
    ensures { result ≡ finality.agreed_on producers.now genesis.now.block.value (branch head.now (newest nodes.now)) }
{
    let mut sorted: ArrayVec<u32, 21> = ArrayVec::new();
    let mut rest = producers.as_slice();
    while let Some((producer, before)) = rest.split_last() {
        rest = before;
        let num = last_of(nodes, genesis, head, *producer);
        let at = place_of(sorted.as_slice(), num);
        sorted.insert(at, num);
    }
    value_at(sorted.as_slice(), 2 * producers.len() / 3)
}

fn value_at(numbers: &[u32], place: usize) -> u32
    ensures { result ≡ slice_index_or numbers.now place 0 }
{
    if place < numbers.len() {
        numbers[place]
    } else {
        0
    }
}
