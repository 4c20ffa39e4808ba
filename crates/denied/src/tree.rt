// The prefix tree: three numbers for each node, in the order of their making. The first two are its child nodes for a bit 0 and a bit 1,
// and 0 where it has none; the third is 1 where its bit string is a listed prefix. Node 0 is that of the empty string.
ghost use Rattle.std.specs.Prelude.{◌≡◌, ◌<◌, ◌≤◌};
ghost use Rattle.denied.specs.Tree.{bit_of, child_of, is_listed, is_child, denied_below, denied, none_denied, empty_tree, with_prefix};

use crate::prefixes::Prefix;

// An array with a count: no heap, fixed memory.
#[derive(Clone, Copy)]
pub struct Tree {
    pub nodes: [u16; 1536],
    pub count: usize,
}

// No prefix: the empty string's node alone.
pub fn none_denied() -> [u16; 1536]
    ensures { result ≡ none_denied }
{
    [0u16; 1536]
}

pub(crate) fn empty_tree() -> Tree
    ensures { result ≡ empty_tree }
{
    let nodes = none_denied();
    Tree { nodes, count: 1 }
}

// Bit k of an address, counted from the last.
fn bit_of(a: u32, k: u32) -> usize
    requires { k < 32 }
    ensures { (result ≡ bit_of a k) × (result < 2) }
{
    ((a >> k) % 2) as usize
}

fn child_of(nodes: &[u16; 1536], node: usize, bit: usize) -> usize
    requires { (node < 512) × (bit < 2) }
    ensures { result ≡ child_of nodes.now node bit }
{
    usize::from(nodes[3 * node + bit])
}

fn is_listed(nodes: &[u16; 1536], node: usize) -> bool
    requires { node < 512 }
    ensures { result ≡ is_listed nodes.now node }
{
    nodes[3 * node + 2] != 0
}

// A child past the nodes is no child.
#[tactic(auto, unfolding(choice::specs::Choice::both))]
fn is_child(child: usize) -> bool
    ensures { result ≡ is_child child }
{
    0 < child && child < 512
}

// ---- The lookup

// From the node down, one bit at each step, with so many bits of the address left.
fn denied_below(nodes: &[u16; 1536], node: usize, a: u32, left: u32) -> bool
    requires { (node < 512) × (left ≤ 32) }
    ensures { result ≡ denied_below nodes.now node a left }
{
    if is_listed(nodes, node) {
        return true;
    }
    if left == 0 {
        return false;
    }
    let child = child_of(nodes, node, bit_of(a, left - 1));
    if !is_child(child) {
        return false;
    }
    denied_below(nodes, child, a, left - 1)
}

pub fn is_denied(nodes: &[u16; 1536], a: u32) -> bool
    ensures { result ≡ denied nodes.now a }
{
    denied_below(nodes, 0, a, 32)
}

// ---- The tree of a text

// The tree with a prefix more, if it fits.
pub(crate) fn with_prefix(tree: Tree, prefix: Prefix) -> Option<Tree>
    requires { prefix.length ≤ 32 }
    ensures { result ≡ with_prefix tree prefix.address prefix.length }
{
    let mut nodes = tree.nodes;
    let mut count = tree.count;
    let rest = 32 - prefix.length;
    let mut node: usize = 0;
    for bits in (0..prefix.length).rev() {
        let bit = bit_of(prefix.address, rest + bits);
        let child = child_of(&nodes, node, bit);
        if is_child(child) {
            node = child;
        } else {
            if 512 <= count {
                return None;
            }
            nodes[3 * node + bit] = count as u16;
            node = count;
            count += 1;
        }
    }
    nodes[3 * node + 2] = 1;
    Some(Tree { nodes, count })
}
