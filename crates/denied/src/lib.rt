// Denied IPv4 prefixes: the text that lists them, the prefix tree that it is read into, and whether an address is denied.
#![tactic(auto)]

ghost use Rattle.std.specs.Prelude.{◌≡◌, OnErr};
ghost use Rattle.denied.specs.Prefixes.{line_of};
ghost use Rattle.denied.specs.Denied.{on_line, read_denied, Gives};

use prefixes::line_of;
use refusal::Refusal;
use text::scan::find;
use tree::{Tree, empty_tree, with_prefix};

pub mod prefixes;
pub mod tree;

const NEWLINE: u8 = 10;

// The tree with a line more.
fn with_line(tree: Tree, line: &[u8]) -> Result<Tree, Refusal>
    ensures { result ≡ on_line tree (line_of line.now) }
{
    let prefix = line_of(line).ok_or(Refusal::BadLine)?;
    with_prefix(tree, prefix).ok_or(Refusal::TooManyNodes)
}

// The nodes become those of the text's tree; how many they are. A text that is refused leaves them as they were.
pub fn read_denied(nodes: &mut [u16; 1536], text: &[u8]) -> Result<usize, Refusal>
    ensures gives { Gives (read_denied text.now nodes.old) result nodes.new }
    ensures refused { OnErr result (nodes.new ≡ nodes.old) }
{
    let mut tree = empty_tree();
    let mut start: usize = 0;
    // `split` would give an empty last piece, which is no line.
    while start < text.len() {
        let end = start + find(&text[start..], NEWLINE);
        tree = with_line(tree, &text[start..end])?;
        start = end + 1;
    }
    let read = tree.nodes;
    *nodes = read;
    Ok(tree.count)
}
