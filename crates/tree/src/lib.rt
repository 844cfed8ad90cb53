// Nodes of the reserve's tree, by number: the root is 1, and the children of n are 2n and 2n + 1.
#![tactic(auto)]

ghost use Rattle.std.specs.Prelude.{◌≡◌};
ghost use Rattle.tree.specs.Node as Node;

// The depth of a node, from its highest one bit; 0, which is no node, counts as the root.
pub fn depth(node: u16) -> u16
    ensures { result ≡ Node.depth node }
{
    if node == 0 {
        return 0;
    }
    node.ilog2() as u16
}

// The level of a node of a reserve of this height; 0 for a node that lies deeper.
pub fn level(height: u16, node: u16) -> u16
    ensures { result ≡ Node.level height node }
{
    height.saturating_sub(depth(node))
}
