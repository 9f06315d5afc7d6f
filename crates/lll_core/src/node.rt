ghost use Rattle.std.specs.Prelude.{◌≡◌, [], ◌∷◌, ◌++◌, Some, slice_get, IfSome, IfNone, OnOk, OnErr, Contains};

use indexmap::IndexSet;
use std::alloc::AllocError;

/// What makes two signals one: a gate is known by its form and operands, any other signal by its number.
#[derive(Clone, Copy, Debug, PartialEq, Eq, Hash)]
pub enum Node {
    Alone(u32),
    Imp(u32, u32),
    Eqv(u32, u32),
}

/// The place of a node.
pub fn place(nodes: &IndexSet<Node>, node: Node) -> Option<usize>
    ensures found { IfSome result (λ n. slice_get nodes.now.keys n ≡ Some node) }
    ensures none { IfNone result (Contains nodes.now.keys node → ⊥) }
{
    nodes.get_index_of(&node)
}

/// Puts a new node after the others.
pub fn push(nodes: &mut IndexSet<Node>, node: Node) -> Result<(), AllocError>
    requires { Contains nodes.old.keys node → ⊥ }
    ensures ok { OnOk result (nodes.new.keys ≡ nodes.old.keys ++ node ∷ []) }
    ensures err { OnErr result (nodes.new.keys ≡ nodes.old.keys) }
{
    nodes.insert(node)?;
    Ok(())
}
