ghost use Rattle.std.specs.Prelude.{◌≡◌, ◌≤◌, ◌-◌, ℕ, length, Ok, Err};
ghost use Rattle.amdl_tree.specs.Spelling.{spell};
ghost use Rattle.amdl_tree.specs.WellBuilt.{IsWellBuilt, IsShaped};
ghost use Rattle.amdl_tree.specs.declared.tree.Tree.{Tree};
ghost use Rattle.amdl_parser.specs.Reading.{answer_of, IsUnlessMemory};
ghost use Rattle.amdl_parser.specs.Grammar.{tree_at};
ghost use Rattle.amdl_parser.specs.Answer.{IsTreeAnswer, IsSyntaxAt, IsDeepAt, IsOrNoMemory, tokens_of};

use crate::fault::Fault;
use crate::primitive::{Tokens, show_names};
use crate::refusal::SyntaxRefusal;
use amdl_tree::{Lexed, Tree};
use std::alloc::Global;

/// The number of the token in front of which so many are left.
fn place(count: usize, left: usize) -> u32
    requires { count ≤ 1000000 }
    ensures { result ≡ count - left }
{
    count.saturating_sub(left) as u32
}

/// The tree whose spelling the tokens are, of a depth of at most 32. It takes time linear in the tokens and memory
/// for the tree, and stands at most 32 levels of statements and guards deep.
///
/// `Syntax(k)` comes where the first `k` tokens begin such a tree and the first `k + 1` begin no tree at all, or where
/// `k` is the number of tokens and they end too early. `Deep(k)` comes where the first `k` begin such a tree and the
/// first `k + 1` begin only deeper ones. After want of memory nothing is kept.
pub fn parse(alloc: Global, tokens: &[Lexed]) -> Result<Tree, SyntaxRefusal>
    requires { length tokens.now ≤ 1000000 }
    ensures answer { IsTreeAnswer (tokens_of tokens.now) result }

    // Each answer also comes wherever the tokens have its cause, unless memory runs out.
    ensures read { (tree : Tree) → IsShaped tree → spell tree ≡ tokens_of tokens.now → IsOrNoMemory result (Ok tree) }
    ensures syntax { (k : ℕ) → IsSyntaxAt spell IsWellBuilt IsShaped (tokens_of tokens.now) k →
        IsOrNoMemory result (Err (SyntaxRefusal.Syntax k)) }
    ensures deep { (k : ℕ) → IsDeepAt spell IsWellBuilt IsShaped (tokens_of tokens.now) k →
        IsOrNoMemory result (Err (SyntaxRefusal.Deep k)) }
{
    show_names(tokens);
    read_whole(alloc, tokens)
}

fn read_whole(alloc: Global, tokens: &[Lexed]) -> Result<Tree, SyntaxRefusal>
    requires { length tokens.now ≤ 1000000 }
    ensures { IsUnlessMemory (answer_of (length tokens.now) (tree_at 32 (tokens_of tokens.now))) result }
{
    let mut unread = Tokens { left: tokens };
    match unread.tree(alloc, 32) {
        Ok(tree) => {
            if unread.left.is_empty() {
                return Ok(tree);
            }
            Err(SyntaxRefusal::Syntax(place(tokens.len(), unread.left.len())))
        }
        Err(Fault::Syntax(left)) => Err(SyntaxRefusal::Syntax(place(tokens.len(), left))),
        Err(Fault::Deep(left)) => Err(SyntaxRefusal::Deep(place(tokens.len(), left))),
        Err(Fault::NoMemory) => Err(SyntaxRefusal::NoMemory),
    }
}
