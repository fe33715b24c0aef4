//! Tests that the CHECK of `meta` is `k = 1`. The test is on the operations to which the CHECK was compiled.

ghost use Rattle.std.specs.Prelude.{◌≡◌, ◌≢◌, ◌↔◌, IsTrue, IfSome, None, Some, ℕ, pos, [], ◌∷◌, slice_get};
ghost use Rattle.sqlite.specs.Collation.TheVariants.{Binary as ByBytes};
ghost use Rattle.sqlite.specs.declared.types.Value.TheVariants.{Int};
ghost use Rattle.sqlite_sql.specs.declared.ops.BinaryOp.TheVariants.{Compare};
ghost use Rattle.sqlite_sql.specs.declared.ops.CompareOp.TheVariants.{Eq};
ghost use Rattle.sqlite_schema.specs.declared.code.Op.TheVariants.{Binary, Column, Literal};
ghost use Rattle.csi_sql.specs.Ours.{IsKeyCheck};
ghost use Rattle.csi_sql.specs.Tables.{meta};

use sqlite_schema::code::{Op, Terms};
use sqlite_sql::ops::{BinaryOp, CompareOp};
use sqlite_value::keys::Collation;
use sqlite_value::value::Value;

// Returns the indices of the two operands if the operation at index `at` is `=`, otherwise `None`.
fn sides_at(nodes: &[Op], at: usize) -> Option<(usize, usize)>
    ensures value { IfSome result (λ p. slice_get nodes.now at ≡ Some (Binary (Compare Eq ByBytes) p.0 p.1)) }
    ensures none { result ≡ None → (a b : ℕ)
        → slice_get nodes.now at ≢ Some (Binary (Compare Eq ByBytes) a b) }
{
    match nodes.get(at)? {
        Op::Binary(BinaryOp::Compare(CompareOp::Eq, Collation::Binary), a, b) => Some((*a, *b)),
        _ => None,
    }
}

fn is_first_column(nodes: &[Op], at: usize) -> bool
    ensures { IsTrue result ↔ slice_get nodes.now at ≡ Some (Column 1 0) }
{
    match nodes.get(at) {
        Some(Op::Column(slot, column)) => *slot == 1 && *column == 0,
        _ => false,
    }
}

fn is_one(nodes: &[Op], at: usize) -> bool
    ensures { IsTrue result ↔ slice_get nodes.now at ≡ Some (Literal (Int (pos 1))) }
{
    match nodes.get(at) {
        Some(Op::Literal(Value::Int(n))) => *n == 1,
        _ => false,
    }
}

fn says_key(nodes: &[Op], root: usize) -> bool
    ensures { IsTrue result ↔ IsKeyCheck nodes.now root }
{
    match sides_at(nodes, root) {
        Some((a, b)) => is_first_column(nodes, a) && is_one(nodes, b),
        None => false,
    }
}

fn only_root(roots: &[usize]) -> Option<usize>
    ensures value { IfSome result (λ r. roots.now ≡ r ∷ []) }
    ensures none { result ≡ None → (r : ℕ) → roots.now ≢ r ∷ [] }
{
    let [root] = roots else {
        return None;
    };
    Some(*root)
}

/// Returns true if there is exactly one CHECK, and it says that the first column equals 1.
pub(super) fn is_key_check(checks: &Terms) -> bool
    ensures { IsTrue result ↔ checks.now ≡ meta.checks }
{
    match only_root(checks.roots.as_slice()) {
        Some(root) => says_key(checks.nodes.as_slice(), root),
        None => false,
    }
}
