//! Copies of coded expressions.

ghost use Rattle.std.specs.Prelude.{◌≡◌, IfOk};

use coded_actions::CodedExpr;
use num_ends::NoMemory;
use sqlite_items::Boxed;
use std::alloc::Global;

/// An equal expression.
#[cycle(expressions)]
pub(crate) fn copied(alloc: Global, expr: &CodedExpr) -> Result<CodedExpr, NoMemory>
    ensures { IfOk result (λ e. e ≡ expr.now) }
{
    match expr {
        CodedExpr::Const(value) => Ok(CodedExpr::Const(*value)),
        CodedExpr::Read(code) => Ok(CodedExpr::Read(*code)),
        CodedExpr::Add(a, b) => Ok(CodedExpr::Add(
            operand(alloc, a.get())?,
            operand(alloc, b.get())?,
        )),
        CodedExpr::Sub(a, b) => Ok(CodedExpr::Sub(
            operand(alloc, a.get())?,
            operand(alloc, b.get())?,
        )),
        CodedExpr::Mul(a, b) => Ok(CodedExpr::Mul(
            operand(alloc, a.get())?,
            operand(alloc, b.get())?,
        )),
    }
}

#[cycle(expressions)]
fn operand(alloc: Global, expr: &CodedExpr) -> Result<Boxed<CodedExpr>, NoMemory>
    ensures { IfOk result (λ e. e ≡ expr.now) }
{
    let copy = copied(alloc, expr)?;
    Ok(Boxed::new(alloc, copy)?)
}
