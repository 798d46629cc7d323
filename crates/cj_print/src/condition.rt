//! Conditions, with parentheses only where they are needed.

ghost use Rattle.std.specs.Prelude.{◌≡◌, ◌++◌, OnOk};
ghost use Rattle.cj_model.specs.Proving.ConditionNodes.{condition_of_node};
ghost use Rattle.cj_print.specs.Ascii.{IsAsciiText};
ghost use Rattle.cj_print.specs.Canonical.{bracketed, cmp_text, cond_text, where_text};
ghost use Rattle.cj_print.specs.Canonical as texts;

use crate::buffer::TextBuffer;
use crate::part::Part;
use cj_model::{Cmp, Cond, CondNode, NoMemory};
use std::alloc::Global;

fn is_or(node: &CondNode) -> bool
    ensures { result ≡ texts.is_or (condition_of_node node.now) }
{
    match node {
        CondNode::Test(_, _, _) => false,
        CondNode::Not(_) => false,
        CondNode::And(_, _) => false,
        CondNode::Or(_, _) => true,
    }
}

fn is_and(node: &CondNode) -> bool
    ensures { result ≡ texts.is_and (condition_of_node node.now) }
{
    match node {
        CondNode::Test(_, _, _) => false,
        CondNode::Not(_) => false,
        CondNode::And(_, _) => true,
        CondNode::Or(_, _) => false,
    }
}

fn cmp_words(cmp: Cmp) -> &'static [u8]
    ensures words { result.now ≡ cmp_text cmp }
    ensures ascii { IsAsciiText result.now }
{
    match cmp {
        Cmp::Eq => b" = ",
        Cmp::Ne => b" <> ",
        Cmp::Lt => b" < ",
        Cmp::Le => b" <= ",
        Cmp::Gt => b" > ",
        Cmp::Ge => b" >= ",
    }
}

fn opening(needed: bool) -> &'static [u8]
    ensures words { result.now ≡ texts.opening_parenthesis needed }
    ensures ascii { IsAsciiText result.now }
{
    if needed { b"(" } else { b"" }
}

fn closing(needed: bool) -> &'static [u8]
    ensures words { result.now ≡ texts.closing_parenthesis needed }
    ensures ascii { IsAsciiText result.now }
{
    if needed { b")" } else { b"" }
}

/// Appends the condition, in parentheses if `needed`.
fn append_node(
    alloc: Global,
    text: &mut TextBuffer,
    node: &CondNode,
    needed: bool,
) -> Result<(), NoMemory>
    ensures { OnOk result (text.new ≡ text.old ++ bracketed needed (cond_text (condition_of_node node.now))) }
{
    text.push_ascii(opening(needed))?;
    match node {
        CondNode::Test(cmp, left, right) => {
            left.append(alloc, text)?;
            text.push_ascii(cmp_words(*cmp))?;
            right.append(alloc, text)?;
        }
        CondNode::Not(inner) => {
            text.push_ascii(b"NOT ")?;
            append_node(alloc, text, inner, is_or(inner) || is_and(inner))?;
        }
        CondNode::And(left, right) => {
            append_node(alloc, text, left, is_or(left))?;
            text.push_ascii(b" AND ")?;
            append_node(alloc, text, right, is_or(right) || is_and(right))?;
        }
        CondNode::Or(left, right) => {
            append_node(alloc, text, left, false)?;
            text.push_ascii(b" OR ")?;
            append_node(alloc, text, right, is_or(right))?;
        }
    }
    text.push_ascii(closing(needed))?;
    Ok(())
}

/// Appends WHERE and the condition, if there is one. After `NoMemory` the contract says nothing of the
/// text.
pub fn append_where(
    alloc: Global,
    text: &mut TextBuffer,
    cond: &Option<Cond>,
) -> Result<(), NoMemory>
    ensures { OnOk result (text.new ≡ text.old ++ where_text cond.now) }
{
    if let Some(cond) = cond {
        text.push_ascii(b" WHERE ")?;
        append_node(alloc, text, cond.root(), false)?;
    }
    Ok(())
}
