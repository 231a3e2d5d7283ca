//! Lists with commas, of whatever stands between these.

ghost use Rattle.std.specs.Prelude.{◌≡◌, ◌≤◌, length, IfOk, true};
ghost use Rattle.lv_grammars.specs.Grammar.{Gram};
ghost use Rattle.lv_grammars.specs.Sets.{is_good};
ghost use Rattle.lv_grammar.specs.Shapes.{base, table};
ghost use Rattle.lv_grammar.specs.Rules as rules;
ghost use Rattle.lv_parser.specs.Answers.{Answers, GoesOn};

use crate::tokens::{is_mark, push};
use lv_ast::Tokens;
use lv_exprs::SyntaxError;
use sqlite_items::Items;
use std::alloc::Global;

/// What reads an entry of a list.
pub trait Entries {
    type Entry: Drop;

    ghost grammar: { Self → Gram base Self.Entry };

    ghost good: { (x : Self) → is_good base table (rules.list (grammar x)) ≡ true };

    fn entry(
        &self,
        alloc: Global,
        tokens: &Tokens,
        at: usize,
    ) -> Result<(Self::Entry, usize), SyntaxError>
        requires { at ≤ length tokens.now.list }
        ensures answer { Answers tokens.now.text tokens.now.list (grammar self.now) at result }
        ensures ahead { IfOk result (λ r. GoesOn tokens.now.list at r) };
}

/// One or more entries with commas between them.
pub fn list<E: Entries>(
    alloc: Global,
    tokens: &Tokens,
    at: usize,
    entries: &E,
) -> Result<(Items<E::Entry>, usize), SyntaxError>
    requires { at ≤ length tokens.now.list }
    ensures answer { Answers tokens.now.text tokens.now.list (rules.list (E.grammar entries.now)) at result }
    ensures ahead { IfOk result (λ r. GoesOn tokens.now.list at r) }
{
    let (first, mut end) = entries.entry(alloc, tokens, at)?;
    let mut list = Items::new(alloc);
    push(&mut list, first)?;
    'turns: while is_mark(tokens, end, b",") {
        let (more, next) = entries.entry(alloc, tokens, end + 1)?;
        push(&mut list, more)?;
        end = next;
    }
    Ok((list, end))
}
