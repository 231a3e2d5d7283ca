//! Names that tokens spell: no name that a source declares has a space inside. The function below does nothing: its contract is
//! a law of the grammar of a source.
#![tactic(auto)]

ghost use Rattle.std.specs.Prelude.{◌≡◌, List, ℕ, Bool, true};
ghost use Rattle.lv_ast.specs.TokenLists.{are_tokens};
ghost use Rattle.lv_ast.specs.PlainNames.{HasPlainNames};
ghost use Rattle.lv_ast.specs.declared.tokens.Token.{Token};
ghost use Rattle.lv_ast.specs.declared.item.Source.{Source};
ghost use Rattle.lv_grammars.specs.Spelling.{Limit, IsSpelled};
ghost use Rattle.lv_grammar.specs.Lexemes.{lexemes};
ghost use Rattle.lv_grammar.specs.Leaves.{all, within};
ghost use Rattle.lv_grammar.specs.Shapes.{base};
ghost use Rattle.lv_grammar.specs.Rules.{source_rule};

/// Each source that whole tokens of a text spell, without limits or within any, declares names without a space inside alone.
pub fn spelled_names_are_plain()
    ensures all { (text : List ℕ) (ts : List Token) (o : Bool) (source : Source) → are_tokens text ts ≡ true →
        IsSpelled base (all text) source_rule (lexemes text ts) o source → HasPlainNames source }
    ensures low { (text : List ℕ) (ts : List Token) (d : ℕ → Limit) (o : Bool) (source : Source) → are_tokens text ts ≡ true →
        IsSpelled base (within text d) source_rule (lexemes text ts) o source → HasPlainNames source }
{}
