//! Grammars as data: which tokens spell which tree, what of them a reader's three answers say, and the laws of grammars that
//! can be read by their next token alone. Each function below does nothing: its contract is the law.
#![tactic(auto)]

ghost use Rattle.std.specs.Prelude.{◌≡◌, ◌↔◌, ℕ, List, [], ◌∷◌, ◌++◌, Bool, true, false};
ghost use Rattle.lv_grammars.specs.Grammar.{Base, Gram, left, right, call, both, either, perhaps, many, until, tail};
ghost use Rattle.lv_grammars.specs.Spelling.{Language, any, IsSpelled, called, allows, inner};
ghost use Rattle.lv_grammars.specs.Sets.{Table, Set, is_in, among, union, apart, within, is_good, shapes, rule_has_tree};
ghost use Rattle.lv_grammars.specs.Reading.{Begins, Reads, Fails, Passes, PassesLimit};
ghost use Rattle.lv_grammars.specs.Nexts.{Next, Lacks, Outside, Opens};
ghost use Rattle.lv_grammars.specs.At.{At, Standing, StandingUntil};
ghost use Rattle.lv_grammars.specs.Facts.{IsBase, IsLanguage, IsWithin, Facts};

/// A type of trees with two grammars of them: over the rules of a language without limits, and over those of one within limits.
pub trait Spelled {
    ghost base: { Base };

    ghost table: { Table base };

    ghost all: { Language base };

    ghost low: { Language base };

    ghost limited: { IsWithin base low all };

    ghost grammar: { Gram base Self };

    ghost other: { Gram base Self };
}

/// What is computed of sets of shapes is right of the tokens in them.
pub fn sets_are_right<X: Spelled>()
    ensures left { (s u : Set X.base.Shape) (m : X.base.Token) → IsBase X.base → is_in X.base s m ≡ true → is_in X.base (union X.base s u) m ≡ true }
    ensures right { (s u : Set X.base.Shape) (m : X.base.Token) → IsBase X.base → is_in X.base u m ≡ true → is_in X.base (union X.base s u) m ≡ true }
    ensures apart { (s u : Set X.base.Shape) (m : X.base.Token) → IsBase X.base → apart X.base s u ≡ true → is_in X.base s m ≡ true → is_in X.base u m ≡ false }
    ensures within { (s u : Set X.base.Shape) (m : X.base.Token) → IsBase X.base → within X.base s u ≡ true → is_in X.base s m ≡ true → is_in X.base u m ≡ true }
{}

/// The trees of a rule are those that its grammar spells within the limits inside of it, where the limits allow the rule.
pub fn rules_are_their_grammars<X: Spelled>()
    ensures { (r : X.base.Rule) (ts : List X.base.Token) (o : Bool) (x : X.base.RuleTree r) →
        called X.base X.low r ts o x ↔ (allows (X.low.limits (X.base.count r)) ≡ true) × IsSpelled X.base (inner X.base X.low r) (X.low.rules r) ts o x }
{}

/// Limits only take trees away.
pub fn limits_take_away<X: Spelled>()
    ensures { (ts : List X.base.Token) (o : Bool) (x : X) → IsSpelled X.base X.low X.grammar ts o x → IsSpelled X.base X.all X.grammar ts o x }
{}

/// A grammar that is good by computation: what its trees begin with, what goes on behind them, and that tokens spell at most one.
pub fn good_grammars_have_facts<X: Spelled>()
    ensures { IsBase X.base → IsLanguage X.base X.table X.all → is_good X.base X.table X.grammar ≡ true → Facts X.base X.table X.all X.grammar }
{}

/// Tokens spell at most one tree of a good grammar.
pub fn one_tree<X: Spelled>()
    ensures { IsBase X.base → IsLanguage X.base X.table X.all → is_good X.base X.table X.grammar ≡ true →
        (ts : List X.base.Token) (o p : Bool) (x y : X) → IsSpelled X.base X.all X.grammar ts o x → IsSpelled X.base X.all X.grammar ts p y → x ≡ y }
{}

/// Where a tree of a good grammar is read no other answer is right.
pub fn one_answer<X: Spelled>()
    ensures same { IsBase X.base → IsLanguage X.base X.table X.all → is_good X.base X.table X.grammar ≡ true →
        (ts us vs : List X.base.Token) (x y : X) →
        Reads X.base X.all X.low X.grammar ts x us → Reads X.base X.all X.low X.grammar ts y vs → (x ≡ y) × (us ≡ vs) }
    ensures failure { (ts us rest : List X.base.Token) (x : X) → Reads X.base X.all X.low X.grammar ts x us → Fails X.base X.all X.grammar ts rest → ⊥ }
    ensures passing { (ts us rest : List X.base.Token) (x : X) → Reads X.base X.all X.low X.grammar ts x us → PassesLimit X.base X.all X.low X.grammar ts rest → ⊥ }
{}

/// What is answered of two grammars, one after the other, from the answers of each.
pub fn parts_are_read_in_turn<X: Spelled>()
    ensures behind { IsBase X.base → IsLanguage X.base X.table X.all → is_good X.base X.table (both X.grammar X.other) ≡ true →
        (ts us : List X.base.Token) (x : X) → Reads X.base X.all X.low X.grammar ts x us →
        At X.base X.all X.low (both X.grammar X.other) ts X.low X.other us (λ y. (x, y)) }
    ensures fails { IsBase X.base → IsLanguage X.base X.table X.all → is_good X.base X.table (both X.grammar X.other) ≡ true →
        (ts rest : List X.base.Token) → Fails X.base X.all X.grammar ts rest → Fails X.base X.all (both X.grammar X.other) ts rest }
    ensures passes { IsBase X.base → IsLanguage X.base X.table X.all → is_good X.base X.table (both X.grammar X.other) ≡ true →
        (ts rest us : List X.base.Token) (o : Bool) (y : X) → IsSpelled X.base X.low X.other us o y →
        PassesLimit X.base X.all X.low X.grammar ts rest → PassesLimit X.base X.all X.low (both X.grammar X.other) ts rest }
{}

/// Of a choice that answers are the one's for which the next token speaks, and a grammar that may be left out is left out or read.
pub fn choices_are_by_the_next_token<X: Spelled>()
    ensures left { IsBase X.base → IsLanguage X.base X.table X.all → is_good X.base X.table (either X.grammar X.other) ≡ true →
        (ts : List X.base.Token) → Outside X.base X.table X.other ts → At X.base X.all X.low (either X.grammar X.other) ts X.low X.grammar ts left }
    ensures right { IsBase X.base → IsLanguage X.base X.table X.all → is_good X.base X.table (either X.grammar X.other) ≡ true →
        (ts : List X.base.Token) → Outside X.base X.table X.grammar ts → At X.base X.all X.low (either X.grammar X.other) ts X.low X.other ts right }
    ensures given { (ts : List X.base.Token) → Opens X.base X.all X.grammar ts → At X.base X.all X.low (perhaps X.grammar) ts X.low X.grammar ts Some }
    ensures left_out { IsBase X.base → IsLanguage X.base X.table X.all → is_good X.base X.table (perhaps X.grammar) ≡ true →
        (ts : List X.base.Token) → Outside X.base X.table X.grammar ts → Reads X.base X.all X.low (perhaps X.grammar) ts None ts }
{}

/// Any number of trees: what each further one adds, and where they end.
pub fn repetitions_are_read_one_by_one<X: Spelled>()
    ensures further { IsBase X.base → IsLanguage X.base X.table X.all → is_good X.base X.table (many X.grammar) ≡ true →
        (ts us vs : List X.base.Token) (xs : List X) (x : X) → Standing X.base X.all X.low X.grammar ts us xs →
        Opens X.base X.all X.grammar us → Reads X.base X.all X.low X.grammar us x vs → Standing X.base X.all X.low X.grammar ts vs (xs ++ (x ∷ [])) }
    ensures done { IsBase X.base → IsLanguage X.base X.table X.all → is_good X.base X.table (many X.grammar) ≡ true →
        (ts us : List X.base.Token) (xs : List X) → Standing X.base X.all X.low X.grammar ts us xs →
        Outside X.base X.table X.grammar us → Reads X.base X.all X.low (many X.grammar) ts xs us }
    ensures further_until { IsBase X.base → IsLanguage X.base X.table X.all → is_good X.base X.table (until X.grammar X.other) ≡ true →
        (ts us vs : List X.base.Token) (xs : List X) (x : X) → StandingUntil X.base X.all X.low X.grammar X.other ts us xs →
        Outside X.base X.table X.other us → Reads X.base X.all X.low X.grammar us x vs → StandingUntil X.base X.all X.low X.grammar X.other ts vs (xs ++ (x ∷ [])) }
    ensures ended { IsBase X.base → IsLanguage X.base X.table X.all → is_good X.base X.table (until X.grammar X.other) ≡ true →
        (ts us : List X.base.Token) (xs : List X) → StandingUntil X.base X.all X.low X.grammar X.other ts us xs →
        Outside X.base X.table X.grammar us → At X.base X.all X.low (until X.grammar X.other) ts X.low X.other us (λ y. (xs, y)) }
    ensures barred { IsBase X.base → IsLanguage X.base X.table X.all → is_good X.base X.table (until X.grammar X.other) ≡ true →
        (ts us : List X.base.Token) (o : Bool) (y : X) → Outside X.base X.table X.other ts → Opens X.base X.all X.grammar ts →
        ((vs : List X.base.Token) (p : Bool) (x : X) → IsSpelled X.base X.low X.grammar vs p x → ⊥) → IsSpelled X.base X.low X.other us o y →
        PassesLimit X.base X.all X.low (until X.grammar X.other) ts ts }
{}

/// A rule is read as its grammar where the limits allow it, and with a tail where its mark is next.
pub fn rules_are_read_within_limits<X: Spelled>()
    ensures allowed { (r : X.base.Rule) (ts : List X.base.Token) → allows (X.low.limits (X.base.count r)) ≡ true →
        At X.base X.all X.low (call r) ts (inner X.base X.low r) (X.low.rules r) ts (λ x. x) }
    ensures barred { (r : X.base.Rule) (ts : List X.base.Token) → allows (X.low.limits (X.base.count r)) ≡ false →
        Opens X.base X.all (call r) ts → Passes X.base X.all X.low (call r) ts ts }
    ensures tailed { IsBase X.base → IsLanguage X.base X.table X.all → (r : X.base.Rule) (p : X.base.Shape) → is_good X.base X.table (tail r p X.other) ≡ true →
        (ts us vs : List X.base.Token) (m : X.base.Token) (x : X.base.RuleTree r) → Reads X.base X.all X.low (call r) ts x us → Next X.base p us m vs →
        At X.base X.all X.low (tail r p X.other) ts X.low X.other vs (λ y. (x, Some y)) }
    ensures without { IsBase X.base → IsLanguage X.base X.table X.all → (r : X.base.Rule) (p : X.base.Shape) → is_good X.base X.table (tail r p X.other) ≡ true →
        (ts us : List X.base.Token) (x : X.base.RuleTree r) → Reads X.base X.all X.low (call r) ts x us → Lacks X.base p us →
        Reads X.base X.all X.low (tail r p X.other) ts (x, None) us }
{}

/// Trees of a grammar begin with each token of which that is computed, as many rules deep as one looks.
pub fn computed_tokens_begin_trees<X: Spelled>()
    ensures { IsBase X.base → IsLanguage X.base X.table X.all → (n : ℕ) (p : X.base.Shape) (m : X.base.Token) →
        among X.base (shapes X.base X.all.rules n X.grammar) p ≡ true → X.base.fits p m ≡ true → Begins X.base X.all X.grammar (m ∷ []) }
{}

/// A rule has a tree where that is computed, as many rules deep as one looks, if each leaf has one.
pub fn computed_rules_have_trees<X: Spelled>()
    ensures { IsBase X.base → ((k : X.base.Leaf) → (us : List X.base.Token) × (x : X.base.LeafTree k) × X.all.leaves k us x) → ((j : ℕ) → X.all.limits j ≡ any) →
        (n : ℕ) (r : X.base.Rule) → rule_has_tree X.base X.all.rules n r ≡ true →
        (us : List X.base.Token) × (o : Bool) × (x : X.base.RuleTree r) × called X.base X.all r us o x }
{}
