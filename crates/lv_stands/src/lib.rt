//! What a set of clauses says of a query of a graph's machine. Each function does nothing: its contract is the law.
#![tactic(auto)]

ghost use Rattle.std.specs.Prelude.{ℕ, ◌≡◌, ◌≤◌, ◌<◌, ◌*◌, ◌^◌, List, Bool};
ghost use Rattle.lv_model.specs.Machine.{Query, IsMet};
ghost use Rattle.lv_model.specs.Design.{Observers};
ghost use Rattle.lv_netlist.specs.Net.{Net};
ghost use Rattle.lv_netlist.specs.Stepping.{GraphCycle, graph_machine};
ghost use Rattle.lv_netlist.specs.Queries.{AreMeeting, IsGoalOf, query_bits, free_bits};
ghost use Rattle.lv_clauses.specs.Sets.{SetValue};
ghost use Rattle.lv_clauses.specs.Values.{IsModel, values_of};
ghost use Rattle.lv_clauses.specs.Derivations.{Step, IsRefutation};
ghost use Rattle.lv_clauses.specs.Decided.{IsDecidedBy};
ghost use Rattle.lv_blast.specs.Encoding.{IsEncoding};
ghost use Rattle.lv_stands.specs.Stands.{StandsFor, query_words};

/// The clauses of a goal that is 1 exactly where its inputs meet a query stand for the query.
pub fn clauses_stand()
    ensures { (net : Net) (o : Observers GraphCycle) (b : ℕ) (s : List ℕ) (q : Query) (product : Net) (goal : ℕ) (set : SetValue) →
        IsGoalOf net o b s q product goal → IsEncoding product goal set → StandsFor set net o b s q }
{}

/// Where a query can be met, some values of its bits meet it, and the words of values that meet it are two runs that do.
pub fn queries_are_bits()
    ensures values { (net : Net) (o : Observers GraphCycle) (b : ℕ) (s : List ℕ) (q : Query) →
        IsMet (graph_machine net o) b s q → (values : ℕ → Bool) × AreMeeting net o b s q (query_words net b q values) }
    ensures met { (net : Net) (o : Observers GraphCycle) (b : ℕ) (s : List ℕ) (q : Query) (values : ℕ → Bool) →
        AreMeeting net o b s q (query_words net b q values) → IsMet (graph_machine net o) b s q }
{}

/// A query whose set is refuted can't be met; the words of a model of its set meet it.
pub fn sets_decide_queries()
    ensures refuted { (set : SetValue) (net : Net) (o : Observers GraphCycle) (b : ℕ) (s : List ℕ) (q : Query) (lines : List Step) →
        StandsFor set net o b s q → IsRefutation set lines → IsMet (graph_machine net o) b s q → ⊥ }
    ensures model { (set : SetValue) (net : Net) (o : Observers GraphCycle) (b : ℕ) (s : List ℕ) (q : Query) (found : List Bool) →
        StandsFor set net o b s q → IsModel set found → AreMeeting net o b s q (query_words net b q (values_of found)) }
{}

/// A query has at most as many bits as are free; so a budget that no number of deciding variables makes large enough is
/// below what the free bits ask for.
pub fn free_bits_are_enough()
    ensures bits { (net : Net) (b : ℕ) (q : Query) → query_bits net b q ≤ free_bits net b }
    ensures budget { (set : SetValue) (net : Net) (o : Observers GraphCycle) (b : ℕ) (s : List ℕ) (q : Query) (budget : ℕ) →
        StandsFor set net o b s q → ((d : ℕ) → IsDecidedBy set d → budget < 2 * 3 ^ d) → budget < 2 * 3 ^ free_bits net b }
{}
