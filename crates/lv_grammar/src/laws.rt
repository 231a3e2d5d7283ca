ghost use Rattle.lv_grammar.specs.Laws.{HasOneTree};

/// Law: each list of tokens is spelled by at most one source.
pub fn has_one_tree()
    ensures { HasOneTree }
{}
