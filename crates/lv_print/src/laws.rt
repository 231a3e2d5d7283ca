ghost use Rattle.lv_print.specs.Reads.{ExprsReadBack, SourcesReadBack};

/// Law: the canonical text of an expression that some list of tokens spells reads back to it.
pub fn exprs_read_back()
    ensures { ExprsReadBack }
{}

/// Law: the canonical text of a source that some list of tokens spells reads back to it.
pub fn sources_read_back()
    ensures { SourcesReadBack }
{}
