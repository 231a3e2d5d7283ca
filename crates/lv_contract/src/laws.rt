ghost use Rattle.lv_contract.specs.Laws.{HasOneContract};

/// Law: bytes say at most one contract.
pub fn has_one_contract()
    ensures { HasOneContract }
{}
