ghost use Rattle.lv_exprs.specs.Laws.{NothingGoesOn, HasOneForm};

/// Law: after an expression nothing goes on with it but an operator, `?`, `[`, a dot or a based token.
pub fn nothing_goes_on()
    ensures { NothingGoesOn }
{}

/// Law: each list of tokens is spelled by at most one form.
pub fn has_one_form()
    ensures { HasOneForm }
{}
