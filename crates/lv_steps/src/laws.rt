ghost use Rattle.lv_steps.specs.Exact.{StepsAreExact};
ghost use Rattle.lv_steps.specs.Total.{StepsAreTotal};

/// Law: where the shelf tells its files, what passes all steps passes them with one source, and no step refuses it but for want of
/// memory or a failed read.
pub fn steps_are_exact()
    ensures { StepsAreExact }
{}

/// Law: where the shelf tells its files and counted a missing and a long one, what doesn't pass all steps is refused by one for a
/// cause of its own, neither want of memory nor a failed read, if that is so of the contract of each file and of the source of each
/// list of tokens. Of those two steps no law says it: `read_contract` and `read_source` show it, where they answer.
pub fn steps_are_total()
    ensures { StepsAreTotal }
{}
