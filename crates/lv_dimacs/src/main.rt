//! Solves clauses in DIMACS, so that the solver can be measured beside others.
#![tactic(auto)]

mod input;

use input::Input;
use lv_solver::{Answer, Work, solve_counted};
use std::io;

fn main(rt: HostRuntime) -> io::Result<()> {
    let mut input = Input::new(rt.alloc());
    for line in rt.lines(rt.alloc()) {
        if input.read(rt.alloc(), line?.as_str()).is_err() {
            println!(rt; "no memory")?;
            return Ok(());
        }
    }
    let mut work = Work::none();
    let Ok(answer) = solve_counted(rt.alloc(), &input.set, input.budget, &mut work) else {
        println!(rt; "no memory")?;
        return Ok(());
    };
    let (word, lines) = summary(&answer);
    let Work {
        conflicts,
        steps,
        looks,
    } = work;
    println!(rt; "{word}, {lines} lines, {conflicts} conflicts, {steps} steps, {looks} looks")?;
    Ok(())
}

/// What was answered, and in how many lines.
fn summary(answer: &Answer) -> (&'static str, u64) {
    match answer {
        Answer::Model(_) => ("satisfiable", 0),
        Answer::Refuted(log) => ("unsatisfiable", log.len()),
        Answer::Budget(log) => ("spent", log.len()),
    }
}
