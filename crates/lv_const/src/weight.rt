use lv_ast::{Expr, Select};

fn more(a: u64, b: u64) -> u64 {
    a.saturating_add(b).saturating_add(1)
}

/// How many nodes it has. It says only which of two operands is evaluated twice, so that nested constants don't double the work at each level.
#[cycle(weights)]
pub fn weight(expr: &Expr) -> u64 {
    match expr {
        Expr::Lit(_) => 1,
        Expr::Name(_, selects) => selects_weight(selects.as_slice()),
        Expr::Un(_, a) => more(weight(a.get()), 0),
        Expr::Bin(_, a, b) => more(weight(a.get()), weight(b.get())),
        Expr::Div(a, b) => more(weight(a.get()), weight(b.get())),
        Expr::Rem(a, b) => more(weight(a.get()), weight(b.get())),
        Expr::Cond(c, a, b) => more(weight(c.get()), more(weight(a.get()), weight(b.get()))),
        Expr::Cat(parts) => exprs_weight(parts.as_slice()),
        Expr::Rep(count, parts) => more(weight(count.get()), exprs_weight(parts.as_slice())),
        Expr::Cast(_, a) => more(weight(a.get()), 0),
    }
}

#[cycle(weights)]
fn exprs_weight(exprs: &[Expr]) -> u64 {
    let mut total = 1;
    for expr in exprs {
        total = more(total, weight(expr));
    }
    total
}

#[cycle(weights)]
fn selects_weight(selects: &[Select]) -> u64 {
    let mut total = 1;
    for select in selects {
        let one = match select {
            Select::Bit(a) => weight(a.get()),
            Select::Part(a, b) => more(weight(a.get()), weight(b.get())),
            Select::Up(a, b) => more(weight(a.get()), weight(b.get())),
            Select::Down(a, b) => more(weight(a.get()), weight(b.get())),
        };
        total = more(total, one);
    }
    total
}
