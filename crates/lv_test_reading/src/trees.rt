use lv_ast::{Expr, Literal, Path, PathStep, Select};
use lv_bits::{NoMemory, Op, Text};
use sqlite_items::{Boxed, Items};
use std::alloc::Global;
use std::test::Fail;

fn number(size: u128, value: u128) -> Expr {
    Expr::Lit(Literal {
        size: Some(size),
        plain: false,
        signed: false,
        value,
        wild: 0,
        place: 0,
    })
}

/// `u[3].a[2]`
fn element(alloc: Global) -> Result<Expr, NoMemory> {
    let mut steps = Items::new(alloc);
    steps.push(PathStep {
        name: Text::new(alloc, b"u")?,
        index: Some(3),
    })?;
    let path = Path {
        steps,
        name: Text::new(alloc, b"a")?,
        place: 7,
    };
    let mut selects = Items::new(alloc);
    selects.push(Select::Bit(Boxed::new(alloc, number(2, 2))?))?;
    Ok(Expr::Name(path, selects))
}

/// `{u[3].a[2], 8'd1} - 8'd5`
fn tree(alloc: Global) -> Result<Expr, NoMemory> {
    let mut parts = Items::new(alloc);
    parts.push(element(alloc)?)?;
    parts.push(number(8, 1))?;
    let left = Boxed::new(alloc, Expr::Cat(parts))?;
    Ok(Expr::Bin(Op::Sub, left, Boxed::new(alloc, number(8, 5))?))
}

fn is_element(expr: &Expr) -> bool {
    let Expr::Name(path, selects) = expr else {
        return false;
    };
    let [step] = path.steps.as_slice() else {
        return false;
    };
    let [Select::Bit(index)] = selects.as_slice() else {
        return false;
    };
    step.index == Some(3)
        && step.name.bytes() == b"u".as_slice()
        && path.name.bytes() == b"a".as_slice()
        && path.place == 7
        && matches!(index.get(), Expr::Lit(literal) if literal.value == 2)
}

#[test]
fn copies_a_tree(rt: HostRuntime) -> Result<(), Fail> {
    let Ok(tree) = tree(rt.alloc()) else {
        return Err(Fail::from("no memory"));
    };
    let Ok(Expr::Bin(op, left, right)) = tree.copy(rt.alloc()) else {
        return Err(Fail::from("another tree"));
    };
    assert_eq!(rt; op, Op::Sub);
    assert!(rt; matches!(right.get(), Expr::Lit(literal) if literal.value == 5));
    let Expr::Cat(parts) = left.get() else {
        return Err(Fail::from("no concatenation"));
    };
    let [first, second] = parts.as_slice() else {
        return Err(Fail::from("another count of parts"));
    };
    assert!(rt; is_element(first));
    assert!(rt; matches!(second, Expr::Lit(literal) if literal.value == 1));
    Ok(())
}
