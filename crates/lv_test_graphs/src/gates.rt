use lv_aig::And;
use std::test::Fail;

#[test]
fn shares_gates(rt: HostRuntime) -> Result<(), Fail> {
    let mut and = And::new(rt.alloc());
    let Ok(a) = and.input() else {
        return Err(Fail::from("no memory"));
    };
    let Ok(b) = and.input() else {
        return Err(Fail::from("no memory"));
    };
    let Ok(ab) = and.and(a, b) else {
        return Err(Fail::from("no memory"));
    };
    let Ok(ba) = and.and(b, a) else {
        return Err(Fail::from("no memory"));
    };
    assert_eq!(rt; ab, ba);
    assert_eq!(rt; and.len(), 1);
    let Ok(aa) = and.and(a, a) else {
        return Err(Fail::from("no memory"));
    };
    assert_eq!(rt; aa, a);
    let turned = and.not(a);
    let Ok(none) = and.and(a, turned) else {
        return Err(Fail::from("no memory"));
    };
    assert_eq!(rt; none, and.zero());
    assert_eq!(rt; and.len(), 1);
    Ok(())
}
