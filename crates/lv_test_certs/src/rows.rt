ghost use Rattle.std.specs.Prelude.{◌≡◌, [], IfOk};

use lv_cert::{Cert, CertError, Shape, read_cert, write_cert};
use lv_clauses::{ClauseSet, Derivation, Lit, are_within};
use std::alloc::Global;
use std::test::Fail;

const LINES: [&str; 31] = [
    "leave-certificate 1",
    "kept 2",
    "keep 0",
    "keep 3",
    "first 2",
    "pair 0 1",
    "pair 340282366920938463463374607431768211455 7",
    "inputs 1",
    "input 12",
    "query base",
    "p cnf 1 2",
    "1 0",
    "-1 0",
    "lines 1",
    "3 0 1 2 0",
    "query step",
    "p cnf 2 4",
    "1 2 0",
    "1 -2 0",
    "-1 2 0",
    "-1 -2 0",
    "lines 2",
    "5 1 0 1 2 0",
    "6 0 5 3 4 0",
    "query imply",
    "p cnf 2 3",
    "1 0",
    "-1 -2 0",
    "2 0",
    "lines 0",
    "end",
];

const SHAPE: Shape = Shape {
    candidates: 5,
    registers: 2,
    inputs: 1,
};

/// The lines, with this text in place of the one with this number, from 1.
fn changed(alloc: Global, number: u64, text: &str) -> Result<Vec<u8>, Fail> {
    let mut out = Vec::new(alloc);
    let mut at: u64 = 0;
    for line in LINES {
        at = at.saturating_add(1);
        if at == number {
            out.extend_from_slice(text.as_bytes())?;
        } else {
            out.extend_from_slice(line.as_bytes())?;
            out.extend_from_slice(b"\n")?;
        }
    }
    Ok(out)
}

fn told(alloc: Global, bytes: &[u8], shape: Shape) -> Result<u64, Fail> {
    match read_cert(alloc, bytes, shape) {
        Ok(_) => Ok(0),
        Err(CertError::Line(n)) => Ok(n),
        Err(CertError::NoMemory) => Err(Fail::from("no memory")),
    }
}

/// A line, what stands in its place, and the line that is told, or 0.
const ROWS: [(u64, &str, u64); 60] = [
    (0, "", 0),
    (1, "leave-certificate 2\n", 1),
    (1, "leave-certificate  1\n", 1),
    (1, " leave-certificate 1\n", 1),
    (1, "leave-certificate 1 \n", 1),
    (1, "leave-certificate 1\r\n", 1),
    (2, "kept 1\n", 4),
    (2, "kept 3\n", 5),
    (2, "kept 5\n", 4),
    (2, "kept 6\n", 2),
    (2, "kept 02\n", 2),
    (2, "kept\n", 2),
    (2, "kept \n", 2),
    (2, "kept +2\n", 2),
    (2, "kept 9223372036854775807\n", 2),
    (3, "keep 4\n", 3),
    (3, "keep 3\n", 4),
    (4, "keep 0\n", 4),
    (4, "keep 4\n", 0),
    (4, "keep 5\n", 4),
    (4, "", 4),
    (5, "first 1\n", 5),
    (5, "first 3\n", 5),
    (6, "pair 0\n", 6),
    (6, "pair 0 1 2\n", 6),
    (7, "pair 340282366920938463463374607431768211456 7\n", 7),
    (7, "pair 1000000000000000000000000000000000000000 7\n", 7),
    (8, "inputs 2\n", 8),
    (9, "input 012\n", 9),
    (9, "input 12\ninput 13\n", 10),
    (10, "query step\n", 10),
    (11, "p cnf 9223372036854775807 2\n", 0),
    (11, "p cnf 9223372036854775808 2\n", 11),
    (11, "p cnf 1 9223372036854775807\n", 14),
    (11, "p cnf 1 1\n", 13),
    (11, "p cnf 0 2\n", 12),
    (12, "2 0\n", 12),
    (12, "1 1 0\n", 12),
    (12, "1 -1 0\n", 12),
    (12, "0\n", 0),
    (12, "-0 0\n", 12),
    (12, "--1 0\n", 12),
    (12, "1 00\n", 12),
    (12, "1\n", 12),
    (12, "1 0 \n", 12),
    (14, "lines 9223372036854775807\n", 16),
    (14, "lines 9223372036854775808\n", 14),
    (14, "lines 0\n", 15),
    (15, "3 0 0\n", 0),
    (15, "3 0 3 0\n", 15),
    (15, "3 0 0 1 0\n", 15),
    (15, "4 0 1 2 0\n", 15),
    (15, "3 -1 0 2 1 0\n", 0),
    (23, "5 2 1 0 1 2 0\n", 23),
    (24, "6 0 5 3 4 6 0\n", 24),
    (24, "5 0 4 3 2 0\n", 24),
    (31, "end", 31),
    (31, "end\n\n", 32),
    (31, "end\nx", 32),
    (31, "", 31),
];

#[test]
fn rows(rt: HostRuntime) -> Result<(), Fail> {
    for (number, text, line) in ROWS {
        let bytes = changed(rt.alloc(), number, text)?;
        if told(rt.alloc(), &bytes, SHAPE)? != line {
            return Err(Fail::from(text));
        }
    }
    Ok(())
}

#[test]
fn prefixes(rt: HostRuntime) -> Result<(), Fail> {
    let mut bytes = Vec::new(rt.alloc());
    let mut next: u64 = 1;
    for line in LINES {
        if told(rt.alloc(), &bytes, SHAPE)? != next {
            return Err(Fail::from(line));
        }
        bytes.extend_from_slice(line.as_bytes())?;
        if told(rt.alloc(), &bytes, SHAPE)? != next {
            return Err(Fail::from(line));
        }
        bytes.extend_from_slice(b"\n")?;
        next = next.saturating_add(1);
    }
    if told(rt.alloc(), &bytes, SHAPE)? != 0 {
        return Err(Fail::from("whole"));
    }
    Ok(())
}

/// Adds the clause of two literals over the first two variables.
fn add(set: &mut ClauseSet, first: bool, second: bool) -> Result<(), Fail> {
    let lits = [Lit::new(1, first), Lit::new(2, second)];
    if are_within(&lits, set.vars()) {
        set.add(&lits)?;
    }
    Ok(())
}

/// A certificate without lines.
fn found(alloc: Global) -> Result<Cert, Fail>
    ensures lines { IfOk result (λ cert. (cert.base ≡ []) × (cert.step ≡ []) × (cert.imply ≡ [])) }
{
    Ok(Cert {
        kept: vec![in alloc; 1, 2]?,
        left: vec![in alloc; 0, 340282366920938463463374607431768211455]?,
        right: vec![in alloc; 10, 0]?,
        input: vec![in alloc; 9]?,
        base: Derivation::new(alloc),
        step: Derivation::new(alloc),
        imply: Derivation::new(alloc),
    })
}

const WRITTEN: &str =
    "leave-certificate 1\nkept 2\nkeep 1\nkeep 2\nfirst 2\npair 0 10\npair 340282366920938463463374607431768211455 0\ninputs 1\ninput 9\nquery base\np cnf 2 2\n-1 -2 0\n1 -2 0\nlines 0\nquery step\np cnf 0 0\nlines 0\nquery imply\np cnf 7 0\nlines 0\nend\n";

#[test]
fn written(rt: HostRuntime) -> Result<(), Fail> {
    let alloc = rt.alloc();
    let cert = found(alloc)?;
    let mut base = ClauseSet::new(alloc, 2);
    add(&mut base, true, true)?;
    add(&mut base, false, true)?;
    let step = ClauseSet::new(alloc, 0);
    let imply = ClauseSet::new(alloc, 7);
    if cert.left.len() != cert.right.len() || base.vars() >= 1 << 63 {
        return Err(Fail::from("too many"));
    }
    let bytes = write_cert(alloc, &cert, &base, &step, &imply)?;
    if bytes.bytes() != WRITTEN.as_bytes() {
        return Err(Fail::from("text"));
    }
    if told(alloc, bytes.bytes(), SHAPE)? != 0 {
        return Err(Fail::from("back"));
    }
    Ok(())
}

/// What stands in the certificate is read.
#[test]
fn values(rt: HostRuntime) -> Result<(), Fail> {
    let bytes = changed(rt.alloc(), 0, "")?;
    let Ok(cert) = read_cert(rt.alloc(), &bytes, SHAPE) else {
        return Err(Fail::from("refused"));
    };
    if cert.kept.as_slice() != [0, 3].as_slice() || cert.input.as_slice() != [12].as_slice() {
        return Err(Fail::from("list"));
    }
    if cert.left.as_slice() != [0, 340282366920938463463374607431768211455].as_slice()
        || cert.right.as_slice() != [1, 7].as_slice()
    {
        return Err(Fail::from("states"));
    }
    if cert.base.len() != 1 || cert.step.len() != 2 || cert.imply.len() != 0 {
        return Err(Fail::from("lines"));
    }
    if cert.step.line(1).hints() != [5, 3, 4].as_slice()
        || cert.step.line(0).clause().lits() != [Lit::new(1, false)].as_slice()
    {
        return Err(Fail::from("step"));
    }
    Ok(())
}
