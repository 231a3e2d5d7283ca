//! Rows of edits of two contract files. `@` stands for a newline. The answers are those that docs/CONTRACT.md tells.
use lv_bits::Text;
use lv_contract::{Contract, ContractError, Need, read_contract};
use std::alloc::Global;
use std::str;
use std::test::Fail;

fn first() -> &'static str {
    r#"format = 1
files = ["t.v"]
top = "t"
clock = "clk"
lookahead = 0
retire = "r"
contract = ["c", "d"]
attacker = ["a"]
[initial]
equal = ["e"]
each = ["f"]
[candidates]
registers = true
equal = ["g"]
when = [["h", "i"]]
each = ["j"]
aligned = true
[sim]
cycles = 7
show = ["s"]
state = [["q", "1'b0"]]
input = [["x", "1'b1", "1'b0"]]
"#
}

fn second() -> &'static str {
    r#"format = 2
files = ["t.v"]
top = "t"
clock = "clk"
lookahead = 0
attacker = ["y"]
[[port]]
retire = "m"
contract = ["k"]
[[port]]
retire = "!m"
contract = ["l"]
"#
}

fn first_rows() -> &'static str {
    r#"ok|format = 1|format = 0x1
ok|"t.v"|''
ok|top = "t"|top = " ~"
ok|lookahead = 0|lookahead = 32@budget = 2000000@cycles = 64@certificate = "c.cert"@assume = ["x"]
ok|lookahead = 0|budget = 0@cycles = 0@lookahead = 1
ok|retire = "r"|retire = "u.v[3].w + 4'd2"
ok|contract = ["c", "d"]@|
ok|contract = ["c", "d"]|contract = []
ok|[initial]@equal = ["e"]@each = ["f"]@|
ok|equal = ["e"]@each = ["f"]@|
ok|registers = true@equal = ["g"]@when = [["h", "i"]]@each = ["j"]@aligned = true@|
ok|when = [["h", "i"]]|when = []
ok|state = [["q", "1'b0"]]@input = [["x", "1'b1", "1'b0"]]@|
ok|cycles = 7|cycles = 10000
ok|cycles = 7|cycles = 1
ok|input = [["x", "1'b1", "1'b0"]]|input = [["x"]]
toml|format = 1|format =
toml|format = 1|format = 1@format = 1
key format|format = 1@|
key format|format = 1|colour = 1
value format|format = 1|format = 3@colour = 1
value format|format = 1|format = 0
value format|format = 1|format = -1
value format|format = 1|format = 9223372036854775807
value format|format = 1|format = 1.0
value format|format = 1|format = "1"
key colour|format = 1|format = 1@colour = 1
key port|each = ["j"]@aligned = true|aligned = true@[[port]]@retire = "m"
key files|files = ["t.v"]@|
value files|files = ["t.v"]|files = []
value files|files = ["t.v"]|files = "t.v"
value files|files = ["t.v"]|files = [1]
value files|files = ["t.v"]|files = ["\u007f"]
key top|top = "t"@|
value top|top = "t"|top = ""
value top|top = "t"|top = 1
value top|top = "t"|top = "\u00e9"
value top|top = "t"|top = "\u001f"
value top|top = "t"|top = "\u007f"
key clock|clock = "clk"@|
value clock|clock = "clk"|clock = ""
value clock|clock = "clk"|clock = ["clk"]
key lookahead|lookahead = 0@|
value lookahead|lookahead = 0|lookahead = 33
value lookahead|lookahead = 0|lookahead = -1
value lookahead|lookahead = 0|lookahead = false
value budget|lookahead = 0|lookahead = 0@budget = 2000001
value budget|lookahead = 0|lookahead = 0@budget = -1
value budget|lookahead = 0|lookahead = 0@budget = "1"
value cycles|lookahead = 0|lookahead = 0@cycles = 65
value cycles|lookahead = 0|lookahead = 0@cycles = -1
value cycles|lookahead = 0|lookahead = 0@cycles = []
value certificate|lookahead = 0|lookahead = 0@certificate = ""
value certificate|lookahead = 0|lookahead = 0@certificate = 1
key retire|retire = "r"@|
value retire|retire = "r"|retire = ["r"]
value retire|retire = "r"|retire = "\t"
value contract|contract = ["c", "d"]|contract = "c"
value contract|contract = ["c", "d"]|contract = ["c", 1]
value contract|contract = ["c", "d"]|contract = ["c", "\n"]
key attacker|attacker = ["a"]@|
value attacker|attacker = ["a"]|attacker = []
value attacker|attacker = ["a"]|attacker = "a"
value assume|lookahead = 0|lookahead = 0@assume = [true]
value assume|lookahead = 0|lookahead = 0@assume = "x"
value initial|[initial]@equal = ["e"]@each = ["f"]@|initial = 1@
key initial.colour|equal = ["e"]|equal = ["e"]@colour = 1
value initial.equal|equal = ["e"]|equal = "e"
value initial.each|each = ["f"]|each = [["f"]]
value candidates|[candidates]|[[candidates]]
key candidates.colour|registers = true|colour = 1
value candidates.registers|registers = true|registers = 1
value candidates.equal|equal = ["g"]|equal = [1]
value candidates.when|when = [["h", "i"]]|when = [["h"]]
value candidates.when|when = [["h", "i"]]|when = [["h", "i", "j"]]
value candidates.when|when = [["h", "i"]]|when = ["h", "i"]
value candidates.each|each = ["j"]|each = 1
value candidates.aligned|aligned = true|aligned = "true"
value sim|[sim]|[[sim]]
key sim.colour|cycles = 7|cycles = 7@colour = 1
key sim.cycles|cycles = 7@|
value sim.cycles|cycles = 7|cycles = 0
value sim.cycles|cycles = 7|cycles = 10001
value sim.cycles|cycles = 7|cycles = "7"
key sim.show|show = ["s"]@|
value sim.show|show = ["s"]|show = "s"
value sim.state|state = [["q", "1'b0"]]|state = [["q"]]
value sim.state|state = [["q", "1'b0"]]|state = 1
value sim.input|input = [["x", "1'b1", "1'b0"]]|input = [[]]
value sim.input|input = [["x", "1'b1", "1'b0"]]|input = ["x"]
expr retire 0 0|retire = "r"|retire = ""
expr retire 0 2|retire = "r"|retire = "a `"
expr retire 0 2|retire = "r"|retire = "a /* b"
expr retire 0 0|retire = "r"|retire = "340282366920938463463374607431768211456"
expr retire 0 2|retire = "r"|retire = "a ;"
expr retire 0 4|retire = "r"|retire = "a + ;"
expr retire 0 3|retire = "r"|retire = "a +"
expr retire 0 1|retire = "r"|retire = " 4'b1?"
expr retire 0 2|retire = "r"|retire = "(4'b1?)"
expr contract 1 1|contract = ["c", "d"]|contract = ["c", "+"]
expr attacker 0 1|attacker = ["a"]|attacker = ["+"]
expr attacker 1 0|attacker = ["a"]|attacker = ["a", ""]
expr assume 0 0|lookahead = 0|lookahead = 0@assume = [")"]
expr initial.each 0 2|each = ["f"]|each = ["f ]"]
expr candidates.when 2 2|when = [["h", "i"]]|when = [["h", "i"], ["j ;", "k"]]
expr candidates.when 3 2|when = [["h", "i"]]|when = [["h", "i"], ["j", "k ;"]]
expr sim.state 0 1|state = [["q", "1'b0"]]|state = [["q", "-"]]
expr sim.input 1 1|input = [["x", "1'b1", "1'b0"]]|input = [["x", "0"], ["y", "1", "~"]]"#
}

fn second_rows() -> &'static str {
    r#"ok|contract = ["k"]|contract = ["l"]
ok|contract = ["k"]@[[port]]@retire = "!m"@contract = ["l"]@|
value port|contract = ["l"]|contract = []
value port|contract = ["l"]|contract = ["l", "l"]
ok|[[port]]@retire = "m"|[[port]]@retire = "n"@contract = ["k"]@[[port]]@retire = "n"@contract = ["k"]@[[port]]@retire = "m"
value port|[[port]]@retire = "m"|[[port]]@retire = "n"@contract = ["k"]@[[port]]@retire = "n"@contract = ["k"]@[[port]]@retire = "n"@contract = ["k"]@[[port]]@retire = "m"
key port|[[port]]@retire = "m"@contract = ["k"]@[[port]]@retire = "!m"@contract = ["l"]@|
value port|[[port]]@retire = "m"@contract = ["k"]@[[port]]@retire = "!m"@contract = ["l"]@|port = []@
value port|[[port]]@retire = "m"@contract = ["k"]@[[port]]@retire = "!m"@contract = ["l"]@|port = [1]@
value port|[[port]]@retire = "m"@contract = ["k"]@[[port]]@retire = "!m"@contract = ["l"]@|[port]@retire = "m"@
key retire|lookahead = 0|lookahead = 0@retire = "m"
key contract|lookahead = 0|lookahead = 0@contract = ["m"]
key port.colour|retire = "!m"|retire = "!m"@colour = 1
key port.retire|retire = "!m"@|
value port.retire|retire = "!m"|retire = 1
value port.contract|contract = ["k"]|contract = "k"
value format|format = 2|format = 3
expr attacker 0 1|attacker = ["y"]|attacker = ["+"]
expr port.retire 1 1|retire = "!m"|retire = "!"
expr port.contract 0 1|contract = ["k"]|contract = ["-"]
expr port.contract 1024 0|contract = ["l"]|contract = ["*"]"#
}

fn word(text: &Text) -> Result<&str, Fail> {
    match str::from_utf8(text.bytes()) {
        Ok(word) => Ok(word),
        Err(_) => Err("no text")?,
    }
}

fn refusal(alloc: Global, error: &ContractError) -> Result<String, Fail> {
    match error {
        ContractError::Toml => Ok(format!(in alloc; "toml")?),
        ContractError::Key(name) => Ok(format!(in alloc; "key {}", word(name)?)?),
        ContractError::Value(name) => Ok(format!(in alloc; "value {}", word(name)?)?),
        ContractError::Expr(name, entry, byte) => {
            Ok(format!(in alloc; "expr {} {} {}", word(name)?, *entry, *byte)?)
        }
        ContractError::NoMemory => Ok(format!(in alloc; "memory")?),
    }
}

fn answer(alloc: Global, bytes: &[u8], need: Need) -> Result<String, Fail> {
    match read_contract(alloc, bytes, need) {
        Ok(_) => Ok(format!(in alloc; "ok")?),
        Err(error) => refusal(alloc, &error),
    }
}

fn is_told(alloc: Global, text: &str, need: Need, wanted: &str) -> Result<bool, Fail> {
    let given = answer(alloc, text.as_bytes(), need)?;
    Ok(given.as_str() == wanted)
}

fn edited(alloc: Global, sample: &str, old: &str, new: &str) -> Result<String, Fail> {
    let old = old.replace(alloc, "@", "\n")?;
    let new = new.replace(alloc, "@", "\n")?;
    Ok(sample.replace(alloc, old.as_str(), new.as_str())?)
}

/// Whether an edit of a file changes it and is answered as the row says.
fn is_answered(alloc: Global, sample: &str, row: &str) -> Result<bool, Fail> {
    let (wanted, edit) = row.split_once('|').ok_or("no answer")?;
    let (old, new) = edit.split_once('|').ok_or("no edit")?;
    let text = edited(alloc, sample, old, new)?;
    Ok(text.as_str() != sample && is_told(alloc, text.as_str(), Need::Nothing, wanted)?)
}

#[test]
fn answers_each_edit(rt: HostRuntime) -> Result<(), Fail> {
    let alloc = rt.alloc();
    for (sample, rows) in [(first(), first_rows()), (second(), second_rows())] {
        assert!(rt; is_told(alloc, sample, Need::Nothing, "ok")?);
        for row in rows.lines() {
            assert!(rt; is_answered(alloc, sample, row)?, "{row}");
        }
    }
    Ok(())
}

/// Whether this is told where an entry stands so many times in place of a text.
fn is_counted(
    alloc: Global,
    old: &str,
    entry: &str,
    count: usize,
    wanted: &str,
) -> Result<bool, Fail> {
    let entries = entry.repeat(alloc, count)?;
    let text = first().replace(alloc, old, entries.as_str())?;
    is_told(alloc, text.as_str(), Need::Nothing, wanted)
}

/// Whether the most entries of a row are taken and one more is refused.
fn is_limited(alloc: Global, row: &str) -> Result<bool, Fail> {
    let (key, rest) = row.split_once('|').ok_or("no key")?;
    let (most, rest) = rest.split_once('|').ok_or("no count")?;
    let (old, entry) = rest.split_once('|').ok_or("no entry")?;
    let most = most.parse::<usize>()?;
    if !is_counted(alloc, old, entry, most, "ok")? {
        return Ok(false);
    }
    let refusal = format!(in alloc; "value {key}")?;
    is_counted(alloc, old, entry, most.saturating_add(1), refusal.as_str())
}

/// The key, the most entries, and an entry in place of a text.
const COUNTS: &str = r#"files|64|"t.v"|"t",
contract|1024|"c", "d"|"c",
attacker|1024|"a"|"a",
initial.equal|1024|"e"|"e",
initial.each|1024|"f"|"f",
candidates.equal|1024|"g"|"g",
candidates.when|1024|["h", "i"]|["h","i"],
candidates.each|1024|"j"|"j",
sim.show|1024|"s"|"s",
sim.state|1024|["q", "1'b0"]|["q","0"],
sim.input|1024|["x", "1'b1", "1'b0"]|["x"],
sim.input|10000|"1'b1", "1'b0"|"0","#;

#[test]
fn counts_entries(rt: HostRuntime) -> Result<(), Fail> {
    let alloc = rt.alloc();
    for row in COUNTS.lines() {
        assert!(rt; is_limited(alloc, row)?, "{row}");
    }
    Ok(())
}

/// What is told of an expression that begins with so many signs.
fn signed(alloc: Global, count: usize) -> Result<String, Fail> {
    let signs = "~".repeat(alloc, count)?;
    let quoted = format!(in alloc; "retire = \"{signs}a\"")?;
    let text = first().replace(alloc, "retire = \"r\"", quoted.as_str())?;
    answer(alloc, text.as_bytes(), Need::Nothing)
}

#[test]
fn measures_expressions(rt: HostRuntime) -> Result<(), Fail> {
    let alloc = rt.alloc();
    assert!(rt; signed(alloc, 199)?.as_str() == "ok");
    // 200 signs are too high, which may be told at the last of them, at the operand or at the end.
    let high = signed(alloc, 200)?;
    assert!(rt;
        matches!(
            high.as_str(),
            "expr retire 0 199" | "expr retire 0 200" | "expr retire 0 201"
        )
    );
    Ok(())
}

#[test]
fn asks_for_what_is_needed(rt: HostRuntime) -> Result<(), Fail> {
    let alloc = rt.alloc();
    assert!(rt; is_told(alloc, first(), Need::Certificate, "key certificate")?);
    assert!(rt; is_told(alloc, first(), Need::Simulation, "ok")?);
    assert!(rt; is_told(alloc, second(), Need::Simulation, "key sim")?);
    let named = "lookahead = 0@certificate = \"c\"";
    let text = edited(alloc, first(), "lookahead = 0", named)?;
    assert!(rt; is_told(alloc, text.as_str(), Need::Certificate, "ok")?);
    assert!(rt;
        matches!(
            read_contract(alloc, b"\xff", Need::Nothing),
            Err(ContractError::Toml)
        )
    );
    Ok(())
}

fn is_at(list: Option<&Text>, bytes: &[u8]) -> bool {
    match list {
        Some(text) => text.bytes() == bytes,
        None => false,
    }
}

#[test]
fn gives_what_stands_there(rt: HostRuntime) -> Result<(), Fail> {
    let alloc = rt.alloc();
    let Ok(c) = read_contract(alloc, first().as_bytes(), Need::Nothing) else {
        return Err("refused")?;
    };
    assert!(rt; c.format == 1 && c.lookahead == 0 && c.budget == 200_000 && c.cycles == 16);
    assert!(rt; is_at(c.files.get(0), b"t.v") && c.top.bytes() == b"t".as_slice());
    assert!(rt; c.clock.bytes() == b"clk".as_slice() && c.certificate.is_none());
    assert!(rt; c.registers && c.aligned && c.ports.len() == 1 && c.assume.len() == 0);
    let port = c.ports.get(0).ok_or("no port")?;
    assert!(rt; port.retire.text.bytes() == b"r".as_slice() && port.contract.len() == 2);
    let pair = c.guarded.get(0).ok_or("no pair")?;
    assert!(rt;
        pair.guard.text.bytes() == b"h".as_slice() && pair.expr.text.bytes() == b"i".as_slice()
    );
    let sim = c.sim.as_ref().ok_or("no sim")?;
    assert!(rt; sim.cycles == 7 && sim.show.len() == 1);
    let state = sim.state.get(0).ok_or("no state")?;
    assert!(rt; state.register.bytes() == b"q".as_slice());
    let input = sim.input.get(0).ok_or("no input")?;
    assert!(rt; input.input.bytes() == b"x".as_slice() && input.values.len() == 2);
    Ok(())
}
