use lv_bits::{Bytes, NoMemory, Text};
use lv_io::{MemShelf, MemSink};
use lv_run::run;
use lv_words::{Asked, Words, asked};
use sqlite_items::Items;
use std::alloc::Global;
use std::test::Fail;

const CONTRACT: &[u8] =
    b"format = 1\nfiles = [\"t.v\"]\ntop = \"t\"\nclock = \"clk\"\nlookahead = 0\nretire = \"q\"\ncontract = [\"q\"]\nattacker = [\"q\"]\n[initial]\nequal = [\"q\"]\n[candidates]\nregisters = true\naligned = true\n";

const OPEN: &[u8] =
    b"format = 1\nfiles = [\"t.v\"]\ntop = \"t\"\nclock = \"clk\"\nlookahead = 0\nretire = \"q\"\ncontract = [\"q\"]\nattacker = [\"q\"]\n[candidates]\nregisters = true\naligned = true\n";

const AHEAD: &[u8] =
    b"format = 1\nfiles = [\"t.v\"]\ntop = \"t\"\nclock = \"clk\"\nlookahead = 1\nretire = \"q\"\ncontract = [\"q\"]\nattacker = [\"q\"]\n[candidates]\nregisters = true\naligned = true\n";

const UNREAD: &[u8] =
    b"format = 1\nfiles = [\"t.v\"]\ntop = \"t\"\nclock = \"clk\"\nlookahead = 0\nretire = \"q |\"\ncontract = [\"q\"]\nattacker = [\"q\"]\n[candidates]\nregisters = true\naligned = true\n";

const DESIGN: &[u8] =
    b"module t(input clk, input d, output reg q);\n  always @(posedge clk) q <= q ^ d;\nendmodule\n";

const MACRO: &[u8] =
    b"`define X q ^ d\nmodule t(input clk, input d, output reg q);\n  always @(posedge clk) q <= `X; // sum\nendmodule\n";

// A million uses.
const USES: &[u8] =
    b"`define a ;\n`define b `a`a`a`a`a`a`a`a`a`a\n`define c `b`b`b`b`b`b`b`b`b`b\n`define d `c`c`c`c`c`c`c`c`c`c\n`define e `d`d`d`d`d`d`d`d`d`d\n`define f `e`e`e`e`e`e`e`e`e`e\n`define g `f`f`f`f`f`f`f`f`f`f\n`g";

const ACCEPTED: &[u8] = b"accepted\nlookahead 0\nkept 2\nkeep eq q\nkeep aligned\n";

const USAGE: &[u8] = b"usage: leave MODE FILE [--out NAME]\n";

const WORKED: &[u8] =
    b"module t ( input clk , output y ) ;\nassign y = ( ~ ( 1'h1 & 1'h0 ) ) ;\nendmodule\n";

const PRINTED: &[u8] =
    b"module t ( input clk , input d , output reg q ) ;\nalways @ ( posedge clk ) q <= ( q ^ d ) ;\nendmodule\n";

const UNBUILT: &[u8] = b"refused unbuilt\n";

// What the grammar refuses, with the number of a token and its place; then what is of the grammar and not of the form.
const SOURCES: &[(&[u8], &[u8])] = &[
    (b"", b"refused syntax 0 0\n"),
    (b"// none\n", b"refused syntax 0 8\n"),
    (
        b"module t(input clk)\nendmodule\n",
        b"refused syntax 6 20\n",
    ),
    (b"module module", b"refused syntax 1 7\n"),
    (b"module t; wire a", b"refused syntax 5 16\n"),
    (
        b"`define E endmodule\nmodule t; `E `E",
        b"refused syntax 4 10\n",
    ),
    (
        b"module t; assign a = 4'b1?; endmodule",
        b"refused syntax 7 22\n",
    ),
    (b"module t; endmodule", UNBUILT),
    (b"module t(clk); input clk; endmodule", UNBUILT),
    (
        b"module t(input clk, output reg q); assign q = clk; endmodule",
        UNBUILT,
    ),
    (
        b"module t(input clk, output reg [1:0] q); endmodule",
        UNBUILT,
    ),
    (
        b"module t(input clk, output reg q); endmodule module u; endmodule",
        UNBUILT,
    ),
    (
        b"module t(input clk, output reg q); always @(posedge clk) q = q; endmodule",
        UNBUILT,
    ),
    (b"module u(input clk, output reg q); endmodule", UNBUILT),
];

fn words_of(alloc: Global, list: &[&[u8]]) -> Result<Words, NoMemory> {
    let mut words = Items::new(alloc);
    for word in list {
        words.push(Text::new(alloc, *word)?)?;
    }
    Ok(Words { list: words })
}

fn put(alloc: Global, shelf: &mut MemShelf, name: &[u8], bytes: &[u8]) -> Result<(), NoMemory> {
    let name = Text::new(alloc, name)?;
    let bytes = Bytes::new(alloc, bytes)?;
    shelf.put(name, bytes)
}

fn shelf_with(
    alloc: Global,
    contract: &[u8],
    design: Option<&[u8]>,
    fails: Vec<u64>,
) -> Result<MemShelf, NoMemory> {
    let mut shelf = MemShelf::new(alloc, fails);
    put(alloc, &mut shelf, b"a.toml", contract)?;
    if let Some(design) = design {
        put(alloc, &mut shelf, b"t.v", design)?;
    }
    Ok(shelf)
}

fn gives(
    alloc: Global,
    list: &[&[u8]],
    contract: &[u8],
    design: Option<&[u8]>,
    code: u8,
    text: &[u8],
) -> Result<bool, NoMemory> {
    let words = words_of(alloc, list)?;
    let mut shelf = shelf_with(alloc, contract, design, Vec::new(alloc))?;
    let mut sink = MemSink::new(alloc, 200, 200, Vec::new(alloc))?;
    let status = run(alloc, &words, &mut shelf, &mut sink);
    Ok(status.code == code && sink.bytes() == text)
}

#[test]
fn rows_of_verify(rt: HostRuntime) -> Result<(), Fail> {
    let alloc = rt.alloc();
    let verify = [b"verify".as_slice(), b"a.toml".as_slice()];
    let rows: [(&[u8], Option<&[u8]>, u8, &[u8]); 10] = [
        (CONTRACT, Some(DESIGN), 0, ACCEPTED),
        (CONTRACT, Some(MACRO), 0, ACCEPTED),
        (OPEN, Some(DESIGN), 1, b"unproved\n"),
        (OPEN, Some(MACRO), 1, b"unproved\n"),
        (AHEAD, Some(DESIGN), 3, b"refused unbuilt\n"),
        (AHEAD, Some(b"\""), 3, b"refused byte 0\n"),
        (CONTRACT, None, 3, b"refused missing t.v\n"),
        (UNREAD, None, 3, b"refused expr retire 0 3\n"),
        (UNREAD, Some(b"\""), 3, b"refused expr retire 0 3\n"),
        (UNREAD, Some(DESIGN), 3, b"refused expr retire 0 3\n"),
    ];
    for (contract, design, code, text) in rows {
        assert!(rt;
            matches!(
                gives(alloc, &verify, contract, design, code, text),
                Ok(true)
            )
        );
    }
    Ok(())
}

// A contract that lists these files, with more keys at its top.
fn lists(alloc: Global, files: &[u8], more: &[u8]) -> Result<Vec<u8>, NoMemory> {
    let mut contract = Vec::new(alloc);
    contract.extend_from_slice(b"format = 1\nfiles = [")?;
    contract.extend_from_slice(files)?;
    contract.extend_from_slice(
        b"]\ntop = \"t\"\nclock = \"clk\"\nretire = \"q\"\ncontract = [\"q\"]\nattacker = [\"q\"]\n",
    )?;
    contract.extend_from_slice(more)?;
    contract.extend_from_slice(
        b"\n[initial]\nequal = [\"q\"]\n[candidates]\nregisters = true\naligned = true\n",
    )?;
    Ok(contract)
}

fn answers_contract(
    alloc: Global,
    mode: &[u8],
    files: &[u8],
    more: &[u8],
    code: u8,
    text: &[u8],
) -> Result<bool, NoMemory> {
    let contract = lists(alloc, files, more)?;
    gives(
        alloc,
        &[mode, b"a.toml"],
        &contract,
        Some(DESIGN),
        code,
        text,
    )
}

// The refusals of a contract file come before the design is read, in both modes; then the files that it lists are read in order.
#[test]
fn rows_of_contracts(rt: HostRuntime) -> Result<(), Fail> {
    let alloc = rt.alloc();
    let one = b"\"t.v\"".as_slice();
    let rows: [(&[u8], &[u8], &[u8]); 9] = [
        (one, b"lookahead =", b"refused toml\n"),
        (one, b"lookahead = 0\ncolour = 1", b"refused key colour\n"),
        (one, b"", b"refused key lookahead\n"),
        (one, b"lookahead = 33", b"refused value lookahead\n"),
        (
            one,
            b"lookahead = 0\nassume = [\"q\", \"q |\"]",
            b"refused expr assume 1 3\n",
        ),
        (b"", b"lookahead = 0", b"refused value files\n"),
        (
            b"\"u.v\", \"t.v\"",
            b"lookahead = 0",
            b"refused missing u.v\n",
        ),
        (
            b"\"t.v\", \"u.v\"",
            b"lookahead = 0",
            b"refused missing u.v\n",
        ),
        (
            b"\"a.toml\", \"t.v\"",
            b"lookahead = 0",
            b"refused byte 20\n",
        ),
    ];
    for (files, more, text) in rows {
        for mode in [b"verify".as_slice(), b"print".as_slice()] {
            assert!(rt;
                matches!(
                    answers_contract(alloc, mode, files, more, 3, text),
                    Ok(true)
                )
            );
        }
    }
    Ok(())
}

fn answers_design(
    alloc: Global,
    mode: &[u8],
    files: &[u8],
    design: &[u8],
    text: &[u8],
) -> Result<bool, NoMemory> {
    let contract = lists(alloc, files, b"lookahead = 0")?;
    gives(alloc, &[mode, b"a.toml"], &contract, Some(design), 3, text)
}

// A file has at most 4,194,304 bytes, and so have all files of a design with newlines between them; a file that is too long is told
// before one behind it that is missing.
#[test]
fn rows_of_long_files(rt: HostRuntime) -> Result<(), Fail> {
    let alloc = rt.alloc();
    let long = vec![in alloc; b' '; 4_194_305]?;
    let full = vec![in alloc; b' '; 4_194_304]?;
    let one = b"\"t.v\"".as_slice();
    let twice = b"\"t.v\", \"t.v\"".as_slice();
    let before = b"\"t.v\", \"u.v\"".as_slice();
    let rows: [(&[u8], &[u8], &[u8]); 4] = [
        (one, &long, b"refused long t.v\n"),
        (one, &full, b"refused syntax 0 4194304\n"),
        (twice, &full, b"refused limit source 8388609\n"),
        (before, &long, b"refused long t.v\n"),
    ];
    for (files, design, text) in rows {
        assert!(rt;
            matches!(
                answers_design(alloc, b"verify", files, design, text),
                Ok(true)
            )
        );
    }
    let verify = [b"verify".as_slice(), b"a.toml".as_slice()];
    assert!(rt;
        matches!(
            gives(alloc, &verify, &long, None, 3, b"refused long a.toml\n"),
            Ok(true)
        )
    );
    Ok(())
}

// What is not of the form that is decided is printed.
#[test]
fn rows_of_forms(rt: HostRuntime) -> Result<(), Fail> {
    let alloc = rt.alloc();
    let one = b"\"t.v\"".as_slice();
    let twice = b"\"t.v\", \"t.v\"".as_slice();
    let rows: [(&[u8], &[u8], u8, &[u8]); 6] = [
        (one, b"lookahead = 0", 0, ACCEPTED),
        (one, b"lookahead = 0\nbudget = 0", 3, UNBUILT),
        (one, b"lookahead = 32", 3, UNBUILT),
        (one, b"lookahead = 0\nassume = [\"q\"]", 3, UNBUILT),
        (twice, b"lookahead = 0", 3, UNBUILT),
        (one, b"lookahead = 0\ncontract = []", 3, b"refused toml\n"),
    ];
    for (files, more, code, text) in rows {
        assert!(rt;
            matches!(
                answers_contract(alloc, b"verify", files, more, code, text),
                Ok(true)
            )
        );
    }
    assert!(rt;
        matches!(
            answers_contract(alloc, b"print", one, b"lookahead = 32", 0, PRINTED),
            Ok(true)
        )
    );
    Ok(())
}

// The worked row, and what it gives when it is printed again.
#[test]
fn rows_of_print(rt: HostRuntime) -> Result<(), Fail> {
    let alloc = rt.alloc();
    let print = [b"print".as_slice(), b"a.toml".as_slice()];
    let rows: [(Option<&[u8]>, u8, &[u8]); 6] = [
        (
            Some(b"module t(input clk,output y);assign y=~(1'b1&1'b0);endmodule"),
            0,
            WORKED,
        ),
        (Some(WORKED), 0, WORKED),
        (Some(DESIGN), 0, PRINTED),
        (None, 3, b"refused missing t.v\n"),
        (Some(b"\""), 3, b"refused byte 0\n"),
        (
            Some(b"module t(input clk)\nendmodule\n"),
            3,
            b"refused syntax 6 20\n",
        ),
    ];
    for (design, code, text) in rows {
        assert!(rt; matches!(gives(alloc, &print, CONTRACT, design, code, text), Ok(true)));
    }
    Ok(())
}

// Each refusal of tokens and of directives; then, of two faults in one text, that of the earlier step.
#[test]
fn rows_of_refused_texts(rt: HostRuntime) -> Result<(), Fail> {
    let alloc = rt.alloc();
    let verify = [b"verify".as_slice(), b"a.toml".as_slice()];
    let lines = vec![in alloc; b'\n'; 500_001]?;
    let rows: [(&[u8], &[u8]); 12] = [
        (b"a \"", b"refused byte 2\n"),
        (
            b" 340282366920938463463374607431768211456",
            b"refused literal 1\n",
        ),
        (b"a /* b", b"refused unclosed 2\n"),
        (&lines, b"refused tokens 500001\n"),
        (b"a `X", b"refused macro 2\n"),
        (b"`ifdef X a", b"refused unbalanced 10\n"),
        (b"a `define 3", b"refused malformed 2\n"),
        (b"`define X `X\n`X", b"refused macro-depth 10\n"),
        (USES, b"refused tokens 500001\n"),
        (b"module module \"", b"refused byte 14\n"),
        (b"`X /*", b"refused unclosed 3\n"),
        (b"module module `X", b"refused macro 14\n"),
    ];
    for (design, text) in rows {
        assert!(rt;
            matches!(
                gives(alloc, &verify, CONTRACT, Some(design), 3, text),
                Ok(true)
            )
        );
    }
    Ok(())
}

#[test]
fn rows_of_sources(rt: HostRuntime) -> Result<(), Fail> {
    let alloc = rt.alloc();
    let verify = [b"verify".as_slice(), b"a.toml".as_slice()];
    for row in SOURCES {
        let (design, text) = *row;
        assert!(rt;
            matches!(
                gives(alloc, &verify, CONTRACT, Some(design), 3, text),
                Ok(true)
            )
        );
    }
    Ok(())
}

// A design whose register's next value is so many `~` before a name.
fn inverted(alloc: Global, count: usize) -> Result<Vec<u8>, NoMemory> {
    let mut value = Vec::new(alloc);
    for _ in 0..count {
        value.extend_from_slice(b"~")?;
    }
    value.extend_from_slice(b"q")?;
    assigns(alloc, &value)
}

fn is_answered(alloc: Global, count: usize, code: u8, text: &[u8]) -> Result<bool, NoMemory> {
    let verify = [b"verify".as_slice(), b"a.toml".as_slice()];
    let design = inverted(alloc, count)?;
    gives(alloc, &verify, CONTRACT, Some(&design), code, text)
}

// A name is 1 high, and each `~` makes it one higher.
#[test]
fn heights(rt: HostRuntime) -> Result<(), Fail> {
    let alloc = rt.alloc();
    assert!(rt; matches!(is_answered(alloc, 199, 0, ACCEPTED), Ok(true)));
    assert!(rt;
        matches!(
            is_answered(alloc, 200, 3, b"refused depth 221 272\n"),
            Ok(true)
        )
    );
    Ok(())
}

// Words that are no command line, and then modes that are not built.
const REFUSED_WORDS: &[&[&[u8]]] = &[
    &[],
    &[b"verify"],
    &[b"verify", b"a.toml", b"b.toml"],
    &[b"frob", b"a.toml"],
    &[b"verify", b"-a.toml"],
    &[b"verify", b"a.toml", b"--frob"],
    &[b"verify", b"a.toml", b"--out"],
    &[b"verify", b"a.toml", b"--out", b"x", b"--out=x"],
    &[b"print", b"a.toml", b"--out", b"x"],
    &[b"sim", b"a.toml", b"--out", b"x"],
    &[b"print"],
    &[b"print", b"a.toml", b"\xff"],
    &[b"--help"],
    &[b"verify", b"-h"],
    &[b"gen", b"0"],
    &[b"gen", b"501"],
    &[b"gen", b"01"],
    &[b"verify", b"a.toml", b"--out", b"x"],
    &[b"check", b"a.toml"],
    &[b"sim", b"a.toml"],
    &[b"gen", b"3"],
];

#[test]
fn words_are_refused(rt: HostRuntime) -> Result<(), Fail> {
    let alloc = rt.alloc();
    for list in REFUSED_WORDS {
        assert!(rt;
            matches!(
                gives(alloc, *list, CONTRACT, Some(DESIGN), 2, USAGE),
                Ok(true)
            )
        );
    }
    Ok(())
}

// Behind `--` each word is one of MODE and FILE.
#[test]
fn words_are_taken(rt: HostRuntime) -> Result<(), Fail> {
    let alloc = rt.alloc();
    let rows: [&[&[u8]]; 3] = [
        &[b"verify", b"a.toml"],
        &[b"verify", b"--", b"a.toml"],
        &[b"--", b"verify", b"a.toml"],
    ];
    for list in rows {
        assert!(rt;
            matches!(
                gives(alloc, list, CONTRACT, Some(DESIGN), 0, ACCEPTED),
                Ok(true)
            )
        );
    }
    Ok(())
}

// Whether this is the name, or none is named where it is empty.
fn is_named(named: Option<Text>, name: &[u8]) -> bool {
    match named {
        Some(text) => text.bytes() == name,
        None => name.is_empty(),
    }
}

// What the words ask for, as clap reads them.
fn asks(alloc: Global, list: &[&[u8]], file: &[u8], out: &[u8]) -> Result<bool, NoMemory> {
    let words = words_of(alloc, list)?;
    match asked(alloc, &words)? {
        Some(Asked::Verify(name, named)) => Ok(name.bytes() == file && is_named(named, out)),
        _ => Ok(false),
    }
}

#[test]
fn words_ask(rt: HostRuntime) -> Result<(), Fail> {
    let alloc = rt.alloc();
    let rows: [(&[&[u8]], &[u8]); 4] = [
        (&[b"verify", b"a.toml"], b""),
        (&[b"verify", b"a.toml", b"--out", b"x"], b"x"),
        (&[b"--out=x", b"verify", b"a.toml"], b"x"),
        (&[b"verify", b"--out", b"x", b"--", b"a.toml"], b"x"),
    ];
    for (list, out) in rows {
        assert!(rt; matches!(asks(alloc, list, b"a.toml", out), Ok(true)));
    }
    let numbered = words_of(alloc, &[b"gen", b"500"])?;
    assert!(rt; matches!(asked(alloc, &numbered)?, Some(Asked::Gen(500))));
    Ok(())
}

// The contract file whose `retire` is this expression.
fn retires_at(alloc: Global, retire: &[u8]) -> Result<Vec<u8>, NoMemory> {
    let mut contract = Vec::new(alloc);
    contract.extend_from_slice(
        b"format = 1\nfiles = [\"t.v\"]\ntop = \"t\"\nclock = \"clk\"\nlookahead = 0\nretire = \"",
    )?;
    contract.extend_from_slice(retire)?;
    contract.extend_from_slice(
        b"\"\ncontract = [\"q\"]\nattacker = [\"q\"]\n[initial]\nequal = [\"q\"]\n[candidates]\nregisters = true\naligned = true\n",
    )?;
    Ok(contract)
}

// The design whose register's next value is this expression.
fn assigns(alloc: Global, value: &[u8]) -> Result<Vec<u8>, NoMemory> {
    let mut design = Vec::new(alloc);
    design.extend_from_slice(
        b"module t(input clk, input d, output reg q);\n  always @(posedge clk) q <= ",
    )?;
    design.extend_from_slice(value)?;
    design.extend_from_slice(b";\nendmodule\n")?;
    Ok(design)
}

// An expression in the contract file, and in the design.
fn answers(
    alloc: Global,
    expression: &[u8],
    code: u8,
    in_contract: &[u8],
    in_design: &[u8],
) -> Result<bool, NoMemory> {
    let verify = [b"verify".as_slice(), b"a.toml".as_slice()];
    let contract = retires_at(alloc, expression)?;
    let design = assigns(alloc, expression)?;
    let first = gives(alloc, &verify, &contract, Some(DESIGN), code, in_contract)?;
    let second = gives(alloc, &verify, CONTRACT, Some(&design), code, in_design)?;
    Ok(first && second)
}

#[test]
fn rows_of_expressions(rt: HostRuntime) -> Result<(), Fail> {
    let alloc = rt.alloc();
    let unbuilt = b"refused unbuilt\n".as_slice();
    let rows: [(&[u8], u8, &[u8], &[u8]); 14] = [
        (b"q", 0, ACCEPTED, ACCEPTED),
        (b"~(q | d) & q ^ d", 0, ACCEPTED, ACCEPTED),
        (b"((q)) ^ +d", 0, ACCEPTED, ACCEPTED),
        (
            b"q |",
            3,
            b"refused expr retire 0 3\n",
            b"refused syntax 24 76\n",
        ),
        (
            b"q d",
            3,
            b"refused expr retire 0 2\n",
            b"refused syntax 23 75\n",
        ),
        (b"clk", 3, unbuilt, unbuilt),
        (b"e", 3, unbuilt, unbuilt),
        (b"u.q", 3, unbuilt, b"refused syntax 23 74\n"),
        (b"q[0]", 3, unbuilt, unbuilt),
        (b"&q", 3, unbuilt, unbuilt),
        (b"q ~^ d", 3, unbuilt, unbuilt),
        (b"q ? d : q", 3, unbuilt, unbuilt),
        (b"q && d", 3, unbuilt, unbuilt),
        (b"1'b1", 3, unbuilt, unbuilt),
    ];
    for (expression, code, in_contract, in_design) in rows {
        assert!(rt;
            matches!(
                answers(alloc, expression, code, in_contract, in_design),
                Ok(true)
            )
        );
    }
    Ok(())
}

fn second_read_fails(alloc: Global) -> Result<bool, NoMemory> {
    let words = words_of(alloc, &[b"verify", b"a.toml"])?;
    let mut fails = Vec::new(alloc);
    fails.push(1)?;
    let mut shelf = shelf_with(alloc, CONTRACT, Some(DESIGN), fails)?;
    let mut sink = MemSink::new(alloc, 200, 200, Vec::new(alloc))?;
    let status = run(alloc, &words, &mut shelf, &mut sink);
    Ok(status.code == 6 && sink.bytes() == b"fault read t.v\n".as_slice())
}

fn second_write_fails(alloc: Global) -> Result<bool, NoMemory> {
    let words = words_of(alloc, &[b"verify", b"a.toml"])?;
    let mut shelf = shelf_with(alloc, CONTRACT, Some(DESIGN), Vec::new(alloc))?;
    let mut fails = Vec::new(alloc);
    fails.push(1)?;
    let mut sink = MemSink::new(alloc, 200, 8, fails)?;
    let status = run(alloc, &words, &mut shelf, &mut sink);
    Ok(status.code == 6 && sink.bytes() == b"accepted".as_slice())
}

#[test]
fn the_outside_fails(rt: HostRuntime) -> Result<(), Fail> {
    assert!(rt; matches!(second_read_fails(rt.alloc()), Ok(true)));
    assert!(rt; matches!(second_write_fails(rt.alloc()), Ok(true)));
    Ok(())
}
