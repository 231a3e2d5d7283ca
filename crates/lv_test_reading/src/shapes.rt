//! What the trees are, and how high they may be.
use crate::rows::{read, reading};
use lv_ast::{Item, Module, Ports, Source, Stmt};
use std::alloc::Global;
use std::process::Abort;
use std::test::Fail;

fn source_of(rt: &impl Abort, alloc: Global, text: &str) -> Result<Source, Fail> {
    match read(rt, alloc, text)? {
        Ok(source) => Ok(source),
        Err(error) => panic!(rt; "{error:?}"),
    }
}

/// Whether an `else` went to the inner `if`.
fn hangs_inside(stmt: &Stmt) -> bool {
    match stmt {
        Stmt::If(_, inner, None) => matches!(inner.get(), Stmt::If(_, _, Some(_))),
        _ => false,
    }
}

fn has_inner_else(module: &Module) -> bool {
    match module.items.as_slice() {
        [Item::Always(_, stmt, place)] => hangs_inside(stmt) && *place == 10,
        _ => false,
    }
}

fn has_three_groups_of_ports(module: &Module) -> bool {
    match &module.ports {
        Ports::Declared(list) => match list.as_slice() {
            [a, b, c] => {
                (a.names.len(), b.names.len(), c.names.len(), c.output) == (2, 1, 2, true)
                    && c.range.is_some()
            }
            _ => false,
        },
        _ => false,
    }
}

fn has_two_groups_of_parameters(module: &Module) -> bool {
    match module.params.as_slice() {
        [a, b] => (a.list.len(), b.list.len(), a.signed, b.signed) == (2, 1, false, true),
        _ => false,
    }
}

#[test]
fn trees_have_their_shapes(rt: HostRuntime) -> Result<(), Fail> {
    let text = r#"module a; always @* if (a) if (b) c = 1; else c = 2; endmodule
module b(input a, b, input c, output reg [3:0] q, r); endmodule
module c #(parameter a = 1, b = 2, parameter signed c = 3); endmodule"#;
    let source = source_of(&rt, rt.alloc(), text)?;
    let found = match source.modules.as_slice() {
        [a, b, c] => {
            has_inner_else(a) && has_three_groups_of_ports(b) && has_two_groups_of_parameters(c)
        }
        _ => false,
    };
    assert!(rt; found);
    Ok(())
}

/// Writes a part so many times.
pub fn repeated(text: &mut String, part: &str, times: u32) -> Result<(), Fail> {
    for _ in 0..times {
        text.push_str(part)?;
    }
    Ok(())
}

/// A text by its parts between `|`, of which the second and the fourth are repeated.
fn nested(alloc: Global, times: u32, parts: &str) -> Result<String, Fail> {
    let mut text = String::new(alloc);
    for (at, part) in parts.split('|').enumerate() {
        repeated(&mut text, part, if at % 2 == 1 { times } else { 1 })?;
    }
    Ok(text)
}

/// The answer, how often a text is nested, and its five parts.
const HEIGHTS: &str = r#"accepted|199|module m; always @* |begin |;| end| endmodule
depth 206|200|module m; always @* |begin |;| end| endmodule
depth 206|201|module m; always @* |begin |;| end| endmodule
accepted|199|module m; always @* |if (a) |;|| endmodule
depth 802|200|module m; always @* |if (a) |;|| endmodule
accepted|199|module m; always @* |if (a) ; else |;|| endmodule
depth 1200|200|module m; always @* |if (a) ; else |;|| endmodule
accepted|199|module m; always @* |case (a) a : |;| endcase| endmodule
depth 1200|200|module m; always @* |case (a) a : |;| endcase| endmodule
accepted|199|module m; always @* |casez (a) default |;| endcase| endmodule
depth 1001|200|module m; always @* |casez (a) default |;| endcase| endmodule
accepted|199|module m; always @* |for (i = 0; i < 2; i = i + 1) |;|| endmodule
depth 3190|200|module m; always @* |for (i = 0; i < 2; i = i + 1) |;|| endmodule
accepted|199|module m; always @* |{|a|}| = b; endmodule
depth 205|200|module m; always @* |{|a|}| = b; endmodule
accepted|199|module m; assign |{|a|}| = b; endmodule
depth 203|200|module m; assign |{|a|}| = b; endmodule
accepted|199|module m; |for (i = 0; i < 2; i = i + 1) begin : g |wire a;| end| endmodule
depth 3803|200|module m; |for (i = 0; i < 2; i = i + 1) begin : g |wire a;| end| endmodule
accepted|199|module m; wire a = |(b + |b|)|; endmodule
depth 605|200|module m; wire a = |(b + |b|)|; endmodule
accepted|200|module m; always @* |begin || end| endmodule
syntax 206|200|module m; always @* |begin |+| end| endmodule
accepted|200|module m; |for (i = 0; i < 2; i = i + 1) begin : g || end| endmodule
syntax 3803|200|module m; |for (i = 0; i < 2; i = i + 1) begin : g |input a;| end| endmodule
accepted|50000|module m;|wire a;|||endmodule"#;

#[test]
fn heights_are_limited(rt: HostRuntime) -> Result<(), Fail> {
    let alloc = rt.alloc();
    for row in HEIGHTS.lines() {
        let (wanted, rest) = row.split_once('|').ok_or("no answer")?;
        let (times, parts) = rest.split_once('|').ok_or("no count")?;
        let text = nested(alloc, times.parse::<u32>()?, parts)?;
        let given = reading(&rt, alloc, text.as_str())?;
        assert!(rt; given.as_str() == wanted, "{row}");
    }
    Ok(())
}
