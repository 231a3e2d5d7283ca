//! Each production once accepted, and once refused at the token that shows it. In a row the answer stands before `@`.
use lv_ast::{Source, Tokens};
use lv_exprs::SyntaxError;
use lv_lexer::{directives, lex};
use lv_parser::read_source;
use std::alloc::Global;
use std::process::Abort;
use std::test::Fail;

/// The tokens of a text as its directives leave them.
fn folded(rt: &impl Abort, alloc: Global, text: &str) -> Result<Tokens, Fail> {
    let tokens = match lex(alloc, text.as_bytes()) {
        Ok(tokens) => tokens,
        Err(error) => panic!(rt; "{error:?}"),
    };
    match directives(alloc, tokens) {
        Ok(tokens) => Ok(tokens),
        Err(error) => panic!(rt; "{error:?}"),
    }
}

pub fn read(
    rt: &impl Abort,
    alloc: Global,
    text: &str,
) -> Result<Result<Source, SyntaxError>, Fail> {
    let tokens = folded(rt, alloc, text)?;
    Ok(read_source(alloc, &tokens))
}

pub fn refused(alloc: Global, error: SyntaxError) -> Result<String, Fail> {
    match error {
        SyntaxError::Syntax(at) => Ok(format!(in alloc; "syntax {at}")?),
        SyntaxError::Depth(at) => Ok(format!(in alloc; "depth {at}")?),
        SyntaxError::NoMemory => Ok(format!(in alloc; "no memory")?),
    }
}

/// What reading a text gives, without the tree.
pub fn reading(rt: &impl Abort, alloc: Global, text: &str) -> Result<String, Fail> {
    match read(rt, alloc, text)? {
        Ok(_) => Ok(format!(in alloc; "accepted")?),
        Err(error) => refused(alloc, error),
    }
}

/// Each row stands between two texts.
fn check(
    rt: &impl Abort,
    alloc: Global,
    before: &str,
    rows: &str,
    after: &str,
) -> Result<(), Fail> {
    for row in rows.lines() {
        let (wanted, text) = row.split_once('@').ok_or("no answer")?;
        let whole = format!(in alloc; "{before} {text} {after}")?;
        let given = reading(rt, alloc, whole.as_str())?;
        assert!(rt; given.as_str() == wanted, "{row}");
    }
    Ok(())
}

const ITEMS: &str = r#"accepted@input a;
accepted@input wire a, b;
accepted@output a;
accepted@output wire a;
accepted@output reg signed [3:0] q, r;
accepted@wire a;
accepted@wire signed [1:0] a = b, c;
accepted@reg a, b [0:3];
accepted@reg signed [7:0] m [0:3], n;
accepted@integer i, j;
accepted@genvar g;
accepted@parameter p = 1, q = 2;
accepted@parameter signed [3:0] p = 1;
accepted@localparam p = 1;
accepted@assign a = b, {c, d[1]} = e;
accepted@always @* ;
accepted@always @(*) ;
accepted@always @(posedge clk) ;
accepted@m u(a, b), v();
accepted@m #(1, 2) u(.a(b), .c());
accepted@m #(.p(1)) u(a);
accepted@generate wire a; endgenerate
accepted@generate endgenerate
accepted@for (i = 0; i < 2; i = i + 1) begin : g wire a; end
accepted@generate for (i = 0; i < 2; i = i + 1) begin : g end localparam p = 1; endgenerate
accepted@\begin  u();
syntax 4@input reg a;
syntax 5@output wire reg a;
syntax 3@inout a;
syntax 5@input a b;
syntax 6@input [1] a;
syntax 8@wire [1:0 a;
syntax 6@wire a = ;
syntax 6@wire a, ;
syntax 5@reg a = 1;
syntax 10@reg a [1:0] [1:0];
syntax 4@integer [1:0] i;
syntax 5@parameter p;
syntax 8@localparam p = 1, ;
syntax 5@assign a;
syntax 4@assign 1 = a;
syntax 7@assign a = b c;
syntax 4@always ;
syntax 5@always @ posedge clk ;
syntax 6@always @(negedge clk) ;
syntax 7@always @(* clk) ;
syntax 7@always @(posedge 1) ;
syntax 5@m u;
syntax 6@m #() u();
syntax 7@m #(1 u();
syntax 8@m u(a, );
syntax 8@m u(.a b);
syntax 12@m u(.a(b), c);
syntax 8@m u(a, .b(c));
syntax 4@generate generate endgenerate endgenerate
syntax 4@generate input a; endgenerate
syntax 4@generate parameter p = 1; endgenerate
syntax 7@generate wire a; end
syntax 19@for (i = 0; i < 2; i = i + 1) ;
syntax 20@for (i = 0; i < 2; i = i + 1) begin wire a; end
syntax 22@for (i = 0; i < 2; i = i + 1) begin : g generate endgenerate end
syntax 22@for (i = 0; i < 2; i = i + 1) begin : g output a; end
syntax 3@initial ;
syntax 3@end"#;

const STATEMENTS: &str = r#"accepted@;
accepted@begin end
accepted@begin : b ; ; end
accepted@if (a) b = 1;
accepted@if (a) b = 1; else c <= 2;
accepted@case (a) 1: ; endcase
accepted@case (a) 1, 2: b = c; default ; endcase
accepted@case (a) default: ; endcase
accepted@casez (a) 4'b1???: ; 'b?, 3: ; endcase
accepted@for (i = 0; i < 3; i = i + 1) a[i] = b;
accepted@a = b;
accepted@a[1] <= b;
accepted@a[3:0][1] = b;
accepted@a[i +: 2] = b;
accepted@a[i -: 2] = b;
accepted@{a, {b, c[0]}} = d;
accepted@\if  = 1;
accepted@a <= b <= c;
syntax 7@begin
syntax 7@if a
syntax 10@if (a) else ;
syntax 6@else ;
syntax 13@if (a) ; else ; else ;
syntax 10@case (a) endcase
syntax 11@case (a) 4'b1???: ; endcase
syntax 10@case (a) 'b?: ; endcase
syntax 12@casez (a) (4'b1???): ; endcase
syntax 12@casez (a) +4'b1???: ; endcase
syntax 9@casez (4'b1???) 1: ; endcase
syntax 11@case (a) 1 ; endcase
syntax 11@case (a) default default: ; endcase
syntax 6@casex (a) 1: ; endcase
syntax 7@a + b = c;
syntax 9@a = 4'b1???;
syntax 8@a = 'bz;
syntax 9@a = b endmodule
syntax 11@a[1:2:3] = b;
syntax 8@a[] = b;
syntax 8@{a b} = c;
syntax 7@{} = c;
syntax 7@a.b = c;
syntax 15@for (i = 0; i < 3) ;
syntax 9@for (i <= 0; i < 3; i = 1) ;
syntax 6@1 = a;
syntax 6@while (a) ;"#;

const MODULES: &str = r#"accepted@module m; endmodule
accepted@module m(); endmodule
accepted@module m(a, b); endmodule
accepted@module m(input a, b, input c); endmodule
accepted@module m(input a, b, output reg [3:0] q); endmodule
accepted@module m(output reg [3:0] q, input signed r); endmodule
accepted@module m #(parameter p = 1, q = 2, parameter signed [1:0] r = 3) (input a); endmodule
accepted@module a; endmodule module b; endmodule
syntax 0@
syntax 1@module
syntax 2@module m
syntax 2@module m endmodule
syntax 3@module m;
syntax 4@module m; endmodule ;
syntax 5@module m; wire a endmodule
syntax 5@module m(a, input b); endmodule
syntax 7@module m(input a, b output c); endmodule
syntax 6@module m(input a, reg b); endmodule
syntax 4@module m #(); endmodule
syntax 4@module m #(p = 1); endmodule
syntax 9@module m #(parameter p = 1, localparam q = 2); endmodule
syntax 5@module m(a,); endmodule
syntax 4@module m() endmodule
syntax 1@module begin; endmodule
syntax 0@wire a;"#;

#[test]
fn reads_productions(rt: HostRuntime) -> Result<(), Fail> {
    let alloc = rt.alloc();
    check(&rt, alloc, "module m;", ITEMS, "endmodule")?;
    check(&rt, alloc, "module m; always @*", STATEMENTS, "endmodule")?;
    check(&rt, alloc, "", MODULES, "")
}
