//! Whole designs: registers, one clock, counters, a memory, latches, a pipeline, a core of two stages.
use crate::printing::printed;
use std::test::Fail;

/// The designs stand between `%`.
const DESIGNS: &str = r#"module t(input clk, input d, output reg q);
  always @(posedge clk) q <= q ^ d;
endmodule
%
module t(input clk, output leak);
  reg s;
  reg [1:0] c;
  assign leak = s & (c == 2'd0);
  always @(posedge clk) c <= (c == 2'd2) ? 2'd0 : c + 2'd1;
endmodule
%
module t(input clk, output reg a, output reg b);
  always @(posedge clk) begin a <= b; b <= a; end
endmodule
%
module t(input clk, output done);
  reg s;
  reg [1:0] c;
  assign done = s ? c == 2'd1 : c == 2'd2;
  always @(posedge clk) c <= done ? 2'd0 : c + 2'd1;
endmodule
%
module t(input clk, output reg r3);
  reg f, r1, r2;
  always @(posedge clk) begin r1 <= f; r2 <= r1; r3 <= r2; end
endmodule
%
module t(input clk, input iv, input [7:0] ix);
  reg [7:0] key;
  reg v;
  reg [7:0] x;
  always @(posedge clk) begin v <= iv; x <= iv ? ix : key; end
endmodule
%
module t(input clk);
  wire a;
  wire b;
  assign a = ~b;
  assign b = ~a;
endmodule
%
module t(input clk, input [1:0] a, output reg y);
  always @* case (a)
    2'd0: y = 1'b0;
    2'd1: y = 1'b1;
    2'd2: y = 1'b1;
  endcase
endmodule
%
module t(input clk);
  wire [128:0] w;
endmodule
%
module t(input clk, input [2:0] a, input [7:0] d, output [7:0] y);
  reg [7:0] m [0:3];
  assign y = m[a];
  always @(posedge clk) m[a] <= d;
endmodule
%
module t(input clk, output y);
  assign y = z;
endmodule
%
module t(input clk, input [3:0] a, output reg [1:0] y);
  always @* casez (a)
    4'b1???: y = 2'd3;
    4'b01??: y = 2'd2;
    4'b?: y = 2'd1;
  endcase
endmodule
%
module core(input clk, input [31:0] rdata, output [31:0] iaddr,
            output daddr_v, output [31:0] daddr);
  reg [31:0] x [0:31];
  reg [31:0] imem [0:15];
  reg [31:0] pc;
  reg f_v;
  reg [31:0] f_pc, f_ir;
  reg w_v;
  reg [31:0] w_pc;
  reg w_we;
  reg [4:0] w_rd;
  reg [31:0] w_val;
  reg w_br, w_tk, w_ld;
  reg [31:0] w_ad;
  reg [31:0] r;
  wire [6:0] op = f_ir[6:0];
  wire is_br = f_v & (op == 7'b1100011);
  wire is_ld = f_v & (op == 7'b0000011);
  wire is_im = f_v & (op == 7'b0010011);
  wire is_op = f_v & (op == 7'b0110011);
  wire [4:0] r1 = f_ir[19:15];
  wire [4:0] r2 = f_ir[24:20];
  wire [31:0] a = (r1 == 5'd0) ? 32'd0 : (w_we & (w_rd == r1)) ? w_val : x[r1];
  wire [31:0] b = (r2 == 5'd0) ? 32'd0 : (w_we & (w_rd == r2)) ? w_val : x[r2];
  wire signed [11:0] imm_i = f_ir[31:20];
  wire signed [12:0] imm_b = {f_ir[31], f_ir[7], f_ir[30:25], f_ir[11:8], 1'b0};
  wire [31:0] imm = imm_i;
  wire [31:0] off = imm_b;
  wire [31:0] c = is_im ? imm : b;
  wire taken = is_br & ((a == b) ^ f_ir[12]);
  assign iaddr = pc;
  assign daddr_v = is_ld;
  assign daddr = a + imm;
  always @* case (f_ir[14:12])
    3'd0: r = (is_op & f_ir[30]) ? a - c : a + c;
    3'd4: r = a ^ c;
    3'd6: r = a | c;
    3'd7: r = a & c;
    default: r = 32'd0;
  endcase
  always @(posedge clk) begin
    pc <= taken ? f_pc + off : pc + 32'd4;
    f_v <= ~taken;
    f_pc <= pc;
    f_ir <= imem[pc[5:2]];
    w_v <= f_v;
    w_pc <= f_pc;
    w_we <= is_ld | is_im | is_op;
    w_rd <= f_ir[11:7];
    w_val <= is_ld ? rdata : r;
    w_br <= is_br;
    w_tk <= taken;
    w_ld <= is_ld;
    w_ad <= daddr;
    if (w_we) x[w_rd] <= w_val;
  end
endmodule
%
module stage(input clk, input iv, input [7:0] ix, output reg ov, output reg [7:0] ox);
  always @(posedge clk) begin ov <= iv; ox <= ix + 8'd1; end
endmodule
module core(input clk, input go, input [7:0] d, output done, output [7:0] y);
  reg [7:0] key;
  wire v0 = go;
  wire [7:0] x0 = d ^ key;
  wire v1;
  wire [7:0] x1;
  stage u1(.clk(clk), .iv(v0), .ix(x0), .ov(v1), .ox(x1));
  wire v2;
  wire [7:0] x2;
  stage u2(.clk(clk), .iv(v1), .ix(x1), .ov(v2), .ox(x2));
  assign done = v2;
  assign y = x2;
endmodule
"#;

#[test]
fn designs_are_read_and_printed(rt: HostRuntime) -> Result<(), Fail> {
    let alloc = rt.alloc();
    for text in DESIGNS.split('%') {
        let once = printed(&rt, alloc, text)?;
        let Ok(again) = str::from_utf8(once.bytes()) else {
            return Err(Fail::from("no text"));
        };
        let twice = printed(&rt, alloc, again)?;
        assert!(rt; once == twice, "{text}");
    }
    Ok(())
}
