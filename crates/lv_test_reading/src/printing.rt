//! The canonical text of sources that are read from texts.
use crate::rows::read;
use lv_bits::Text;
use lv_print::print_source;
use std::alloc::Global;
use std::process::Abort;
use std::test::Fail;

/// The canonical text of a source's text.
pub fn printed(rt: &impl Abort, alloc: Global, text: &str) -> Result<Text, Fail> {
    let source = match read(rt, alloc, text)? {
        Ok(source) => source,
        Err(error) => panic!(rt; "{error:?}"),
    };
    match print_source(alloc, &source) {
        Ok(text) => Ok(text),
        Err(_) => panic!(rt; "no memory"),
    }
}

/// A text and, behind `=>`, its canonical text, whose lines end at `%`.
const ROWS: &str =
    r#"module t(input clk,output y);assign y=~(1'b1&1'b0);endmodule=>module t ( input clk , output y ) ;%assign y = ( ~ ( 1'h1 & 1'h0 ) ) ;%endmodule%
module a;endmodule module \b+ ();endmodule=>module a ;%endmodule%module \b+ ( ) ;%endmodule%
module t#(parameter signed[3:0]A=4'sb1111,B=10,parameter C=+3)(a,b);input a,b;endmodule=>module t # ( parameter signed [ 3 : 0 ] A = 4'shf , B = 10 , parameter C = 3 ) ( a , b ) ;%input a , b ;%endmodule%
module t(input wire[1:0]a,b,output reg signed q,output wire w);endmodule=>module t ( input wire [ 1 : 0 ] a , b , output reg signed q , output wire w ) ;%endmodule%
module t;wire signed[1:0]a=b^~c,d;reg[7:0]m[0:3],n;integer i,j;genvar g;localparam P=1<<<2;endmodule=>module t ;%wire signed [ 1 : 0 ] a = ( b ~^ c ) , d ;%reg [ 7 : 0 ] m [ 0 : 3 ] , n ;%integer i , j ;%genvar g ;%localparam P = ( 1 << 2 ) ;%endmodule%
module t;assign{a[3],b[1:0]}=x?y+1:~|z,c[i+:2]={2{d,e}};endmodule=>module t ;%assign { a [ 3 ] , b [ 1 : 0 ] } = ( x ? ( y + 1 ) : ( ! ( | z ) ) ) , c [ i +: 2 ] = { 2 { d , e } } ;%endmodule%
module t;always@*if(a)if(b)y=1;else y=0;always@(*)begin:l;x<=$signed(a);end always@(posedge clk)for(i=0;i<4;i=i+1)m[i]<=i;endmodule=>module t ;%always @ * if ( a ) if ( b ) y = 1 ;%else y = 0 ;%always @ ( * ) begin : l ;%x <= $signed ( a ) ;%end always @ ( posedge clk ) for ( i = 0 ;%( i < 4 ) ;%i = ( i + 1 ) ) m [ i ] <= i ;%endmodule%
module t;always@*casez(a)4'b1???,4'bz_01z:y=1;default y=0;endcase always@*case(a)2'd1:;default:;endcase endmodule=>module t ;%always @ * casez ( a ) 4'b1??? , 4'b?01? : y = 1 ;%default : y = 0 ;%endcase always @ * case ( a ) 2'h1 : ;%default : ;%endcase endmodule%
module t;m#(3,W)u(a,b),v();m#(.W(2))w(.a(x),.b());endmodule=>module t ;%m # ( 3 , W ) u ( a , b ) , v ( ) ;%m # ( . W ( 2 ) ) w ( . a ( x ) , . b ( ) ) ;%endmodule%
module t;generate for(g=0;g<2;g=g+1)begin:l wire a;for(h=0;h<2;h=h+1)begin:k end end endgenerate endmodule=>module t ;%generate for ( g = 0 ;%( g < 2 ) ;%g = ( g + 1 ) ) begin : l wire a ;%for ( h = 0 ;%( h < 2 ) ;%h = ( h + 1 ) ) begin : k end end endgenerate endmodule%
module \module ;wire \end ,\a ;assign \end =\a ;endmodule=>module \module ;%wire \end , a ;%assign \end = a ;%endmodule%
module t;assign y='h0F_f+12'o17-8 'sb01+'d5;endmodule=>module t ;%assign y = ( ( ( 'hff + 12'hf ) - 8'sh1 ) + 'h5 ) ;%endmodule%"#;

#[test]
fn prints_sources(rt: HostRuntime) -> Result<(), Fail> {
    let alloc = rt.alloc();
    for row in ROWS.lines() {
        let (text, wanted) = row.split_once("=>").ok_or("no text")?;
        let wanted = wanted.replace(alloc, "%", "\n")?;
        let first = printed(&rt, alloc, text)?;
        assert!(rt; first.bytes() == wanted.as_bytes(), "{row}");
        let second = printed(&rt, alloc, wanted.as_str())?;
        assert!(rt; second.bytes() == wanted.as_bytes(), "{row}");
    }
    Ok(())
}
