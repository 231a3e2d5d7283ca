ghost use Rattle.std.specs.Prelude.{◌≡◌};
ghost use Rattle.lv_ast.specs.Names as names;
ghost use Rattle.lv_ast.specs.Words.{is_listed};

/// The reserved words of the profile (IEEE 1364-2005, annex B).
const KEYWORDS: &[u8] =
    b"always and assign automatic begin buf bufif0 bufif1 case casex casez cell cmos config deassign default defparam design disable edge else end endcase endconfig endfunction endgenerate endmodule endprimitive endspecify endtable endtask event for force forever fork function generate genvar highz0 highz1 if ifnone incdir include initial inout input instance integer join large liblist library localparam macromodule medium module nand negedge nmos nor noshowcancelled not notif0 notif1 or output parameter pmos posedge primitive pull0 pull1 pulldown pullup pulsestyle_ondetect pulsestyle_onevent rcmos real realtime reg release repeat rnmos rpmos rtran rtranif0 rtranif1 scalared showcancelled signed small specify specparam strong0 strong1 supply0 supply1 table task time tran tranif0 tranif1 tri tri0 tri1 triand trior trireg unsigned use uwire vectored wait wand weak0 weak1 while wire wor xnor xor";

/// Whether a text of words between spaces has this one.
pub fn is_listed(words: &[u8], name: &[u8]) -> bool
    ensures { result ≡ is_listed words.now name.now }
{
    words.split(|byte| *byte == b' ').any(|word| name == word)
}

/// Whether a name is a reserved word (IEEE 1364-2005, annex B).
pub fn is_keyword(name: &[u8]) -> bool
    ensures { result ≡ names.is_keyword name.now }
{
    is_listed(KEYWORDS, name)
}
