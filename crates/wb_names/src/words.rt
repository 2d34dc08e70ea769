//! The words that are no identifiers.

ghost use Rattle.std.specs.Prelude.{◌≡◌, ◌==◌, ◌||◌};
ghost use Rattle.std.specs.Str.{bytes_eq};
ghost use Rattle.std.specs.List.{list_any};
ghost use Rattle.wb_values.specs.ReservedWords.{is_reserved};
ghost use Rattle.wb_names.specs.Fronts.{second_letters, begins_as_reserved};

/// The words of the Verilog subset that the workbench reads.
const GRAMMAR_WORDS: [&str; 22] = [
    "always",
    "assign",
    "begin",
    "case",
    "casez",
    "default",
    "else",
    "end",
    "endcase",
    "endmodule",
    "if",
    "input",
    "localparam",
    "module",
    "negedge",
    "or",
    "output",
    "parameter",
    "posedge",
    "reg",
    "signed",
    "wire",
];

/// The other reserved words (1364-2005, annex B).
const OTHER_WORDS: [&str; 102] = [
    "and",
    "automatic",
    "buf",
    "bufif0",
    "bufif1",
    "casex",
    "deassign",
    "defparam",
    "disable",
    "edge",
    "endfunction",
    "endgenerate",
    "endprimitive",
    "endspecify",
    "endtask",
    "event",
    "for",
    "force",
    "forever",
    "fork",
    "function",
    "generate",
    "genvar",
    "initial",
    "inout",
    "integer",
    "join",
    "nand",
    "nor",
    "not",
    "notif0",
    "notif1",
    "primitive",
    "real",
    "realtime",
    "release",
    "repeat",
    "specify",
    "supply0",
    "supply1",
    "task",
    "time",
    "tri",
    "tri0",
    "tri1",
    "triand",
    "trior",
    "wait",
    "wand",
    "while",
    "wor",
    "xnor",
    "xor",
    "cell",
    "cmos",
    "config",
    "design",
    "endconfig",
    "endtable",
    "highz0",
    "highz1",
    "ifnone",
    "incdir",
    "include",
    "instance",
    "large",
    "liblist",
    "library",
    "macromodule",
    "medium",
    "nmos",
    "noshowcancelled",
    "pmos",
    "pull0",
    "pull1",
    "pulldown",
    "pullup",
    "pulsestyle_ondetect",
    "pulsestyle_onevent",
    "rcmos",
    "rnmos",
    "rpmos",
    "rtran",
    "rtranif0",
    "rtranif1",
    "scalared",
    "showcancelled",
    "small",
    "specparam",
    "strong0",
    "strong1",
    "table",
    "tran",
    "tranif0",
    "tranif1",
    "trireg",
    "unsigned",
    "use",
    "uwire",
    "vectored",
    "weak0",
    "weak1",
];

fn is_among(word: &[u8], words: &[&str]) -> bool
    ensures { result ≡ list_any (λ w. bytes_eq word.now w.now) words.now }
{
    words.iter().any(|w| word == w.as_bytes())
}

/// The letters that stand second in the reserved words that begin with a letter.
fn second_letters(first: u8) -> &'static [u8]
    ensures { result.now ≡ second_letters first }
{
    match first {
        b'a' => b"lnsu".as_slice(),
        b'b' => b"eu".as_slice(),
        b'c' => b"aemo".as_slice(),
        b'd' => b"ei".as_slice(),
        b'e' => b"dlnv".as_slice(),
        b'f' => b"ou".as_slice(),
        b'g' => b"e".as_slice(),
        b'h' => b"i".as_slice(),
        b'i' => b"fn".as_slice(),
        b'j' => b"o".as_slice(),
        b'l' => b"aio".as_slice(),
        b'm' => b"aeo".as_slice(),
        b'n' => b"aemo".as_slice(),
        b'o' => b"ru".as_slice(),
        b'p' => b"amoru".as_slice(),
        b'r' => b"cenpt".as_slice(),
        b's' => b"chimptu".as_slice(),
        b't' => b"air".as_slice(),
        b'u' => b"nsw".as_slice(),
        b'v' => b"e".as_slice(),
        b'w' => b"aehio".as_slice(),
        b'x' => b"no".as_slice(),
        _ => b"".as_slice(),
    }
}

fn has_letter(letters: &[u8], letter: u8) -> bool
    ensures { result ≡ list_any (λ l. letter == l) letters.now }
{
    letters.iter().any(|l| letter == *l)
}

/// Whether the text begins with two letters that a reserved word begins with. Most names do not, so their tables are not searched.
#[tactic(auto, unfolding(crate::specs::Fronts::begins_as_reserved))]
fn begins_as_reserved(text: &[u8]) -> bool
    ensures { result ≡ begins_as_reserved text.now }
{
    match text {
        [first, second, ..] => has_letter(second_letters(*first), *second),
        _ => false,
    }
}

/// Whether the word is no identifier.
pub fn is_reserved_word(word: &[u8]) -> bool
    ensures { result ≡ is_reserved word.now }
{
    begins_as_reserved(word) && (is_among(word, &GRAMMAR_WORDS) || is_among(word, &OTHER_WORDS))
}
