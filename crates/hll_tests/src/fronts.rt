//! Fronts of texts: which tokens may stand behind them, and where they are refused.

use crate::memory::answer;
use std::alloc::{AllocError, Global};
use std::test::Fail;

/// One token of each kind, and of each spelling.
const TOKENS: &str =
    "Constants Types Inputs Declarations Definitions Constraints Proof Obligations bool int signed unsigned enum sort struct true TRUE false FALSE if then elif else ALL SOME SUM pre X I a 'if' 0 := : ; , ( ) [ ] { } . -> <-> #! # & ~ = == <> != < <= > >= + - * / % $min $max $abs";

/// With what a section begins.
const SECTIONS: &str = "Constants Types Inputs Declarations Definitions Constraints Proof";

/// What stands between two operands.
const OPERATORS: &str = "-> <-> #! # & = == <> != < <= > >= + - * / %";

/// The operators that are no comparisons.
const CONNECTIVES: &str = "-> <-> #! # & + - * / %";

/// With what an operand begins.
const OPERANDS: &str = "true TRUE false FALSE ALL SOME SUM pre a 'if' 0 ( { ~ - $min $max $abs";

/// A front of a text, of which a part stands in so many parentheses; which tokens may stand behind it, in two groups; and
/// which of them open a level too many.
struct Front {
    head: &'static str,
    levels: usize,
    inner: &'static str,
    may: [&'static str; 2],
    deep: &'static str,
}

const FRONTS: [Front; 35] = [
    // Between sections and items.
    Front {
        head: "",
        levels: 0,
        inner: "",
        may: [SECTIONS, ""],
        deep: "",
    },
    Front {
        head: "Constants:",
        levels: 0,
        inner: "",
        may: [SECTIONS, "bool int"],
        deep: "",
    },
    Front {
        head: "Types:",
        levels: 0,
        inner: "",
        may: [SECTIONS, "bool int enum sort struct a 'if'"],
        deep: "",
    },
    Front {
        head: "Inputs: bool a;",
        levels: 0,
        inner: "",
        may: [SECTIONS, "bool int a 'if'"],
        deep: "",
    },
    Front {
        head: "Definitions:",
        levels: 0,
        inner: "",
        may: [SECTIONS, "X I a 'if'"],
        deep: "",
    },
    Front {
        head: "Proof",
        levels: 0,
        inner: "",
        may: ["Obligations", ""],
        deep: "",
    },
    // In declarations and types.
    Front {
        head: "Inputs: bool a",
        levels: 0,
        inner: "",
        may: ["[ , ;", ""],
        deep: "",
    },
    Front {
        head: "Constants: int a",
        levels: 0,
        inner: "",
        may: [":=", ""],
        deep: "",
    },
    Front {
        head: "Types: int",
        levels: 0,
        inner: "",
        may: ["[ signed unsigned", ""],
        deep: "",
    },
    Front {
        head: "Types: int signed",
        levels: 0,
        inner: "",
        may: ["( 0", "a 'if'"],
        deep: "",
    },
    Front {
        head: "Types: sort",
        levels: 0,
        inner: "",
        may: ["{", "a 'if'"],
        deep: "",
    },
    Front {
        head: "Types: sort a",
        levels: 0,
        inner: "",
        may: [", <", ""],
        deep: "",
    },
    Front {
        head: "Types: struct {a",
        levels: 0,
        inner: "",
        may: [":", ""],
        deep: "",
    },
    Front {
        head: "Types: enum {a",
        levels: 0,
        inner: "",
        may: [", }", ""],
        deep: "",
    },
    // In definitions.
    Front {
        head: "Definitions: a",
        levels: 0,
        inner: "",
        may: ["[ :=", ""],
        deep: "",
    },
    Front {
        head: "Definitions: a[",
        levels: 0,
        inner: "",
        may: ["0", "a 'if'"],
        deep: "",
    },
    Front {
        head: "Definitions: a[i",
        levels: 0,
        inner: "",
        may: [", ]", ""],
        deep: "",
    },
    Front {
        head: "Definitions: X(a)",
        levels: 0,
        inner: "",
        may: [":=", ""],
        deep: "",
    },
    Front {
        head: "Definitions: a := b",
        levels: 0,
        inner: "",
        may: [OPERATORS, "[ . , ;"],
        deep: "",
    },
    Front {
        head: "Definitions: I(a) := b",
        levels: 0,
        inner: "",
        may: [OPERATORS, "[ . ;"],
        deep: "",
    },
    // In expressions.
    Front {
        head: "Constraints: a +",
        levels: 0,
        inner: "",
        may: [OPERANDS, ""],
        deep: "",
    },
    Front {
        head: "Constraints: a < b",
        levels: 0,
        inner: "",
        may: [CONNECTIVES, "[ . ;"],
        deep: "",
    },
    Front {
        head: "Constraints: if a",
        levels: 0,
        inner: "",
        may: [OPERATORS, "[ . then"],
        deep: "",
    },
    Front {
        head: "Constraints: if a then 1",
        levels: 0,
        inner: "",
        may: [OPERATORS, "elif else"],
        deep: "",
    },
    Front {
        head: "Constraints: if a then 1 else 2",
        levels: 0,
        inner: "",
        may: [OPERATORS, ";"],
        deep: "",
    },
    Front {
        head: "Constraints: ALL i",
        levels: 0,
        inner: "",
        may: [":", ""],
        deep: "",
    },
    Front {
        head: "Constraints: ALL i:",
        levels: 0,
        inner: "",
        may: ["bool [", "a 'if'"],
        deep: "",
    },
    Front {
        head: "Constraints: ALL i:t",
        levels: 0,
        inner: "",
        may: ["( ,", ""],
        deep: "",
    },
    Front {
        head: "Constraints: pre(1",
        levels: 0,
        inner: "",
        may: [OPERATORS, ", )"],
        deep: "",
    },
    Front {
        head: "Constraints: $min(1",
        levels: 0,
        inner: "",
        may: [OPERATORS, ","],
        deep: "",
    },
    // Where 200 levels are open.
    Front {
        head: "Constraints: ",
        levels: 200,
        inner: "",
        may: [OPERANDS, "if"],
        deep: "if ( { ~ -",
    },
    Front {
        head: "Constraints: ",
        levels: 200,
        inner: "a",
        may: [OPERATORS, "[ . )"],
        deep: "[",
    },
    Front {
        head: "Constraints: ",
        levels: 200,
        inner: "a +",
        may: [OPERANDS, ""],
        deep: "( { ~ -",
    },
    Front {
        head: "Constraints: ",
        levels: 200,
        inner: "pre",
        may: ["(", ""],
        deep: "(",
    },
    Front {
        head: "Constraints: ",
        levels: 200,
        inner: "SUM",
        may: ["", "a 'if'"],
        deep: "a 'if'",
    },
];

impl Front {
    fn text(&self, alloc: Global) -> Result<String, AllocError> {
        let mut text = String::from_str(alloc, self.head)?;
        for _ in 0..self.levels {
            text.push_str("(")?;
        }
        text.push_str(self.inner)?;
        Ok(text)
    }

    fn may_stand(&self, token: &str) -> bool {
        for group in &self.may {
            if has_word(group, token) {
                return true;
            }
        }
        false
    }
}

/// Whether a word is one of those with a space between each two.
fn has_word(words: &str, wanted: &str) -> bool {
    for word in words.split(' ') {
        if word == wanted {
            return true;
        }
    }
    false
}

/// The refusal of a text behind so many bytes of its first line.
fn refusal(alloc: Global, mistake: &str, bytes: usize) -> Result<String, AllocError> {
    let column = bytes.saturating_add(1);
    format!(in alloc; "refused {mistake} at 1:{column}\n")
}

#[test]
fn a_token_is_refused_just_where_it_may_not_stand(rt: HostRuntime) -> Result<(), Fail> {
    let alloc = rt.alloc();
    for front in &FRONTS {
        let front_text = front.text(alloc)?;
        for token in TOKENS.split(' ') {
            let text = format!(in alloc; "{} {token}", front_text.as_str())?;
            let (status, out) = answer(&rt, alloc, "format m", text.as_bytes())?;
            let place = front_text.len().saturating_add(1);
            let refused = if has_word(front.deep, token) {
                refusal(alloc, "Deep", place)?
            } else if front.may_stand(token) {
                refusal(alloc, "Unexpected", text.len())?
            } else {
                refusal(alloc, "Unexpected", place)?
            };
            if status == 0 {
                assert!(rt; front.may_stand(token), "{text:?} is a text");
            } else {
                assert_eq!(rt; out.bytes(), refused.as_bytes(), "in {text:?}");
            }
        }
    }
    Ok(())
}

/// Texts with every form, with a space between each two tokens.
const WHOLE: [&str; 2] = [
    "Types : enum { stop , go } Aspect ; sort { s1 , s2 } Main ; sort { y1 } Yard ; sort Main , Yard < Signal ; struct { lit : Aspect , age : int [ 0 , 3 ] [ 2 ] } Lamp ; int signed ( 1 + 2 ) Small [ 4 ] ; Inputs : bool occupied [ 3 ] , reset ; int unsigned N count ; Declarations : Aspect shown [ 3 , 2 ] ; Lamp lamp ; Definitions : shown [ i , 0 ] := stop , if occupied [ i ] then stop elif reset then go else shown [ i , 1 ] ; lamp := { stop , 0 } , { if reset then stop else go , lamp . age [ 0 ] + 1 } ; I ( count ) := 0 ; X ( count ) := count + 1 ;",
    "Constants : bool on := TRUE ; int N := - 0x10 + 0b11 ; Constraints : ALL i : [ 0 , N ] , j : bool ( a [ i ] [ j ] . f = b [ i , j ] ) ; ~ ( a -> b <-> c #! d ) # e & f ; Proof Obligations : SOME s : Signal ( s == x ) ; SUM k : T ( ( if k != 0 then 1 elif k > 1 then 2 else 3 ) ) >= $abs ( - 5 ) ; pre ( a ) <> pre ( a , true ) ; $min ( 1 , 2 , 3 ) <= $max ( 4 , 5 ) * 6 / 7 % 8 - 9 ; { a , { b , c } } = 'if' ; Inputs : Proof Obligations : false ;",
];

/// The words of sections that a colon follows.
const HEADINGS: &str = "Constants Types Inputs Declarations Definitions Constraints Obligations";

/// Whether a text may end behind this token: behind an item, or behind the colon of a section's heading.
fn may_end(token: &str, follows_heading: bool) -> bool {
    token == ";" || (token == ":" && follows_heading)
}

#[test]
fn a_text_is_refused_at_its_end_where_it_is_cut(rt: HostRuntime) -> Result<(), Fail> {
    let alloc = rt.alloc();
    for text in &WHOLE {
        let mut front = String::new(alloc);
        let mut follows_heading = false;
        for token in text.split(' ') {
            front.push_str(token)?;
            let (status, out) = answer(&rt, alloc, "format m", front.as_bytes())?;
            if may_end(token, follows_heading) {
                assert_eq!(rt; status, 0, "in {front:?}");
            } else {
                let refused = refusal(alloc, "Unexpected", front.len())?;
                assert_eq!(rt; out.bytes(), refused.as_bytes(), "in {front:?}");
            }
            front.push_str(" ")?;
            follows_heading = has_word(HEADINGS, token);
        }
    }
    Ok(())
}
