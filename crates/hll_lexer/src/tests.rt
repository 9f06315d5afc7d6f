use crate::{
    LexFault, LineColumn, Mark, Reserved, Token, TokenKind, Word, is_plain_name, name_bytes, place,
    tokens,
};
use std::test::Fail;

/// Texts that are one token.
const ALONE: [(&[u8], TokenKind); 80] = [
    // Each reserved word.
    (b"Constants", TokenKind::Reserved(Reserved::Constants)),
    (b"Types", TokenKind::Reserved(Reserved::Types)),
    (b"Inputs", TokenKind::Reserved(Reserved::Inputs)),
    (b"Declarations", TokenKind::Reserved(Reserved::Declarations)),
    (b"Definitions", TokenKind::Reserved(Reserved::Definitions)),
    (b"Constraints", TokenKind::Reserved(Reserved::Constraints)),
    (b"Proof", TokenKind::Reserved(Reserved::Proof)),
    (b"Obligations", TokenKind::Reserved(Reserved::Obligations)),
    (b"bool", TokenKind::Reserved(Reserved::Bool)),
    (b"int", TokenKind::Reserved(Reserved::Int)),
    (b"signed", TokenKind::Reserved(Reserved::Signed)),
    (b"unsigned", TokenKind::Reserved(Reserved::Unsigned)),
    (b"enum", TokenKind::Reserved(Reserved::Enum)),
    (b"sort", TokenKind::Reserved(Reserved::Sort)),
    (b"struct", TokenKind::Reserved(Reserved::Struct)),
    (b"true", TokenKind::Reserved(Reserved::True)),
    (b"TRUE", TokenKind::Reserved(Reserved::True)),
    (b"false", TokenKind::Reserved(Reserved::False)),
    (b"FALSE", TokenKind::Reserved(Reserved::False)),
    (b"if", TokenKind::Reserved(Reserved::If)),
    (b"then", TokenKind::Reserved(Reserved::Then)),
    (b"elif", TokenKind::Reserved(Reserved::Elif)),
    (b"else", TokenKind::Reserved(Reserved::Else)),
    (b"ALL", TokenKind::Reserved(Reserved::All)),
    (b"SOME", TokenKind::Reserved(Reserved::Some)),
    (b"SUM", TokenKind::Reserved(Reserved::Sum)),
    (b"pre", TokenKind::Reserved(Reserved::Pre)),
    (b"X", TokenKind::Reserved(Reserved::Next)),
    (b"I", TokenKind::Reserved(Reserved::First)),
    // Each mark.
    (b":=", TokenKind::Mark(Mark::Assign)),
    (b":", TokenKind::Mark(Mark::Colon)),
    (b";", TokenKind::Mark(Mark::Semicolon)),
    (b",", TokenKind::Mark(Mark::Comma)),
    (b"(", TokenKind::Mark(Mark::Open)),
    (b")", TokenKind::Mark(Mark::Close)),
    (b"[", TokenKind::Mark(Mark::OpenBracket)),
    (b"]", TokenKind::Mark(Mark::CloseBracket)),
    (b"{", TokenKind::Mark(Mark::OpenBrace)),
    (b"}", TokenKind::Mark(Mark::CloseBrace)),
    (b".", TokenKind::Mark(Mark::Dot)),
    (b"->", TokenKind::Mark(Mark::Implies)),
    (b"<->", TokenKind::Mark(Mark::Same)),
    (b"#!", TokenKind::Mark(Mark::Differ)),
    (b"#", TokenKind::Mark(Mark::Or)),
    (b"&", TokenKind::Mark(Mark::And)),
    (b"~", TokenKind::Mark(Mark::Not)),
    (b"=", TokenKind::Mark(Mark::Equal)),
    (b"==", TokenKind::Mark(Mark::Equal)),
    (b"<>", TokenKind::Mark(Mark::Unequal)),
    (b"!=", TokenKind::Mark(Mark::Unequal)),
    (b"<", TokenKind::Mark(Mark::Less)),
    (b"<=", TokenKind::Mark(Mark::LessEqual)),
    (b">", TokenKind::Mark(Mark::Greater)),
    (b">=", TokenKind::Mark(Mark::GreaterEqual)),
    (b"+", TokenKind::Mark(Mark::Plus)),
    (b"-", TokenKind::Mark(Mark::Minus)),
    (b"*", TokenKind::Mark(Mark::Times)),
    (b"/", TokenKind::Mark(Mark::Over)),
    (b"%", TokenKind::Mark(Mark::Rest)),
    (b"$min", TokenKind::Mark(Mark::Min)),
    (b"$max", TokenKind::Mark(Mark::Max)),
    (b"$abs", TokenKind::Mark(Mark::Abs)),
    // Names.
    (b"I1", TokenKind::Name),
    (b"Input", TokenKind::Name),
    (b"Types_", TokenKind::Name),
    (b"_", TokenKind::Name),
    (b"'if'", TokenKind::Name),
    (b"' ~'", TokenKind::Name),
    (b"'//'", TokenKind::Name),
    // Numbers.
    (b"0", TokenKind::Number(0)),
    (b"0012", TokenKind::Number(12)),
    (b"0xfF", TokenKind::Number(255)),
    (b"0X00Aa", TokenKind::Number(170)),
    (b"0b101", TokenKind::Number(5)),
    (b"0B0", TokenKind::Number(0)),
    (
        b"170141183460469231731687303715884105727",
        TokenKind::Number(i128::MAX),
    ),
    (
        b"000170141183460469231731687303715884105727",
        TokenKind::Number(i128::MAX),
    ),
    (
        b"0x7fffffffffffffffffffffffffffffff",
        TokenKind::Number(i128::MAX),
    ),
    (
        b"0x07FFFFFFFFFFFFFFFFFFFFFFFFFFFFFFF",
        TokenKind::Number(i128::MAX),
    ),
    (
        b"0b1111111111111111111111111111111111111111111111111111111111111111111111111111111111111111111111111111111111111111111111111111111",
        TokenKind::Number(i128::MAX),
    ),
];

/// Texts, and their tokens, each with its two ends.
const SPLIT: [(&[u8], &[(TokenKind, usize, usize)]); 12] = [
    (b"", &[]),
    (b" \t\r\n", &[]),
    (b"// without a line feed", &[]),
    (b"/**/ /* ** / // */", &[]),
    (
        b"a//b\nc",
        &[(TokenKind::Name, 0, 1), (TokenKind::Name, 5, 6)],
    ),
    (
        b"a/*\xFF/*'*/b\n/*\n*/",
        &[(TokenKind::Name, 0, 1), (TokenKind::Name, 9, 10)],
    ),
    (
        b"0x;",
        &[
            (TokenKind::Number(0), 0, 1),
            (TokenKind::Name, 1, 2),
            (TokenKind::Mark(Mark::Semicolon), 2, 3),
        ],
    ),
    (
        b"0b12 0xfg",
        &[
            (TokenKind::Number(1), 0, 3),
            (TokenKind::Number(2), 3, 4),
            (TokenKind::Number(15), 5, 8),
            (TokenKind::Name, 8, 9),
        ],
    ),
    (
        b"'a''b'if",
        &[
            (TokenKind::Name, 0, 3),
            (TokenKind::Name, 3, 6),
            (TokenKind::Reserved(Reserved::If), 6, 8),
        ],
    ),
    (
        b"x<->y:=-3<=>z",
        &[
            (TokenKind::Name, 0, 1),
            (TokenKind::Mark(Mark::Same), 1, 4),
            (TokenKind::Name, 4, 5),
            (TokenKind::Mark(Mark::Assign), 5, 7),
            (TokenKind::Mark(Mark::Minus), 7, 8),
            (TokenKind::Number(3), 8, 9),
            (TokenKind::Mark(Mark::LessEqual), 9, 11),
            (TokenKind::Mark(Mark::Greater), 11, 12),
            (TokenKind::Name, 12, 13),
        ],
    ),
    (
        b"a.b[0]/2",
        &[
            (TokenKind::Name, 0, 1),
            (TokenKind::Mark(Mark::Dot), 1, 2),
            (TokenKind::Name, 2, 3),
            (TokenKind::Mark(Mark::OpenBracket), 3, 4),
            (TokenKind::Number(0), 4, 5),
            (TokenKind::Mark(Mark::CloseBracket), 5, 6),
            (TokenKind::Mark(Mark::Over), 6, 7),
            (TokenKind::Number(2), 7, 8),
        ],
    ),
    (
        b"$minx",
        &[(TokenKind::Mark(Mark::Min), 0, 4), (TokenKind::Name, 4, 5)],
    ),
];

/// Texts with a fault, the first of those that they have.
const FAULTS: [(&[u8], LexFault); 25] = [
    (b"/* a", LexFault::Unclosed { at: 0 }),
    (b"Inputs: bool '';", LexFault::Stray { at: 13 }),
    (
        b"Constants: int N := 170141183460469231731687303715884105728;",
        LexFault::Number { at: 20 },
    ),
    (b"''", LexFault::Stray { at: 0 }),
    (b"a ''b'", LexFault::Stray { at: 2 }),
    (b"'", LexFault::Unclosed { at: 0 }),
    (b"a 'b", LexFault::Unclosed { at: 2 }),
    (b"'a\nb'", LexFault::Unclosed { at: 0 }),
    (b"'\xC3\xA9'", LexFault::Unclosed { at: 0 }),
    (b"'\x7F'", LexFault::Unclosed { at: 0 }),
    (b"/*", LexFault::Unclosed { at: 0 }),
    (b"/*/", LexFault::Unclosed { at: 0 }),
    (b"a /* * / //", LexFault::Unclosed { at: 2 }),
    (b"!", LexFault::Stray { at: 0 }),
    (b"a ?", LexFault::Stray { at: 2 }),
    (b"$mix", LexFault::Stray { at: 0 }),
    (b"a\x80", LexFault::Stray { at: 1 }),
    (b"\x00", LexFault::Stray { at: 0 }),
    (b"x ! 'y", LexFault::Stray { at: 2 }),
    (b"'y\n!", LexFault::Unclosed { at: 0 }),
    (
        b"1 170141183460469231731687303715884105728 !",
        LexFault::Number { at: 2 },
    ),
    (
        b"000170141183460469231731687303715884105728",
        LexFault::Number { at: 0 },
    ),
    (
        b"0x80000000000000000000000000000000",
        LexFault::Number { at: 0 },
    ),
    (
        b"0xFFFFFFFFFFFFFFFFFFFFFFFFFFFFFFFFF",
        LexFault::Number { at: 0 },
    ),
    (
        b"0b10000000000000000000000000000000000000000000000000000000000000000000000000000000000000000000000000000000000000000000000000000000",
        LexFault::Number { at: 0 },
    ),
];

/// Names as they stand in a text, what they name, and whether that needs no quotes.
const NAMES: [(&[u8], &[u8], bool); 6] = [
    (b"a_1", b"a_1", true),
    (b"'a_1'", b"a_1", true),
    (b"'if'", b"if", false),
    (b"'1'", b"1", false),
    (b"' a'", b" a", false),
    (b"_", b"_", true),
];

/// Places in the text `a`, line feed, line feed, `bc`, line feed: each byte's and the end's.
const PLACES: [(usize, LineColumn); 7] = [
    (0, LineColumn { line: 1, column: 1 }),
    (1, LineColumn { line: 1, column: 2 }),
    (2, LineColumn { line: 2, column: 1 }),
    (3, LineColumn { line: 3, column: 1 }),
    (4, LineColumn { line: 3, column: 2 }),
    (5, LineColumn { line: 3, column: 3 }),
    (6, LineColumn { line: 4, column: 1 }),
];

#[test]
fn splits_texts(rt: HostRuntime) -> Result<(), Fail> {
    for (text, kind) in &ALONE {
        let found = tokens(rt.alloc(), text)?;
        let alone = [Token {
            kind: *kind,
            from: 0,
            to: text.len(),
        }];
        assert_eq!(rt; found.as_slice(), alone.as_slice(), "of {text:?}");
    }
    for (text, want) in &SPLIT {
        let found = tokens(rt.alloc(), text)?;
        assert_eq!(rt; found.len(), want.len(), "of {text:?}");
        for (token, (kind, from, to)) in found.iter().zip(*want) {
            assert_eq!(rt; token.kind, *kind, "of {text:?}");
            assert_eq!(rt; (token.from, token.to), (*from, *to), "of {text:?}");
        }
    }
    Ok(())
}

#[test]
fn names_the_first_fault(rt: HostRuntime) {
    for (text, fault) in &FAULTS {
        assert_eq!(rt; tokens(rt.alloc(), text).err(), Some(*fault), "of {text:?}");
    }
}

#[test]
fn names_have_bytes(rt: HostRuntime) -> Result<(), Fail> {
    for (text, name, is_plain) in &NAMES {
        let token = Token {
            kind: TokenKind::Name,
            from: 0,
            to: text.len(),
        };
        assert_eq!(rt; name_bytes(text, &token), *name, "of {text:?}");
        assert_eq!(rt; is_plain_name(name), *is_plain, "of {text:?}");
    }
    let word = Word::new(rt.alloc(), b"signal_1")?;
    assert_eq!(rt; word.bytes(), b"signal_1".as_slice());
    Ok(())
}

#[test]
fn places_bytes(rt: HostRuntime) {
    let text = b"a\n\nbc\n";
    for (at, want) in &PLACES {
        assert!(rt; *at <= text.len());
        assert_eq!(rt; place(text, *at), *want);
    }
}

/// Compiles and is proved where values of the type may go from thread to thread and be shared by threads.
fn crosses_threads<T: Send + Sync>() {}

#[test]
fn words_cross_threads() {
    crosses_threads::<Word>();
    crosses_threads::<Token>();
}
