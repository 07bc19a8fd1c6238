// The tokens, faults and places that a reader of the grammar expects.
use crate::{Spot, TextCause, TextFault, Token, TokenKind, spot, tokens};
use mn_outside::Refused;
use std::process::Abort;
use std::test::Fail;

// What a text has: the kinds and the ends of its tokens, or its fault.
fn check_fault(
    rt: &impl Abort,
    got: Result<Vec<Token>, Refused<TextFault>>,
    offset: u32,
    cause: TextCause,
) {
    match got {
        Err(Refused::Fault(fault)) => assert_eq!(rt; fault, TextFault { offset, cause }),
        Err(Refused::NoMemory) => assert!(rt; false, "no memory"),
        Ok(found) => assert!(rt; false, "tokens at {offset}: {found:?}"),
    }
}

fn token(kind: TokenKind, from: u32, to: u32) -> Token {
    Token { kind, from, to }
}

#[test]
fn tells_each_kind_from_its_neighbours(rt: HostRuntime) -> Result<(), Fail> {
    use TokenKind::{Mark, Number, Text, Variable, Word};
    let text = b":::[]!0!!12 -0x1Fg 0x 12ab // {}\n\"a\\\"b\"x.y_1;,&<>(){}//";
    let found = tokens(rt.alloc(), text)?;
    let want = [
        token(Mark, 0, 2),
        token(Mark, 2, 3),
        token(Mark, 3, 5),
        token(Variable, 5, 7),
        token(Variable, 7, 11),
        token(Number, 12, 17),
        token(Word, 17, 18),
        token(Number, 19, 20),
        token(Word, 20, 21),
        token(Number, 22, 24),
        token(Word, 24, 26),
        token(Text, 33, 39),
        token(Word, 39, 44),
        token(Mark, 44, 45),
        token(Mark, 45, 46),
        token(Mark, 46, 47),
        token(Mark, 47, 48),
        token(Mark, 48, 49),
        token(Mark, 49, 50),
        token(Mark, 50, 51),
        token(Mark, 51, 52),
        token(Mark, 52, 53),
    ];
    assert_eq!(rt; found.as_slice(), want.as_slice());
    assert_eq!(rt; tokens(rt.alloc(), b"")?.len(), 0);
    assert_eq!(rt; tokens(rt.alloc(), b" \t\r\n// \x01 end")?.len(), 0);
    Ok(())
}

#[test]
fn names_the_first_fault(rt: HostRuntime) {
    use TextCause::{BadByte, BadLiteral};
    let table: [(&[u8], u32, TextCause); 20] = [
        (b"a ! 1", 2, BadByte),
        (b"a !!x", 2, BadByte),
        (b"- 1", 0, BadByte),
        (b"{[}", 1, BadByte),
        (b"]", 0, BadByte),
        (b"a / b", 2, BadByte),
        (b"a # b", 2, BadByte),
        (b"ab\x80", 2, BadByte),
        (b"// ab\xc3\xa9\n", 5, BadByte),
        (b"x \x00", 2, BadByte),
        (b"x \"open", 2, BadLiteral),
        (b"x \"a\nb\"", 2, BadLiteral),
        (b"x \"a\\q\"", 2, BadLiteral),
        (b"x \"\xc3\xa9\"", 2, BadLiteral),
        (b"x \"\\", 2, BadLiteral),
        (b"1 18446744073709551616", 2, BadLiteral),
        (b"-18446744073709551616", 0, BadLiteral),
        (b"0x10000000000000000", 0, BadLiteral),
        (b"-0x10000000000000000", 0, BadLiteral),
        (b"\"\\\" # \" \"open", 8, BadLiteral),
    ];
    for (text, offset, cause) in table {
        check_fault(&rt, tokens(rt.alloc(), text), offset, cause);
    }
}

#[test]
fn reads_the_largest_numbers(rt: HostRuntime) -> Result<(), Fail> {
    let text =
        b"18446744073709551615 -18446744073709551615 0xFFFFFFFFFFFFFFFF -0xffffffffffffffff 00000000000000000000001";
    let found = tokens(rt.alloc(), text)?;
    assert_eq!(rt; found.len(), 5);
    // A variable has no such bound.
    assert_eq!(rt; tokens(rt.alloc(), b"!99999999999999999999999")?.len(), 1);
    Ok(())
}

#[test]
fn limits_names(rt: HostRuntime) -> Result<(), Fail> {
    let mut text = vec![in rt.alloc(); b'{'; 1]?;
    text.extend_from_slice(vec![in rt.alloc(); b'n'; 255]?.as_slice())?;
    let found = tokens(rt.alloc(), text.as_slice())?;
    assert_eq!(rt;
        found.as_slice(),
        [token(TokenKind::Mark, 0, 1), token(TokenKind::Word, 1, 256)].as_slice()
    );
    text.push(b'n')?;
    check_fault(
        &rt,
        tokens(rt.alloc(), text.as_slice()),
        1,
        TextCause::LongName,
    );
    Ok(())
}

#[test]
fn limits_texts(rt: HostRuntime) -> Result<(), Fail> {
    let mut text = vec![in rt.alloc(); b'\n'; 4194304]?;
    assert_eq!(rt; tokens(rt.alloc(), text.as_slice())?.len(), 0);
    assert_eq!(rt;
        spot(text.as_slice(), 4194304),
        Spot {
            line: 4194305,
            column: 1
        }
    );
    text.push(b'x')?;
    check_fault(
        &rt,
        tokens(rt.alloc(), text.as_slice()),
        4194304,
        TextCause::TooLong,
    );
    // A fault at the same place or before it is named first.
    text.push(b'#')?;
    check_fault(
        &rt,
        tokens(rt.alloc(), text.as_slice()),
        4194304,
        TextCause::TooLong,
    );
    let _x = text.pop();
    let _y = text.pop();
    text.push(b'#')?;
    check_fault(
        &rt,
        tokens(rt.alloc(), text.as_slice()),
        4194304,
        TextCause::BadByte,
    );
    Ok(())
}

#[test]
fn counts_lines_and_columns(rt: HostRuntime) {
    let text = b"ab\n\ncd\r\n";
    let table = [
        (0, 1, 1),
        (1, 1, 2),
        (2, 1, 3),
        (3, 2, 1),
        (4, 3, 1),
        (6, 3, 3),
        (7, 3, 4),
        (8, 4, 1),
    ];
    for (offset, line, column) in table {
        assert_eq!(rt; spot(text, offset), Spot { line, column });
    }
}
