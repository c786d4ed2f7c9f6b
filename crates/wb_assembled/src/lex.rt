//! Texts that were cut by hand.
use std::alloc::Global;
use std::process::Abort;
use std::test::Fail;
use wb_lex::{LexFault, TokenKind, each_text_has_one_answer, lex};

// A token by its kind, its line, its start and its end.
type Row = (TokenKind, u32, usize, usize);

// The tokens of a text are these.
fn expect_tokens(rt: &impl Abort, alloc: Global, text: &[u8], rows: &[Row]) -> Result<(), Fail> {
    assert!(rt; text.len() <= 1_048_576);
    let Ok(tokens) = lex(alloc, text) else {
        return Err(Fail::from("no tokens"));
    };
    let tokens = tokens.as_slice();
    assert_eq!(rt; tokens.len(), rows.len(), "tokens of {text:?}");
    for (token, row) in tokens.iter().zip(rows) {
        assert_eq!(rt;
            (token.kind, token.line, token.start, token.end),
            *row,
            "in {text:?}"
        );
    }
    Ok(())
}

// The first fault of a text is this.
fn expect_fault(rt: &impl Abort, alloc: Global, text: &[u8], fault: LexFault) -> Result<(), Fail> {
    assert!(rt; text.len() <= 1_048_576);
    match lex(alloc, text) {
        Ok(_) => return Err(Fail::from("no fault")),
        Err(found) => assert_eq!(rt; found, fault, "fault of {text:?}"),
    }
    Ok(())
}

#[test]
fn texts_have_their_tokens(rt: HostRuntime) -> Result<(), Fail> {
    use TokenKind::{Bad, LineEnd, Mark, Name, Number};
    each_text_has_one_answer();
    let cases: [(&[u8], &[Row]); 12] = [
        (b"", &[]),
        (b" \t;no \xFF\r end", &[]),
        (
            b"\n\r\n\n",
            &[(LineEnd, 1, 0, 1), (LineEnd, 2, 2, 3), (LineEnd, 3, 3, 4)],
        ),
        (
            b"x: .equ x,5",
            &[
                (Name, 1, 0, 1),
                (Mark(b':'), 1, 1, 2),
                (Name, 1, 3, 7),
                (Name, 1, 8, 9),
                (Mark(b','), 1, 9, 10),
                (Number(5), 1, 10, 11),
            ],
        ),
        (
            b"nop;\x00\r\r\n\top ;\r\nrt",
            &[
                (Name, 1, 0, 3),
                (LineEnd, 1, 7, 8),
                (Name, 2, 9, 11),
                (LineEnd, 2, 14, 15),
                (Name, 3, 15, 17),
            ],
        ),
        (
            b"4294967295 0xFFFFFFFF",
            &[
                (Number(4_294_967_295), 1, 0, 10),
                (Number(4_294_967_295), 1, 11, 21),
            ],
        ),
        (
            b"0 007 0x0aF 0X1 0x 12ab 0xg 1_",
            &[
                (Number(0), 1, 0, 1),
                (Number(7), 1, 2, 5),
                (Number(175), 1, 6, 11),
                (Bad, 1, 12, 15),
                (Bad, 1, 16, 18),
                (Bad, 1, 19, 23),
                (Bad, 1, 24, 27),
                (Bad, 1, 28, 30),
            ],
        ),
        (b"99999999999x", &[(Bad, 1, 0, 12)]),
        (
            b"a.b..Z_9",
            &[
                (Name, 1, 0, 1),
                (Name, 1, 1, 3),
                (Name, 1, 3, 4),
                (Name, 1, 4, 8),
            ],
        ),
        (
            b"|+-*()$",
            &[
                (Mark(b'|'), 1, 0, 1),
                (Mark(b'+'), 1, 1, 2),
                (Mark(b'-'), 1, 2, 3),
                (Mark(b'*'), 1, 3, 4),
                (Mark(b'('), 1, 4, 5),
                (Mark(b')'), 1, 5, 6),
                (Mark(b'$'), 1, 6, 7),
            ],
        ),
        (b".9", &[(Name, 1, 0, 2)]),
        (b"1.2", &[(Number(1), 1, 0, 1), (Name, 1, 1, 3)]),
    ];
    for (text, rows) in cases {
        expect_tokens(&rt, rt.alloc(), text, rows)?;
    }
    Ok(())
}

#[test]
fn the_first_fault_is_named(rt: HostRuntime) -> Result<(), Fail> {
    use LexFault::{Byte, Wide};
    let cases: [(&[u8], LexFault); 14] = [
        (b"%", Byte { line: 1, column: 1 }),
        (b"nop\nld a,%", Byte { line: 2, column: 6 }),
        (b"nop\r\n\t\xFF", Byte { line: 2, column: 2 }),
        (b";%\n\n;\n %%", Byte { line: 4, column: 2 }),
        (b"a\rb", Byte { line: 1, column: 2 }),
        (b"a\r", Byte { line: 1, column: 2 }),
        (b"a\r\r\n", Byte { line: 1, column: 2 }),
        (b"\x00", Byte { line: 1, column: 1 }),
        (b"4294967296", Wide(1)),
        (b"\n0x100000000", Wide(2)),
        (b"\n\n99999999999999999999999999", Wide(3)),
        (b"4294967296 %", Wide(1)),
        (b"% 4294967296", Byte { line: 1, column: 1 }),
        (b"4294967296%", Wide(1)),
    ];
    for (text, fault) in cases {
        expect_fault(&rt, rt.alloc(), text, fault)?;
    }
    Ok(())
}
