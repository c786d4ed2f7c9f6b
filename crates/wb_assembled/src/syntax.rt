//! Lines that were read by hand.
use std::alloc::Global;
use std::process::Abort;
use std::test::Fail;
use wb_lex::lex;
use wb_syntax::{
    Body, Expr, Node, Source, Span, Statement, SyntaxFault, expressions_are_read_in_one_way, parse,
    statements_are_read_in_one_way,
};
use wb_word::{Acc, Alu, Cond, Dpl, Dst, OpWord, P, Src};

// The statements of a text, or its first bad line.
fn read(rt: &impl Abort, alloc: Global, text: &[u8]) -> Result<Result<Source, u32>, Fail> {
    assert!(rt; text.len() <= 1_048_576);
    let Ok(tokens) = lex(alloc, text) else {
        return Err(Fail::from("no tokens"));
    };
    match parse(alloc, text, &tokens) {
        Ok(source) => Ok(Ok(source)),
        Err(SyntaxFault::Syntax(line)) => Ok(Err(line)),
        Err(SyntaxFault::OutOfMemory) => Err(Fail::from("out of memory")),
    }
}

// A text has so many statements, or this is its first bad line.
fn expect(
    rt: &impl Abort,
    alloc: Global,
    text: &[u8],
    end: Result<usize, u32>,
) -> Result<(), Fail> {
    match read(rt, alloc, text)? {
        Ok(source) => assert_eq!(rt; Ok(source.as_slice().len()), end, "statements of {text:?}"),
        Err(line) => assert_eq!(rt; Err(line), end, "bad line of {text:?}"),
    }
    Ok(())
}

/// Texts, and how many statements each has, or its first bad line.
const LINES: [(&[u8], Result<usize, u32>); 44] = [
    (b"", Ok(0)),
    (b"\n;nop\n \r\n", Ok(0)),
    (b"nop\n\nx:\n", Ok(2)),
    (b"nop:nop:", Err(1)),
    (b"op: nop", Ok(1)),
    (b".x: nop", Err(1)),
    (b"1: nop", Err(1)),
    (b": nop", Err(1)),
    (b"nop nop", Err(1)),
    (b"NOP", Err(1)),
    (b"op\nrt", Ok(2)),
    (b"op add a,ram|mov k,l|dpinc|m1|rpdec", Ok(1)),
    (b"rt mf", Ok(1)),
    (b"op nop a,ram", Ok(1)),
    (b"op nop", Err(1)),
    (b"op add a", Err(1)),
    (b"op add a ram", Err(1)),
    (b"op mov a,b|mov b,a", Err(1)),
    (b"op m1|m2", Err(1)),
    (b"op m0", Err(1)),
    (b"op mg", Err(1)),
    (b"op dpnop", Err(1)),
    (b"op rpdec|", Err(1)),
    (b"op |rpdec", Err(1)),
    (b"op rpdec,rpdec", Err(1)),
    (b"op mov non,non", Err(1)),
    (b"ld a,1", Ok(1)),
    (b"ld a 1", Err(1)),
    (b"ld trb,-x*(y+$)", Ok(1)),
    (b"ld ro,1", Err(1)),
    (b"jmp", Err(1)),
    (b"jmp 1,2", Err(1)),
    (b"jmp --1", Err(1)),
    (b"jmp 1+-1", Err(1)),
    (b"jmp (-1)-(-1)", Ok(1)),
    (b"jmp .x", Err(1)),
    (b"jmp 1 2", Err(1)),
    (b"jmp 0x", Err(1)),
    (b"x: .equ y,1\n.equ z", Err(2)),
    (b".word 1,2,\n", Err(1)),
    (b".word 1,2\n.dw 3", Ok(2)),
    (b".org\n", Err(1)),
    (b".word ((((((((((((((((1))))))))))))))))", Ok(1)),
    (b"\n.word (((((((((((((((((1)))))))))))))))))", Err(2)),
];

fn expect_each(
    rt: &impl Abort,
    alloc: Global,
    rows: &[(&[u8], Result<usize, u32>)],
) -> Result<(), Fail> {
    for (text, end) in rows {
        expect(rt, alloc, text, *end)?;
    }
    Ok(())
}

#[test]
fn lines_are_statements_or_not(rt: HostRuntime) -> Result<(), Fail> {
    expressions_are_read_in_one_way();
    statements_are_read_in_one_way();
    expect_each(&rt, rt.alloc(), &LINES)
}

/// An expression of so many operators, and of one more.
fn expect_most_operators(rt: &impl Abort, alloc: Global, count: usize) -> Result<(), Fail> {
    let mut text = Vec::new(alloc);
    text.extend_from_slice(b".word -1")?;
    for _ in 1..count {
        text.extend_from_slice(b"*1")?;
    }
    expect(rt, alloc, text.as_slice(), Ok(1))?;
    text.extend_from_slice(b"-1")?;
    expect(rt, alloc, text.as_slice(), Err(1))
}

#[test]
fn an_expression_has_256_operators_at_most(rt: HostRuntime) -> Result<(), Fail> {
    expect_most_operators(&rt, rt.alloc(), 256)
}

/// An instruction of every field, after a label.
fn is_whole_return(statement: &Statement) -> bool {
    matches!(
        &statement.body,
        Body::Rt(
            OpWord {
                p: P::Idb,
                alu: Alu::Adc,
                acc: Acc::B,
                dpl: Dpl::DpDec,
                dphm,
                rpdec: true,
                src: Src::L,
                dst: Dst::K,
            },
        ) if dphm.value() == 12
    )
}

/// A jump to where it stands.
fn is_wait(statement: &Statement) -> bool {
    match &statement.body {
        Body::Jump(Cond::Jrqm, x) => matches!(x.node, Node::Here),
        _ => false,
    }
}

/// 2 less the product of 3 and 4.
fn is_difference(value: &Expr) -> bool {
    match &value.node {
        Node::Less(x, y) => matches!(x.node, Node::Number(2)) && is_product(y),
        _ => false,
    }
}

/// The product of 3 and 4.
fn is_product(value: &Expr) -> bool {
    match &value.node {
        Node::Times(x, y) => { matches!((&x.node, &y.node), (Node::Number(3), Node::Number(4))) }
        _ => false,
    }
}

/// A name for this difference.
fn is_definition(statement: &Statement) -> bool {
    match &statement.body {
        Body::Equ(name, value) => { *name == Span { start: 55, end: 56 } && is_difference(value) }
        _ => false,
    }
}

/// The lines and labels of statements.
fn expect_places(rt: &impl Abort, statements: &[Statement], places: &[(u32, Option<Span>)]) {
    assert_eq!(rt; statements.len(), places.len());
    for (statement, place) in statements.iter().zip(places) {
        assert_eq!(rt; (statement.line, statement.label), *place);
    }
}

/// The bodies of three statements.
fn expect_bodies(rt: &impl Abort, statements: &[Statement]) {
    assert!(rt; statements.len() == 3);
    assert!(rt; is_whole_return(&statements[0]), "first statement");
    assert!(rt; is_wait(&statements[1]), "second statement");
    assert!(rt; is_definition(&statements[2]), "third statement");
}

/// A label, an instruction of every field; a jump that waits; a label, a definition.
const SAYING: &[u8] = b"x: rt adc b,idb|mov k,l|dpdec|mc|rpdec\njrqm $\n\ny: .equ z,2-3*4\n";

const PLACES: [(u32, Option<Span>); 3] = [
    (1, Some(Span { start: 0, end: 1 })),
    (2, None),
    (4, Some(Span { start: 47, end: 48 })),
];

#[test]
fn statements_say_what_their_lines_say(rt: HostRuntime) -> Result<(), Fail> {
    let Ok(source) = read(&rt, rt.alloc(), SAYING)? else {
        return Err(Fail::from("a bad line"));
    };
    expect_places(&rt, source.as_slice(), &PLACES);
    expect_bodies(&rt, source.as_slice());
    Ok(())
}
