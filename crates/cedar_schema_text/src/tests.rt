// What texts are read into, and where they are refused.

use crate::{SchemaSyntaxError, SyntaxFault, parse_schema, tokenize};
use cedar_tokens::TokenError;
use std::alloc::Global;

fn count(alloc: Global, text: &str) -> Result<usize, TokenError> {
    let tokens = tokenize(alloc, text)?;
    Ok(tokens.len())
}

#[test]
fn texts_have_tokens(rt: HostRuntime) {
    let cases = [
        ("", 0),
        ("// a comment alone", 0),
        ("entity User in [Group];", 7),
        ("namespace A::B {}", 6),
        (r#"action "a \" b";"#, 3),
        ("{ a?: Set<Long> }", 9),
    ];
    for (text, tokens) in cases {
        assert_eq!(rt; count(rt.alloc(), text), Ok(tokens), "{text}");
    }
}

#[test]
fn others_have_none(rt: HostRuntime) {
    let cases = [("a & b", 2), ("7", 0), (r#"x "never closed"#, 2)];
    for (text, place) in cases {
        assert_eq!(rt;
            count(rt.alloc(), text),
            Err(TokenError::Unexpected { place }),
            "{text}"
        );
    }
}

fn block_count(alloc: Global, text: &str, depth: u32) -> Result<usize, SchemaSyntaxError> {
    let syntax = parse_schema(alloc, text, depth)?;
    Ok(syntax.namespaces.len())
}

#[test]
fn schemas_are_read(rt: HostRuntime) {
    let cases = [
        ("", 0),
        (
            "entity User, Admin in [Group, Team] { name: String, age?: Long } tags Set<String>;",
            1,
        ),
        (
            r#"entity Color enum ["red", "green",]; entity Size = {};"#,
            2,
        ),
        (
            "@doc(\"x\") namespace A::B { type T = { @note a: Set<{ \"b c\": Bool }>, }; }",
            1,
        ),
        (
            r#"action view, "edit all" in [Action::"read", write] appliesTo { principal: User, resource: [Photo], context: {} };"#,
            1,
        ),
        ("action read; action write in read;", 2),
    ];
    for (text, blocks) in cases {
        assert_eq!(rt; block_count(rt.alloc(), text, 4), Ok(blocks), "{text}");
    }
}

#[test]
fn other_texts_are_refused(rt: HostRuntime) {
    let cases = [
        ("entity User", SyntaxFault::UnexpectedEnd, 11),
        ("entity in;", SyntaxFault::UnexpectedToken, 7),
        ("entity A {a Long};", SyntaxFault::UnexpectedToken, 12),
        ("entity A; }", SyntaxFault::UnexpectedToken, 10),
        ("type T = Set<Long;", SyntaxFault::UnexpectedToken, 17),
        ("action a in B::C;", SyntaxFault::UnexpectedToken, 16),
        ("@a @a entity A;", SyntaxFault::DuplicateAnnotation, 4),
        (r#"action "\q";"#, SyntaxFault::WrongEscape, 7),
        ("entity A & B;", SyntaxFault::NoToken, 9),
    ];
    for (text, fault, place) in cases {
        assert_eq!(rt;
            block_count(rt.alloc(), text, 3),
            Err(SchemaSyntaxError::Syntax { fault, place }),
            "{text}"
        );
    }
}

#[test]
fn deep_texts_are_refused_at_the_bracket(rt: HostRuntime) {
    let text = "type T = Set<Set<Long>>;";
    assert_eq!(rt; block_count(rt.alloc(), text, 2), Ok(1));
    assert_eq!(rt;
        block_count(rt.alloc(), text, 1),
        Err(SchemaSyntaxError::Depth { place: 16 })
    );
}
