// Texts of JSON and their Cedar texts, and texts that say nothing.

use crate::{
    JsonFault, SplitError, Unread, answer_text, entities_fault, entity_texts, question_fault,
    read_entities, read_question, read_value, value_fault,
};
use cedar_policy_parts::{Decision, PolicyID};
use cedar_replies::{Answer, Erring, ErrorKind, PolicyIds};
use std::alloc::{AllocError, Global};

/// Whether the answer is this Cedar text.
fn is_written(answer: Result<String, Unread>, text: &str) -> bool {
    match answer {
        Ok(written) => written.as_str() == text,
        Err(_) => false,
    }
}

/// Whether the answer is that nothing is said.
fn is_unsaid(answer: Result<String, Unread>) -> bool {
    matches!(answer, Err(Unread::Unsaid))
}

#[test]
fn values_are_written(rt: HostRuntime) {
    let cases = [
        ("true", "true"),
        (" false ", "false"),
        ("7", "7"),
        ("-0", "-0"),
        ("9223372036854775807", "9223372036854775807"),
        ("-9223372036854775808", "-9223372036854775808"),
        (r#""a\"b\\c\r\n\u00e9""#, "\"a\\\"b\\\\c\\r\né\""),
        (r#"[1, "x", []]"#, r#"[1,"x",[],]"#),
        ("{}", "{}"),
        (
            r#"{"b": 1, "a": {"c": true}}"#,
            r#"{"b": 1,"a": {"c": true,},}"#,
        ),
        (r#"{"type": "U", "id": "x"}"#, r#"{"type": "U","id": "x",}"#),
        (
            r#"{"__entity": {"type": "A::U", "id": "x\"y"}}"#,
            r#"A::U::"x\"y""#,
        ),
        (r#"{"__entity": {"id": "x", "type": "U"}}"#, r#"U::"x""#),
        (r#"{"__extn": {"fn": "ip", "arg": "::1"}}"#, r#"ip("::1")"#),
        (r#"{"__extn": {"fn": "f", "args": [1, 2]}}"#, "f(1,2,)"),
        (
            r#"{"__extn": {"args": ["1.5"], "fn": "decimal"}}"#,
            r#"decimal("1.5",)"#,
        ),
    ];
    for (json, text) in cases {
        assert!(rt; is_written(read_value(rt.alloc(), json), text), "{json}");
    }
}

#[test]
fn others_are_no_values(rt: HostRuntime) {
    let cases = [
        "\u{feff}1",
        r#"{"a": 1,}"#,
        r#""\ud800""#,
        r#"{"a": 1, "b": 2, "a": 3}"#,
        "[true, null]",
        "1.5",
        "1e3",
        "9223372036854775808",
        r#"{"__entity": "U::x"}"#,
        r#"{"__entity": {"type": "A B", "id": "x"}}"#,
        r#"{"__entity": {"type": "if", "id": "x"}}"#,
        r#"{"__entity": {"type": "U", "id": "x"}, "a": 1}"#,
        r#"{"__expr": "1"}"#,
        r#"{"__extn": {"fn": "ip"}}"#,
    ];
    for json in cases {
        assert!(rt; is_unsaid(read_value(rt.alloc(), json)), "{json}");
    }
}

#[test]
fn entities_are_written(rt: HostRuntime) {
    let cases = [
        ("[]", "[]"),
        (
            r#"[{"uid": {"type": "U", "id": "a"}}]"#,
            r#"[{"uid": U::"a","parents": [],"attrs": {},"tags": {},},]"#,
        ),
        (
            r#"[{"uid": {"type": "U", "id": "a"}, "parents": [{"type": "G", "id": "g"}], "attrs": {"n": 1}, "tags": {}}]"#,
            r#"[{"uid": U::"a","parents": [G::"g",],"attrs": {"n": 1,},"tags": {},},]"#,
        ),
        (
            r#"[{"attrs": {"n": 1}, "parents": [{"__entity": {"type": "G", "id": "g"}}, {"type": "H", "id": "h"}],
                 "tags": {"t": []}, "uid": {"type": "U", "id": "a"}}]"#,
            r#"[{"uid": U::"a","parents": [G::"g",H::"h",],"attrs": {"n": 1,},"tags": {"t": [],},},]"#,
        ),
    ];
    for (json, text) in cases {
        assert!(rt; is_written(read_entities(rt.alloc(), json), text), "{json}");
    }
}

#[test]
fn others_are_no_entities(rt: HostRuntime) {
    let cases = [
        "{}",
        "[1]",
        r#"[{"attrs": {}}]"#,
        r#"[{"uid": "U::\"a\""}]"#,
        r#"[{"uid": {"type": "U", "id": "a"}, "atrs": {}}]"#,
        r#"[{"uid": {"type": "U", "id": "a"}, "attrs": []}]"#,
        r#"[{"uid": {"type": "U", "id": "a"}, "parents": {}}]"#,
        r#"[{"uid": {"type": "U", "id": "a"}, "uid": {"type": "U", "id": "a"}}]"#,
    ];
    for json in cases {
        assert!(rt; is_unsaid(read_entities(rt.alloc(), json)), "{json}");
    }
}

#[test]
fn questions_are_written(rt: HostRuntime) {
    let cases = [
        // an entity in each of its forms, and no context
        (
            r#"{"principal": {"type": "U", "id": "a"}, "action": {"__entity": {"type": "Action", "id": "view"}},
                "resource": "A::B::\"x\""}"#,
            r#"{"principal": U::"a","action": Action::"view","resource": A::B::"x","context": {},}"#,
        ),
        (
            r#"{"principal": {"type": "U", "id": "a"}, "action": "Action::\"view\"", "resource": {"type": "Photo", "id": "1"}, "context": {"hour": 9}}"#,
            r#"{"principal": U::"a","action": Action::"view","resource": Photo::"1","context": {"hour": 9,},}"#,
        ),
        // other order, blanks in a string, and an escape of Cedar's
        (
            r#"{"context": {"n": 1}, "resource": " U :: \"a\\n\" ", "principal": "permit::\"p\"", "action": "A::\"x\""}"#,
            r#"{"principal": permit::"p","action": A::"x","resource": U::"a\n","context": {"n": 1,},}"#,
        ),
    ];
    for (json, text) in cases {
        assert!(rt; is_written(read_question(rt.alloc(), json), text), "{json}");
    }
}

#[test]
fn others_are_no_questions(rt: HostRuntime) {
    let cases = [
        ("{}", "no parts"),
        (
            r#"{"principal": "U::\"a\"", "action": "A::\"x\""}"#,
            "no resource",
        ),
        (
            r#"{"principal": "U::\"a\"", "action": "A::\"x\"", "resource": "U::\"b\"", "content": {}}"#,
            "another key",
        ),
        (
            r#"{"principal": "U::\"a\"", "action": "A::\"x\"", "resource": "U::\"b\"", "context": []}"#,
            "a list as context",
        ),
        (
            r#"{"principal": "U::\"a\"", "action": "A::\"x\"", "resource": "U::\"b\"", "action": "A::\"x\""}"#,
            "a key twice",
        ),
        (
            r#"{"principal": "\"a\"", "action": "A::\"x\"", "resource": "U::\"b\""}"#,
            "no type",
        ),
        (
            r#"{"principal": "U::a", "action": "A::\"x\"", "resource": "U::\"b\""}"#,
            "no string",
        ),
        (
            r#"{"principal": "U::\"a\" b", "action": "A::\"x\"", "resource": "U::\"b\""}"#,
            "more behind the string",
        ),
        (
            r#"{"principal": "if::\"a\"", "action": "A::\"x\"", "resource": "U::\"b\""}"#,
            "a reserved word",
        ),
        (
            r#"{"principal": "U::\"\\*\"", "action": "A::\"x\"", "resource": "U::\"b\""}"#,
            "an escape of patterns",
        ),
        (
            r#"{"principal": {"type": "U"}, "action": "A::\"x\"", "resource": "U::\"b\""}"#,
            "no id",
        ),
        (
            r#"{"principal": 1, "action": "A::\"x\"", "resource": "U::\"b\""}"#,
            "a number",
        ),
    ];
    for (json, shows) in cases {
        assert!(rt; is_unsaid(read_question(rt.alloc(), json)), "{shows}");
    }
}

/// The texts, a line each.
fn lines(alloc: Global, texts: &Vec<String>) -> Result<String, AllocError> {
    let mut all = String::new(alloc);
    for text in texts {
        all.push_str(text.as_str())?;
        all.push('\n')?;
    }
    Ok(all)
}

/// Whether the answer is these texts.
fn is_split(alloc: Global, answer: Result<Vec<String>, SplitError>, expected: &str) -> bool {
    match answer {
        Ok(texts) => match lines(alloc, &texts) {
            Ok(all) => all.as_str() == expected,
            Err(_) => false,
        },
        Err(_) => false,
    }
}

const TWO: &str = r#"[{"uid": {"type": "U", "id": "a"}}, {"uid": {"type": "U", "id": "bc"}}]"#;

const BOTH: &str =
    "[{\"uid\": U::\"a\",\"parents\": [],\"attrs\": {},\"tags\": {},},{\"uid\": U::\"bc\",\"parents\": [],\"attrs\": {},\"tags\": {},},]\n";

const APART: &str =
    "[{\"uid\": U::\"a\",\"parents\": [],\"attrs\": {},\"tags\": {},},]\n[{\"uid\": U::\"bc\",\"parents\": [],\"attrs\": {},\"tags\": {},},]\n";

#[test]
fn entities_are_split(rt: HostRuntime) {
    let alloc = rt.alloc();
    assert!(rt; is_split(alloc, entity_texts(alloc, "[]", 0), ""), "none");
    assert!(rt;
        is_split(alloc, entity_texts(alloc, TWO, 111), BOTH),
        "111 bytes: both fit"
    );
    assert!(rt;
        is_split(alloc, entity_texts(alloc, TWO, 110), APART),
        "110 bytes: each alone"
    );
}

/// The index of the entity that is too long; a number beyond any where none is.
fn long_index(answer: Result<Vec<String>, SplitError>) -> usize {
    match answer {
        Err(SplitError::TooLong { index }) => index,
        _ => 99,
    }
}

#[test]
fn long_entities_are_named(rt: HostRuntime) {
    let alloc = rt.alloc();
    assert!(rt;
        long_index(entity_texts(alloc, TWO, 55)) == 0,
        "the first doesn't fit"
    );
    assert!(rt;
        long_index(entity_texts(alloc, TWO, 56)) == 1,
        "the second doesn't fit"
    );
    assert!(rt;
        matches!(entity_texts(alloc, "{}", 100), Err(SplitError::Unsaid)),
        "no list"
    );
}

/// The set of this id.
fn only(alloc: Global, id: &str) -> Result<PolicyIds, AllocError> {
    let mut ids = Vec::new(alloc);
    ids.push(PolicyID::from_string(alloc, id)?)?;
    Ok(PolicyIds::new(ids))
}

/// A policy that compares what has no order.
fn one_erring(alloc: Global, id: &str) -> Result<Erring, AllocError> {
    let mut entries = Vec::new(alloc);
    entries.push((PolicyID::from_string(alloc, id)?, ErrorKind::TypeError))?;
    Erring::new(entries)
}

/// Whether the JSON of an answer has this decision, and behind it the policy that must hold, out of one that
/// must and one that may, and the one that errs.
fn is_told(alloc: Global, decision: Option<Decision>, expected: &str) -> Result<bool, AllocError> {
    let answer = Answer {
        decision,
        must: only(alloc, "policy0")?,
        may: only(alloc, "policy1")?,
        erring: one_erring(alloc, "say \"2\"")?,
    };
    let text = answer_text(alloc, &answer)?;
    Ok(match text.as_str().strip_suffix(DIAGNOSTICS) {
        Some(told) => told == expected,
        None => false,
    })
}

const DIAGNOSTICS: &str = concat!(
    r#","diagnostics":{"reason":["policy0"],"errors":"#,
    r#"[{"policyId":"say \"2\"","error":{"message":"TypeError","code":"TypeError"}}]}}"#
);

#[test]
fn answers_are_told(rt: HostRuntime) {
    let cases = [
        (Some(Decision::Allow), r#"{"decision":"allow""#),
        (Some(Decision::Deny), r#"{"decision":"deny""#),
        (None, r#"{"decision":null"#),
    ];
    for (decision, expected) in cases {
        assert!(rt;
            matches!(is_told(rt.alloc(), decision, expected), Ok(true)),
            "{expected}"
        );
    }
}

/// A fault on one line: its kind, pointer, line, column and words.
fn fault_line(
    alloc: Global,
    fault: Result<Option<JsonFault>, AllocError>,
) -> Result<String, AllocError> {
    match fault? {
        None => String::from_str(alloc, "none"),
        Some(fault) => {
            let kind = fault.kind;
            let pointer = fault.pointer.as_str();
            let line = fault.line;
            let column = fault.column;
            let message = fault.message.as_str();
            format!(in alloc; "{kind:?} {pointer} {line}:{column} {message}")
        }
    }
}

/// A list in 128 others.
const DEEP: &str = concat!(
    "[[[[[[[[[[[[[[[[[[[[[[[[[[[[[[[[[[[[[[[[[[[[[[[[[[[[[[[[[[[[[[[[[[[[[[[[[[[[[[[[[[[[[[[[[[[[[[[[[[[[[[[[[[[[[[[[[[[[[[[[[[[[[[[[[",
    "]]]]]]]]]]]]]]]]]]]]]]]]]]]]]]]]]]]]]]]]]]]]]]]]]]]]]]]]]]]]]]]]]]]]]]]]]]]]]]]]]]]]]]]]]]]]]]]]]]]]]]]]]]]]]]]]]]]]]]]]]]]]]]]]]"
);

#[test]
fn faults_of_values_are_told(rt: HostRuntime) {
    let cases = [
        ("1", "none"),
        (
            "\u{feff}1",
            "Mark  1:1 the text begins with a byte order mark",
        ),
        ("[1,\n }", "NotJson  2:2 no JSON here"),
        (r#"{"a" 1}"#, "NotJson  1:2 no JSON here"),
        (r#"{"a": "\ud800"}"#, "NotJson  1:7 no JSON here"),
        (DEEP, "Nesting  1:129 it nests deeper than 128"),
        ("1 2", "NotJson  1:3 no JSON here"),
        ("[1", "NotJson  1:3 no JSON here"),
        (
            r#"{"a": 1, "b": 2, "a": 3}"#,
            "TwiceKey /a 1:18 key \"a\" stands twice",
        ),
        ("[true,\n null]", "Null /1 2:2 null is no value of Cedar"),
        (
            r#"{"a/b": 1.5}"#,
            "Float /a~1b 1:9 1.5 is no long: numbers are whole",
        ),
        ("1e3", "Float  1:1 1e3 is no long: numbers are whole"),
        (
            "9223372036854775808",
            "Range  1:1 9223372036854775808 is no long: out of range",
        ),
        (
            r#"{"é": {"__entity": "x"}}"#,
            "Uid /é/__entity 1:20 no entity: expected {\"type\", \"id\"}",
        ),
        (
            r#"{"__entity": {"id": "x", "type": "A B"}}"#,
            "Type /__entity/type 1:34 \"A B\" is no entity type",
        ),
        (
            r#"{"__expr": "1"}"#,
            "Extn /__expr 1:2 no call: `__expr` was removed in Cedar 3",
        ),
        (
            r#"{"__extn": {"fn": "ip"}}"#,
            "Extn /__extn 1:12 no call: expected {\"fn\", \"arg\"} or {\"fn\", \"args\"}",
        ),
    ];
    for (json, expected) in cases {
        let line = fault_line(rt.alloc(), value_fault(rt.alloc(), json)).expect(&rt, "memory");
        assert!(rt; line.as_str() == expected, "{line}");
    }
}

#[test]
fn faults_of_entities_are_told(rt: HostRuntime) {
    let cases = [
        ("[]", "none"),
        ("{}", "Kind  1:1 what stands there is no list"),
        (
            r#"[{"uid": {"type": "U", "id": "a"}, "atrs": {}}]"#,
            "Key /0/atrs 1:36 key \"atrs\" is none of uid, parents, attrs, tags",
        ),
        (
            r#"[{"attrs": {}}]"#,
            "Missing /0 1:2 key \"uid\" is missing",
        ),
        (
            r#"[{"uid": {"type": "U", "id": "a"}, "attrs": []}]"#,
            "Kind /0/attrs 1:45 what stands there is no object",
        ),
        (
            r#"[{"uid": {"type": "U", "id": "a"}, "parents": ["U::\"b\""]}]"#,
            "Uid /0/parents/0 1:48 no entity: expected {\"type\", \"id\"}",
        ),
    ];
    for (json, expected) in cases {
        let line = fault_line(rt.alloc(), entities_fault(rt.alloc(), json)).expect(&rt, "memory");
        assert!(rt; line.as_str() == expected, "{line}");
    }
}

#[test]
fn faults_of_questions_are_told(rt: HostRuntime) {
    let cases = [
        (
            r#"{"principal": "U::\"a\"", "action": "A::\"x\"", "resource": "U::\"b\""}"#,
            "none",
        ),
        (
            r#"{"principal": "U::\"a\"", "action": "A::\"x\""}"#,
            "Missing  1:1 key \"resource\" is missing",
        ),
        (
            r#"{"principal": "U::a", "action": "A::\"x\"", "resource": "U::\"b\""}"#,
            "Uid /principal 1:15 no entity: expected {\"type\", \"id\"} or a string as U::\"x\"",
        ),
    ];
    for (json, expected) in cases {
        let line = fault_line(rt.alloc(), question_fault(rt.alloc(), json)).expect(&rt, "memory");
        assert!(rt; line.as_str() == expected, "{line}");
    }
}
