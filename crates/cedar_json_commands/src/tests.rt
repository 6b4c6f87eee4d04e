// Texts of JSON and the bodies of commands that they say, and texts that say none.

use crate::{
    JsonVerb, body_text, json_fault, link_fault, partial_question_fault, read_id, read_link,
    read_named_entities, read_partial_question, read_tell, tell_fault,
};
use cedar_json::{JsonFault, Unread};
use std::alloc::{AllocError, Global};

/// Whether the answer is this Cedar text.
fn is_written(answer: Result<String, Unread>, text: &str) -> bool {
    match answer {
        Ok(written) => written.as_str() == text,
        Err(_) => false,
    }
}

/// Whether the answer is that nothing is said.
fn is_unsaid(answer: Result<String, Unread>) -> bool {
    matches!(answer, Err(Unread::Unsaid))
}

#[test]
fn partial_questions_are_written(rt: HostRuntime) {
    let cases = [
        // what is left out is missing, but for the context
        ("{}", r#"{"context": {},}"#),
        // a type alone, an entity, a context
        (
            r#"{"principal": {"type": "A::U"}, "action": "Action::\"view\"", "context": {"hour": 9}}"#,
            r#"{"principal_type": "A::U","action": Action::"view","context": {"hour": 9,},}"#,
        ),
        (
            r#"{"resource": {"type": "Photo"}, "principal": {"type": "U", "id": "a"}}"#,
            r#"{"principal": U::"a","resource_type": "Photo","context": {},}"#,
        ),
        // an unknown context
        (
            r#"{"resource": {"__entity": {"type": "Photo", "id": "1"}}, "context": "unknown"}"#,
            r#"{"resource": Photo::"1",}"#,
        ),
        // an unknown in a context
        (
            r#"{"context": {"hour": {"__extn": {"fn": "unknown", "arg": "h"}}}}"#,
            r#"{"context": {"hour": unknown("h"),},}"#,
        ),
        // a question whose parts all stand
        (
            r#"{"principal": "U::\"a\"", "action": "A::\"x\"", "resource": "P::\"1\""}"#,
            r#"{"principal": U::"a","action": A::"x","resource": P::"1","context": {},}"#,
        ),
    ];
    for (json, text) in cases {
        assert!(rt;
            is_written(read_partial_question(rt.alloc(), json), text),
            "{json}"
        );
    }
}

#[test]
fn others_are_no_partial_questions(rt: HostRuntime) {
    let cases = [
        ("[]", "a list"),
        (r#"{"principal_type": "U"}"#, "a key of the body"),
        (r#"{"action": {"type": "Action"}}"#, "the type of an action"),
        (r#"{"principal": {"type": "A U"}}"#, "no name"),
        (r#"{"principal": {"type": "if"}}"#, "a reserved word"),
        (r#"{"principal": {"type": 1}}"#, "no string"),
        (
            r#"{"principal": {"__entity": {"type": "U"}}}"#,
            "a type under `__entity`",
        ),
        (r#"{"principal": null}"#, "null"),
        (r#"{"context": null}"#, "null for a context"),
        (r#"{"context": "open"}"#, "another word"),
        (r#"{"context": []}"#, "a list for a context"),
        (
            r#"{"action": "A::\"x\"", "action": "A::\"x\""}"#,
            "a key twice",
        ),
        (
            r#"{"principal": {"type": "U", "type": "U"}}"#,
            "a type twice",
        ),
    ];
    for (json, what) in cases {
        assert!(rt;
            is_unsaid(read_partial_question(rt.alloc(), json)),
            "{what}"
        );
    }
}

#[test]
fn links_are_written(rt: HostRuntime) {
    let cases = [
        (
            r#"{"template_id": "policy0", "link_id": "l", "args": {"?principal": "U::\"a\""}}"#,
            r#"{"template": "policy0","id": "l","principal": U::"a",}"#,
        ),
        (
            r#"{"values": {"?resource": {"type": "P", "id": "1"}, "?principal": {"__entity": {"type": "U", "id": "a"}}},
                "newId": "a \"b\"", "templateId": "t"}"#,
            r#"{"template": "t","id": "a \"b\"","principal": U::"a","resource": P::"1",}"#,
        ),
        (
            r#"{"template_id": "t", "link_id": "l", "args": {}}"#,
            r#"{"template": "t","id": "l",}"#,
        ),
    ];
    for (json, text) in cases {
        assert!(rt; is_written(read_link(rt.alloc(), json), text), "{json}");
    }
}

#[test]
fn others_are_no_links(rt: HostRuntime) {
    let cases = [
        ("{}", "no parts"),
        (r#"{"template_id": "t", "link_id": "l"}"#, "no slots"),
        (r#"{"link_id": "l", "args": {}}"#, "no template"),
        (r#"{"template_id": "t", "args": {}}"#, "no id"),
        (
            r#"{"template_id": "t", "link_id": "l", "values": {}}"#,
            "mixed",
        ),
        (
            r#"{"template_id": "t", "link_id": "l", "args": {}, "values": {}}"#,
            "both",
        ),
        (
            r#"{"template_id": 1, "link_id": "l", "args": {}}"#,
            "a number",
        ),
        (
            r#"{"template_id": "t", "link_id": "l", "args": []}"#,
            "a list",
        ),
        (
            r#"{"template_id": "t", "link_id": "l", "args": {"principal": "U::\"a\""}}"#,
            "no slot",
        ),
        (
            r#"{"template_id": "t", "link_id": "l", "args": {"?principal": "a"}}"#,
            "no entity",
        ),
        (
            r#"{"template_id": "t", "link_id": "l", "args": {"?principal": "U::\"a\"", "?principal": "U::\"a\""}}"#,
            "a slot twice",
        ),
    ];
    for (json, what) in cases {
        assert!(rt; is_unsaid(read_link(rt.alloc(), json)), "{what}");
    }
}

#[test]
fn values_are_told(rt: HostRuntime) {
    let cases = [
        ("{}", "{}"),
        (
            r#"{"h": [1], "principal": {"__entity": {"type": "U", "id": "a"}}, "context": {"n": true}}"#,
            r#"{"h": [1,],"principal": U::"a","context": {"n": true,},}"#,
        ),
        // what a user typed is no entity
        (
            r#"{"a": {"type": "U", "id": "a"}}"#,
            r#"{"a": {"type": "U","id": "a",},}"#,
        ),
    ];
    for (json, text) in cases {
        assert!(rt; is_written(read_tell(rt.alloc(), json), text), "{json}");
    }
    for json in [
        "[]",
        "1",
        r#"{"a": null}"#,
        r#"{"__entity": {"type": "U", "id": "a"}}"#,
    ] {
        assert!(rt; is_unsaid(read_tell(rt.alloc(), json)), "{json}");
    }
}

#[test]
fn ids_and_entities_are_named(rt: HostRuntime) {
    assert!(rt; is_written(read_id(rt.alloc(), r#""policy0""#), r#""policy0""#));
    assert!(rt; is_unsaid(read_id(rt.alloc(), "0")));
    assert!(rt; is_written(read_named_entities(rt.alloc(), "[]"), "[]"));
    let json = r#"[{"type": "U", "id": "a"}, {"__entity": {"type": "G", "id": "g"}}]"#;
    assert!(rt; is_written(read_named_entities(rt.alloc(), json), r#"[U::"a",G::"g",]"#));
    assert!(rt; is_unsaid(read_named_entities(rt.alloc(), r#"["U::\"a\""]"#)));
}

/// Whether the JSON is a body of the command of this name, and 1 is none.
fn has_body(alloc: Global, verb: JsonVerb, name: &str, json: &str, text: &str) -> bool {
    if verb.verb().name() != name {
        return false;
    }
    if !is_written(body_text(alloc, verb, json), text) {
        return false;
    }
    is_unsaid(body_text(alloc, verb, "1"))
}

#[test]
fn each_command_has_its_body(rt: HostRuntime) {
    let question = r#"{"principal": "U::\"a\"", "action": "A::\"x\"", "resource": "P::\"1\""}"#;
    let asked = r#"{"principal": U::"a","action": A::"x","resource": P::"1","context": {},}"#;
    let link = r#"{"template_id": "t", "link_id": "l", "args": {}}"#;
    let entity = r#"[{"uid": {"type": "U", "id": "a"}}]"#;
    let body = r#"[{"uid": U::"a","parents": [],"attrs": {},"tags": {},},]"#;
    let cases = [
        (
            JsonVerb::Link,
            "link",
            link,
            r#"{"template": "t","id": "l",}"#,
        ),
        (JsonVerb::Unlink, "unlink", r#""l""#, r#""l""#),
        (JsonVerb::RemoveStatic, "remove-static", r#""p""#, r#""p""#),
        (
            JsonVerb::RemoveTemplate,
            "remove-template",
            r#""t""#,
            r#""t""#,
        ),
        (JsonVerb::Add, "add", entity, body),
        (JsonVerb::Put, "put", entity, body),
        (
            JsonVerb::Remove,
            "remove",
            r#"[{"type": "U", "id": "a"}]"#,
            r#"[U::"a",]"#,
        ),
        (JsonVerb::Ask, "ask", question, asked),
        (JsonVerb::AskPartial, "ask", question, asked),
        (JsonVerb::Tell, "tell", r#"{"a": 1}"#, r#"{"a": 1,}"#),
    ];
    for (verb, name, json, text) in cases {
        assert!(rt; has_body(rt.alloc(), verb, name, json, text), "{name}");
    }
}

#[test]
fn parts_are_left_open_by_leave_alone(rt: HostRuntime) {
    assert!(rt; is_unsaid(body_text(rt.alloc(), JsonVerb::Ask, "{}")));
    assert!(rt;
        is_written(
            body_text(rt.alloc(), JsonVerb::AskPartial, "{}"),
            r#"{"context": {},}"#
        )
    );
}

/// A fault on one line: its kind, pointer, line, column and words.
fn fault_line(alloc: Global, fault: Option<JsonFault>) -> Result<String, AllocError> {
    let Some(fault) = fault else {
        return String::from_str(alloc, "none");
    };
    let kind = fault.kind.name();
    let pointer = fault.pointer.as_str();
    let line = fault.line;
    let column = fault.column;
    let message = fault.message.as_str();
    format!(in alloc; "{kind} {pointer} {line}:{column} {message}")
}

/// The first case whose fault, as the body of this command, isn't told so.
fn first_other(
    alloc: Global,
    verb: JsonVerb,
    cases: &[(&'static str, &'static str)],
) -> Result<Option<usize>, AllocError> {
    for (index, (json, told)) in cases.iter().enumerate() {
        let fault = json_fault(alloc, verb, json)?;
        if fault_line(alloc, fault)?.as_str() != *told {
            return Ok(Some(index));
        }
    }
    Ok(None)
}

#[test]
fn faults_of_links_are_told(rt: HostRuntime) {
    let cases = [
        (
            r#"{"template_id": "t", "link_id": "l", "args": {"?principal": "U::\"a\""}}"#,
            "none",
        ),
        ("[]", "Kind  1:1 what stands there is no object"),
        (
            r#"{"templateId": "t", "newId": "l", "args": {}}"#,
            r#"Key /args 1:35 key "args" is none of templateId, newId, values"#,
        ),
        (
            r#"{"template_id": "t", "template_id": "t", "link_id": "l", "args": {}}"#,
            r#"TwiceKey /template_id 1:22 key "template_id" stands twice"#,
        ),
        (
            r#"{"templateId": "t", "values": {}}"#,
            r#"Missing  1:1 key "newId" is missing"#,
        ),
        (
            r#"{"templateId": 1, "newId": "l", "values": {}}"#,
            "Kind /templateId 1:16 what stands there is no string",
        ),
        (
            "{\"template_id\": \"t\", \"link_id\": \"l\",\n \"args\": {\"principal\": \"U::\\\"a\\\"\"}}",
            r#"Key /args/principal 2:11 key "principal" is none of ?principal, ?resource"#,
        ),
        (
            r#"{"template_id": "t", "link_id": "l", "args": {"?resource": "U::a"}}"#,
            r#"Uid /args/?resource 1:60 no entity: expected {"type", "id"} or a string as U::"x""#,
        ),
    ];
    assert_eq!(rt; first_other(rt.alloc(), JsonVerb::Link, &cases), Ok(None));
}

#[test]
fn faults_of_tells_are_told(rt: HostRuntime) {
    let cases = [
        ("{}", "none"),
        ("1", "Kind  1:1 what stands there is no object"),
        (
            r#"{"a": [null]}"#,
            "Null /a/0 1:8 null is no value of Cedar",
        ),
        (
            r#"{"__entity": {"type": "U", "id": "a"}}"#,
            r#"Key /__entity 1:2 key "__entity" is none of a record's: it stands alone"#,
        ),
    ];
    assert_eq!(rt; first_other(rt.alloc(), JsonVerb::Tell, &cases), Ok(None));
}

#[test]
fn faults_of_partial_questions_are_told(rt: HostRuntime) {
    let cases = [
        (r#"{"context": "unknown"}"#, "none"),
        (
            r#"{"principal": {"type": "A B"}}"#,
            r#"Type /principal/type 1:24 "A B" is no entity type"#,
        ),
        (
            r#"{"action": {"type": "Action"}}"#,
            r#"Uid /action 1:12 no entity: expected {"type", "id"}"#,
        ),
        (
            r#"{"context": "open"}"#,
            "Kind /context 1:13 what stands there is no object",
        ),
        (
            r#"{"contxt": {}}"#,
            r#"Key /contxt 1:2 key "contxt" is none of principal, action, resource, context"#,
        ),
    ];
    assert_eq!(rt;
        first_other(rt.alloc(), JsonVerb::AskPartial, &cases),
        Ok(None)
    );
}

#[test]
fn faults_of_ids_and_names_are_told(rt: HostRuntime) {
    let ids = [
        (r#""l""#, "none"),
        ("l", "NotJson  1:1 no JSON here"),
        ("7", "Kind  1:1 what stands there is no string"),
    ];
    assert_eq!(rt; first_other(rt.alloc(), JsonVerb::Unlink, &ids), Ok(None));
    let names = [
        ("[]", "none"),
        (
            r#"["U::\"a\""]"#,
            r#"Uid /0 1:2 no entity: expected {"type", "id"}"#,
        ),
    ];
    assert_eq!(rt; first_other(rt.alloc(), JsonVerb::Remove, &names), Ok(None));
}

#[test]
fn each_kind_of_text_has_its_faults(rt: HostRuntime) {
    let alloc = rt.alloc();
    let told = "Kind  1:1 what stands there is no object";
    let link = link_fault(alloc, "[]").expect(&rt, "memory");
    let tell = tell_fault(alloc, "[]").expect(&rt, "memory");
    let question = partial_question_fault(alloc, "[]").expect(&rt, "memory");
    for fault in [link, tell, question] {
        let line = fault_line(alloc, fault).expect(&rt, "memory");
        assert!(rt; line.as_str() == told, "{line}");
    }
}
