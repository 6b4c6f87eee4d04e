// Sessions that are sent commands, some as Cedar texts and some as JSON, with the line that tells each answer.

use crate::{JsonReply, JsonVerb, Unanswered, answer_json, answer_line, line_text};
use cedar_session::{BODY_LIMIT, Extensions, OwnedSession, Refusal, Reply, Verb, line_in_memory};
use json::Scratch;
use std::alloc::{AllocError, Global};

/// A command with its body.
#[derive(Clone, Copy)]
enum Sent<'t> {
    Cedar(Verb, &'t str),
    Json(JsonVerb, &'t str),
}

/// Whether this line tells what a command was answered.
fn is_line(alloc: Global, outcome: &Result<Reply, Refusal>, line: &str) -> bool {
    match line_in_memory(alloc, outcome) {
        Ok(told) => match told.as_slice().strip_suffix(b"\n") {
            Some(told) => told == line.as_bytes(),
            None => false,
        },
        Err(_) => false,
    }
}

/// Whether a command is answered so; what isn't read is told by its reason.
fn is_answered(alloc: Global, session: &mut OwnedSession<'_>, sent: Sent<'_>, line: &str) -> bool {
    match sent {
        Sent::Cedar(verb, body) => {
            body.len() <= BODY_LIMIT && is_line(alloc, &session.answer(verb, body.as_bytes()), line)
        }
        Sent::Json(verb, json) => match answer_json(alloc, session, verb, json) {
            JsonReply::Replied(outcome) => is_line(alloc, &outcome, line),
            JsonReply::Unread(Unanswered::Unsaid) => line == "unsaid",
            JsonReply::Unread(Unanswered::Long) => line == "long",
            JsonReply::Unread(Unanswered::Memory) => false,
        },
    }
}

fn new_session<'f>(alloc: Global) -> Result<OwnedSession<'f>, AllocError> {
    let extensions = Extensions::all_available(alloc)?;
    Ok(OwnedSession::new(alloc, extensions, 256))
}

/// The first command that isn't answered by its line.
fn first_other(
    alloc: Global,
    cases: &[(Sent<'static>, &'static str)],
) -> Result<Option<usize>, AllocError> {
    let mut session = new_session(alloc)?;
    for (index, (sent, line)) in cases.iter().enumerate() {
        if !is_answered(alloc, &mut session, *sent, line) {
            return Ok(Some(index));
        }
    }
    Ok(None)
}

#[test]
fn questions_of_json_are_answered(rt: HostRuntime) {
    let cases = [
        (
            Sent::Cedar(
                Verb::Load,
                r#"permit(principal in G::"g", action, resource) when { context.hour < 12 };"#,
            ),
            r#"ok ["policy0"]"#,
        ),
        (
            Sent::Json(
                JsonVerb::Put,
                r#"[{"uid": {"type": "U", "id": "a"}, "parents": [{"type": "G", "id": "g"}]}]"#,
            ),
            "ok",
        ),
        (
            Sent::Json(
                JsonVerb::Ask,
                r#"{"principal": {"type": "U", "id": "a"}, "action": "A::\"x\"", "resource": {"type": "P", "id": "1"}, "context": {"hour": 9}}"#,
            ),
            r#"allow must=["policy0"] may=["policy0"] erring=[]"#,
        ),
        (
            Sent::Json(
                JsonVerb::Ask,
                r#"{"principal": {"type": "U", "id": "a"}, "action": "A::\"x\"", "resource": {"type": "P", "id": "1"}, "context": {"hour": 13}}"#,
            ),
            "deny must=[] may=[] erring=[]",
        ),
        // no context is an empty one
        (
            Sent::Json(
                JsonVerb::Ask,
                r#"{"principal": {"type": "U", "id": "a"}, "action": "A::\"x\"", "resource": {"type": "P", "id": "1"}}"#,
            ),
            r#"deny must=[] may=[] erring=["policy0":RecordAttrDoesNotExist]"#,
        ),
        (
            Sent::Json(
                JsonVerb::AskPartial,
                r#"{"principal": {"type": "U", "id": "a"}, "context": {"hour": {"__extn": {"fn": "unknown", "arg": "h"}}}}"#,
            ),
            r#"open must=[] may=["policy0"] erring=[]"#,
        ),
        (
            Sent::Json(JsonVerb::Tell, r#"{"h": 9}"#),
            r#"allow must=["policy0"] may=["policy0"] erring=[]"#,
        ),
        (
            Sent::Json(JsonVerb::Remove, r#"[{"type": "U", "id": "a"}]"#),
            "ok",
        ),
        (
            Sent::Json(
                JsonVerb::Ask,
                r#"{"principal": {"type": "U", "id": "a"}, "action": "A::\"x\"", "resource": {"type": "P", "id": "1"}, "context": {"hour": 9}}"#,
            ),
            "deny must=[] may=[] erring=[]",
        ),
    ];
    assert_eq!(rt; first_other(rt.alloc(), &cases), Ok(None));
}

#[test]
fn links_of_json_are_made_and_go(rt: HostRuntime) {
    let cases = [
        (
            Sent::Cedar(
                Verb::Load,
                "permit(principal == ?principal, action, resource);",
            ),
            r#"ok ["policy0"]"#,
        ),
        (
            Sent::Json(
                JsonVerb::Link,
                r#"{"templateId": "policy0", "newId": "l", "values": {"?principal": {"type": "U", "id": "a"}}}"#,
            ),
            "ok",
        ),
        (
            Sent::Json(
                JsonVerb::Ask,
                r#"{"principal": "U::\"a\"", "action": "A::\"x\"", "resource": "P::\"1\""}"#,
            ),
            r#"allow must=["l"] may=["l"] erring=[]"#,
        ),
        (
            Sent::Json(JsonVerb::RemoveTemplate, r#""policy0""#),
            "refused HasLinks",
        ),
        (Sent::Json(JsonVerb::Unlink, r#""l""#), "ok"),
        (Sent::Json(JsonVerb::RemoveTemplate, r#""policy0""#), "ok"),
        (
            Sent::Json(JsonVerb::RemoveStatic, r#""policy0""#),
            "refused NoSuchPolicy",
        ),
    ];
    assert_eq!(rt; first_other(rt.alloc(), &cases), Ok(None));
}

#[test]
fn what_is_refused_or_not_read_changes_nothing(rt: HostRuntime) {
    let cases = [
        (
            Sent::Cedar(Verb::Load, "permit(principal, action, resource);"),
            r#"ok ["policy0"]"#,
        ),
        // a part is missing; a key is none of an entity's; no JSON
        (
            Sent::Json(JsonVerb::Ask, r#"{"principal": "U::\"a\""}"#),
            "unsaid",
        ),
        (
            Sent::Json(
                JsonVerb::Put,
                r#"[{"uid": {"type": "U", "id": "a"}, "atrs": {}}]"#,
            ),
            "unsaid",
        ),
        (Sent::Json(JsonVerb::Unlink, "l"), "unsaid"),
        // the session refuses these
        (Sent::Json(JsonVerb::Tell, "{}"), "refused NoQuestion"),
        (
            Sent::Json(
                JsonVerb::Add,
                r#"[{"uid": {"type": "U", "id": "a"}, "parents": [{"type": "U", "id": "a"}]}]"#,
            ),
            "refused Cycle",
        ),
        (
            Sent::Json(
                JsonVerb::Ask,
                r#"{"principal": "U::\"a\"", "action": "A::\"x\"", "resource": "P::\"1\"", "context": {"a": {"__extn": {"fn": "f", "arg": 1}}}}"#,
            ),
            "refused Text",
        ),
        (
            Sent::Json(
                JsonVerb::Ask,
                r#"{"principal": "U::\"a\"", "action": "A::\"x\"", "resource": "P::\"1\""}"#,
            ),
            r#"allow must=["policy0"] may=["policy0"] erring=[]"#,
        ),
    ];
    assert_eq!(rt; first_other(rt.alloc(), &cases), Ok(None));
}

/// A string of JSON of so many letters.
fn long_string(alloc: Global, letters: usize) -> Result<String, AllocError> {
    let mut json = String::new(alloc);
    json.push('"')?;
    for _ in 0..letters {
        json.push('a')?;
    }
    json.push('"')?;
    Ok(json)
}

fn is_unlinked(alloc: Global, letters: usize, line: &str) -> Result<bool, AllocError> {
    let mut session = new_session(alloc)?;
    let json = long_string(alloc, letters)?;
    Ok(is_answered(
        alloc,
        &mut session,
        Sent::Json(JsonVerb::Unlink, json.as_str()),
        line,
    ))
}

#[test]
fn bodies_have_a_limit(rt: HostRuntime) {
    // the quotes are two of the body's bytes
    let cases = [(1_048_574, "refused NoSuchPolicy"), (1_048_575, "long")];
    for (letters, line) in cases {
        assert_eq!(rt;
            is_unlinked(rt.alloc(), letters, line),
            Ok(true),
            "{letters}"
        );
    }
}

/// The first line that isn't answered by the one beside it.
fn first_other_line(
    alloc: Global,
    cases: &[(&'static str, &'static str)],
) -> Result<Option<usize>, AllocError> {
    let mut session = new_session(alloc)?;
    let mut scratch = Scratch::new(alloc);
    for (index, (line, answered)) in cases.iter().enumerate() {
        let reply = answer_line(alloc, &mut session, &mut scratch, line);
        if line_text(alloc, line, &reply)?.as_slice() != answered.as_bytes() {
            return Ok(Some(index));
        }
    }
    Ok(None)
}

#[test]
fn lines_are_answered_by_lines(rt: HostRuntime) {
    let cases = [
        (
            r#"{"load": "permit(principal == U::\"a\", action, resource);\nforbid(principal, action, resource) when { context.x };"}"#,
            r#"{"ok":["policy0","policy1"]}"#,
        ),
        (
            r#"{"put": [{"uid": {"type": "U", "id": "a"}}]}"#,
            r#"{"ok":[]}"#,
        ),
        (
            r#"{"ask": {"principal": "U::\"a\"", "action": "A::\"x\"", "resource": "P::\"1\""}}"#,
            r#"{"answer":{"decision":"allow","must":["policy0"],"may":["policy0"],"erring":[{"id":"policy1","kind":"RecordAttrDoesNotExist"}]}}"#,
        ),
        (
            r#" { "askPartial" : {"principal": "U::\"a\"", "context": "unknown"} } "#,
            r#"{"answer":{"decision":"open","must":[],"may":["policy0","policy1"],"erring":[]}}"#,
        ),
        (
            r#"{"tell": {"context": {"x": true}}}"#,
            r#"{"answer":{"decision":"deny","must":["policy1"],"may":["policy1"],"erring":[]}}"#,
        ),
        (r#"{"removeStatic": "policy0"}"#, r#"{"ok":[]}"#),
        (
            r#"{"removeStatic": "policy0"}"#,
            r#"{"refused":"NoSuchPolicy"}"#,
        ),
    ];
    assert_eq!(rt; first_other_line(rt.alloc(), &cases), Ok(None));
}

#[test]
fn what_is_no_command_is_refused(rt: HostRuntime) {
    let cases = [
        (
            "",
            r#"{"refused":"Line","faults":[{"line":1,"column":1,"pointer":"","kind":"NotJson","message":"no JSON here"}]}"#,
        ),
        (
            "[]",
            r#"{"refused":"Line","faults":[{"line":1,"column":1,"pointer":"","kind":"Kind","message":"the line is no object of one command"}]}"#,
        ),
        (
            r#"{"load": "", "ask": {}}"#,
            r#"{"refused":"Line","faults":[{"line":1,"column":1,"pointer":"","kind":"Kind","message":"the line is no object of one command"}]}"#,
        ),
        (
            r#"{"laod": ""}"#,
            r#"{"refused":"Line","faults":[{"line":1,"column":2,"pointer":"/laod","kind":"Key","message":"key \"laod\" is none of load, link, unlink, removeStatic, removeTemplate, add, put, remove, ask, askPartial, tell"}]}"#,
        ),
        (
            r#"{"load": 1}"#,
            r#"{"refused":"Line","faults":[{"line":1,"column":10,"pointer":"/load","kind":"Kind","message":"what stands there is no string"}]}"#,
        ),
        // a key stands twice, wherever it does
        (
            r#"{"tell": {"x": 1, "x": 1}}"#,
            r#"{"refused":"Line","faults":[{"line":1,"column":19,"pointer":"/tell/x","kind":"TwiceKey","message":"key \"x\" stands twice"}]}"#,
        ),
        // what the session refuses has its word alone
        (r#"{"load": "permit"}"#, r#"{"refused":"Text"}"#),
        (r#"{"tell": {}}"#, r#"{"refused":"NoQuestion"}"#),
    ];
    assert_eq!(rt; first_other_line(rt.alloc(), &cases), Ok(None));
}

#[test]
fn faults_of_bodies_stand_in_the_line(rt: HostRuntime) {
    let cases = [
        (
            r#"{"ask": {}}"#,
            r#"{"refused":"Json","faults":[{"line":1,"column":9,"pointer":"/ask","kind":"Missing","message":"key \"principal\" is missing"}]}"#,
        ),
        (
            r#"{"tell": {"é": 1.5}}"#,
            r#"{"refused":"Json","faults":[{"line":1,"column":16,"pointer":"/tell/é","kind":"Float","message":"1.5 is no long: numbers are whole"}]}"#,
        ),
        (
            r#"{"link": {"templateId": "t", "newId": 1, "values": {}}}"#,
            r#"{"refused":"Json","faults":[{"line":1,"column":39,"pointer":"/link/newId","kind":"Kind","message":"what stands there is no string"}]}"#,
        ),
        (
            r#"{"remove": {}}"#,
            r#"{"refused":"Json","faults":[{"line":1,"column":12,"pointer":"/remove","kind":"Kind","message":"what stands there is no list"}]}"#,
        ),
    ];
    assert_eq!(rt; first_other_line(rt.alloc(), &cases), Ok(None));
}

#[test]
fn names_are_escaped_in_lines(rt: HostRuntime) {
    let cases = [
        (
            r#"{"load": "permit(principal == ?principal, action, resource);"}"#,
            r#"{"ok":["policy0"]}"#,
        ),
        (
            r#"{"link": {"templateId": "policy0", "newId": "a\"\\\u0001\n", "values": {"?principal": "U::\"a\""}}}"#,
            r#"{"ok":[]}"#,
        ),
        (
            r#"{"ask": {"principal": "U::\"a\"", "action": "A::\"x\"", "resource": "P::\"1\""}}"#,
            r#"{"answer":{"decision":"allow","must":["a\"\\\u0001\n"],"may":["a\"\\\u0001\n"],"erring":[]}}"#,
        ),
    ];
    assert_eq!(rt; first_other_line(rt.alloc(), &cases), Ok(None));
}
