//! Cedar's types `ipaddr` and `datetime` in policies, and a function of the caller's own beside theirs: a session knows
//! both by one table. Whoever is of an organization reads its documents, from its network, until they are closed.
#![tactic(auto)]

ghost use Rattle.std.specs.Prelude.{◌≡◌, ◌≤◌, length, IfOk, true};
ghost use Rattle.cedar_expressions.specs.Holding.{extension_functions, are_named};
ghost use Rattle.cedar_frames.specs.Heads.{body_limit};
ghost use Rattle.cedar_session.specs.Commands.{command_text};

mod mail;

use crate::mail::Domain;
use anyhow::Result;
use cedar_expressions::ast::{CallStyle, Extension, ExtensionFunction, Name};
use cedar_expressions::entities::SchemaType;
use cedar_extension_types::TypeFunction;
use cedar_extension_types::tables::{standard_extensions, unknown_extension};
use cedar_session::{Command, Extensions, Session, line_in_memory};
use std::alloc::Global;

/// How deep texts may nest, and evaluations may go.
const DEPTH: u32 = 256;

/// They stand under `policy0` and `policy1`.
const POLICIES: &str = r#"
permit(principal, action == Action::"read", resource)
when {
    domain(principal.mail) == domain(resource.owner) &&
    ip(context.from).isInRange(ip("10.0.0.0/8"))
};

forbid(principal, action, resource)
when { datetime(context.now) >= resource.closes };
"#;

const ENTITIES: &str = r#"
[{uid: User::"alice", attrs: {mail: "alice@example.com"}},
 {uid: User::"bob", attrs: {mail: "bob"}},
 {uid: Doc::"plan", attrs: {owner: "carol@example.com", closes: datetime("2026-12-01")}}]
"#;

const INSIDE: &str = r#"
{principal: User::"alice", action: Action::"read", resource: Doc::"plan",
 context: {from: "10.1.2.3", now: "2026-11-30T23:59:59Z"}}
"#;

const OUTSIDE: &str = r#"
{principal: User::"alice", action: Action::"read", resource: Doc::"plan",
 context: {from: "11.1.2.3", now: "2026-11-30T23:59:59Z"}}
"#;

/// It is the instant at which the document is closed, in another zone.
const CLOSED: &str = r#"
{principal: User::"alice", action: Action::"read", resource: Doc::"plan",
 context: {from: "10.1.2.3", now: "2026-12-01T01:00:00+0100"}}
"#;

/// `ip` has no answer for this text, so that the policy errs.
const NO_ADDRESS: &str = r#"
{principal: User::"alice", action: Action::"read", resource: Doc::"plan",
 context: {from: "10.1.2.300", now: "2026-11-30T23:59:59Z"}}
"#;

/// Bob's mail has no `@`, so that `domain` has no answer.
const NO_MAIL: &str = r#"
{principal: User::"bob", action: Action::"read", resource: Doc::"plan",
 context: {from: "10.1.2.3", now: "2026-11-30T23:59:59Z"}}
"#;

/// Where it comes from is told later.
const UNKNOWN: &str = r#"
{principal: User::"alice", action: Action::"read", resource: Doc::"plan",
 context: {from: unknown("from"), now: "2026-11-30T23:59:59Z"}}
"#;

const TOLD: &str = r#"{from: "10.1.2.3"}"#;

fn main(rt: HostRuntime) -> Result<()> {
    let extensions = make_table(rt.alloc())?;
    let mut session = Session::new(rt.alloc(), &extensions, DEPTH)?;
    give(&rt, &mut session, "policies", Command::Load(POLICIES))?;
    give(&rt, &mut session, "entities", Command::Put(ENTITIES))?;
    give(&rt, &mut session, "inside", Command::Ask(INSIDE))?;
    give(&rt, &mut session, "outside", Command::Ask(OUTSIDE))?;
    give(&rt, &mut session, "closed", Command::Ask(CLOSED))?;
    give(&rt, &mut session, "no address", Command::Ask(NO_ADDRESS))?;
    give(&rt, &mut session, "no mail", Command::Ask(NO_MAIL))?;
    give(&rt, &mut session, "unknown", Command::Ask(UNKNOWN))?;
    give(&rt, &mut session, "told", Command::Tell(TOLD))
}

/// The table of Cedar's types, of the built-in `unknown`, and of `domain`.
#[tactic(auto, using(crate::proofs::Table::added))]
fn make_table<'a>(alloc: Global) -> Result<Extensions<'a, TypeFunction<Domain>>> {
    let mut extensions = standard_extensions(alloc)?;
    extensions.push(unknown_extension(alloc)?)?;
    extensions.push(mail_extension(alloc)?)?;
    Ok(Extensions::specific_extensions(alloc, extensions)?)
}

/// The extension of `domain`, a function of one text whose answers are texts.
fn mail_extension(alloc: Global) -> Result<Extension<TypeFunction<Domain>>>
    ensures { IfOk result (λ extension. are_named (extension_functions extension) ≡ true) }
{
    let domain = ExtensionFunction::unary(
        alloc,
        Name::parse_unqualified_name(alloc, "domain")?,
        CallStyle::FunctionStyle,
        TypeFunction::Own(Domain),
        SchemaType::String,
        SchemaType::String,
    )?;
    let name = Name::parse_unqualified_name(alloc, "mail")?;
    Ok(Extension::new(name, vec![in alloc; domain]?, Vec::new(alloc)))
}

/// Gives a command, and prints the line that a run would answer.
fn give(
    rt: &HostRuntime,
    session: &mut Session<'_, '_, TypeFunction<Domain>>,
    shown: &str,
    command: Command<'_>,
) -> Result<()>
    requires { length (command_text command) ≤ body_limit }
{
    let line = line_in_memory(rt.alloc(), &session.apply(&command))?;
    print!(rt; "{shown}: {}", str::from_utf8(line.as_slice())?)?;
    Ok(())
}
