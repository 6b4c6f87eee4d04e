// Texts of schemas, and the faults that are told of what they declare.

use crate::{
    ActionNumbers, CommonTypes, SchemaError, SchemaNames, action_cycle, tell_duplicates,
    tell_reserved_namespaces,
};
use cedar_names::texts::SharedText;
use cedar_schema_resolution::{Declarations, EntityNames, ExtensionType};
use cedar_schema_syntax::SchemaSyntax;
use cedar_schema_text::parse_schema;
use std::alloc::{AllocError, Global};
use std::rc::RcStr;
use std::test::Fail;

/// What a text shows, the text, and its faults: each with its place, and a line of its own.
const ROWS: [(&str, &str, &str); 36] = [
    ("a type that is declared", "entity A { x: A };", ""),
    (
        "a type that is not",
        "entity A { x: B };",
        "14: failed to resolve type `B`\n",
    ),
    (
        "a type in a set",
        "type T = Set<{ x: B }>;",
        "18: failed to resolve type `B`\n",
    ),
    (
        "tags of a type that is not",
        "entity A tags B;",
        "14: failed to resolve type `B`\n",
    ),
    (
        "a type of another namespace",
        "namespace N { entity B; } entity A { x: B };",
        "40: failed to resolve type `B`\n",
    ),
    (
        "that type by its path",
        "namespace N { entity B; } entity A { x: N::B };",
        "",
    ),
    ("an extension type", "entity A { x: decimal };", ""),
    (
        "no extension type",
        "entity A { x: duration };",
        "14: failed to resolve type `duration`\n",
    ),
    (
        "a parent that is declared",
        "entity B; entity A in [B];",
        "",
    ),
    (
        "a parent that is not",
        "entity A in [B];",
        "13: failed to resolve type `B`\n",
    ),
    (
        "a parent that is a common type",
        "type T = Long; entity A in [T];",
        "28: failed to resolve type `T`\n",
    ),
    ("a group that is declared", "action a in [b]; action b;", ""),
    (
        "common types in a row",
        "type A = Set<B>; type B = Long;",
        "",
    ),
    (
        "common types in a circle",
        "type A = Set<B>; type B = A;",
        "5: cycle in common type references involving `A`\n",
    ),
    (
        "one that reaches a circle",
        "type A = B; type B = B;",
        "17: cycle in common type references involving `B`\n",
    ),
    (
        "groups in a row",
        "action a in [b]; action b in [c]; action c;",
        "",
    ),
    (
        "groups in a circle",
        "action a in [b]; action b in [a];",
        "7: cycle in action hierarchy containing `Action::\"a\"`\n",
    ),
    (
        "an action in itself",
        "namespace N { action a in [a]; }",
        "21: cycle in action hierarchy containing `N::Action::\"a\"`\n",
    ),
    (
        "entity types in a circle",
        "entity A in [B]; entity B in [A];",
        "",
    ),
    (
        "an entity type twice",
        "entity A; entity B, A;",
        "7: duplicate entity type `A`\n",
    ),
    (
        "an entity type three times",
        "entity A, A, A;",
        "7: duplicate entity type `A`\n10: duplicate entity type `A`\n",
    ),
    (
        "a common type twice",
        "type T = Long; type T = Bool;",
        "5: duplicate common type `T`\n",
    ),
    (
        "an action twice",
        "action a, a;",
        "7: duplicate action `Action::\"a\"`\n",
    ),
    (
        "one name in two namespaces",
        "namespace M { entity A; action a; } namespace N { entity A; action a; }",
        "",
    ),
    (
        "an attribute twice",
        "entity A { x: Long, y: Bool, x: Bool };",
        "11: duplicate attribute `x`\n",
    ),
    (
        "an attribute within its like",
        "entity A { x: { x: Long } };",
        "",
    ),
    (
        "a type that shadows",
        "entity A; namespace N { type A = Long; }",
        "29: `N::A` would shadow an existing type of no namespace\n",
    ),
    (
        "the type of actions",
        "entity Action;",
        "7: entity type `Action` declared: `Action` is the type of actions\n",
    ),
    ("a type named alike", "entity Actions;", ""),
    (
        "a common type that is built in",
        "type Entity = {};",
        "5: `Entity` is reserved and can't be declared as a type\n",
    ),
    ("an entity type of such a name", "entity Entity;", ""),
    (
        "an entity type `__cedar`",
        "entity __cedar;",
        "7: `__cedar` is reserved and can't be declared as a type\n",
    ),
    (
        "a namespace `__cedar`",
        "namespace N::__cedar {}",
        "10: the name `N::__cedar` contains `__cedar`, which is reserved\n",
    ),
    ("a namespace named alike", "namespace cedar {}", ""),
    ("an enumeration", "entity A enum [\"a\"];", ""),
    (
        "a type `__cedar`",
        "type __cedar = Long;",
        "5: `__cedar` is reserved and can't be declared as a type\n",
    ),
];

fn extensions(alloc: Global) -> Result<Vec<ExtensionType>, AllocError> {
    let mut extensions = Vec::new(alloc);
    extensions.push(ExtensionType {
        name: SharedText::new(RcStr::from_str(alloc, "decimal")?),
        is_ordered: true,
    })?;
    Ok(extensions)
}

/// The numbers of what are actions; one that is within itself is told.
fn actions_of(
    alloc: Global,
    declared: &Declarations<'_>,
    told: &mut Vec<SchemaError>,
) -> Result<ActionNumbers, AllocError> {
    let declared_actions = declared.actions.as_slice();
    let actions = ActionNumbers::of(alloc, declared_actions)?;
    if let Some(cycle) = action_cycle(alloc, declared_actions, &actions)? {
        told.push(cycle)?;
    }
    Ok(actions)
}

/// The names of what is declared; what is within itself is told.
fn names_of(
    alloc: Global,
    declared: &Declarations<'_>,
    told: &mut Vec<SchemaError>,
) -> Result<SchemaNames, AllocError> {
    let CommonTypes { table, cycle } = CommonTypes::of(alloc, declared, &extensions(alloc)?)?;
    let is_resolved = cycle.is_none();
    if let Some(cycle) = cycle {
        told.push(cycle)?;
    }
    Ok(SchemaNames {
        table,
        is_resolved,
        entities: EntityNames::of(alloc, &declared.entities)?,
        actions: actions_of(alloc, declared, told)?,
    })
}

/// The faults of a schema, but for those of what actions apply to and are in.
fn told_of(alloc: Global, schema: &SchemaSyntax) -> Result<Vec<SchemaError>, AllocError> {
    let mut told = Vec::new(alloc);
    let declared = Declarations::from_syntax(alloc, schema)?;
    let names = names_of(alloc, &declared, &mut told)?;
    tell_reserved_namespaces(alloc, &schema.namespaces, &mut told)?;
    tell_duplicates(alloc, &declared, &mut told)?;
    names.tell_entities(alloc, &declared.entities, &mut told)?;
    names.tell_common_types(alloc, &declared.types, &mut told)?;
    Ok(told)
}

/// The lines of a text's faults, or that it isn't read.
fn lines_of(alloc: Global, text: &str) -> Result<String, AllocError> {
    let Ok(schema) = parse_schema(alloc, text, 100) else {
        return format!(in alloc; "not read");
    };
    let mut lines = String::new(alloc);
    for error in &told_of(alloc, &schema)? {
        lines.push_str(&format!(in alloc; "{}: {error}\n", error.place)?)?;
    }
    Ok(lines)
}

#[test]
fn faults_are_told(rt: HostRuntime) -> Result<(), Fail> {
    for (shows, text, wanted) in ROWS {
        assert_eq!(rt; lines_of(rt.alloc(), text)?.as_str(), wanted, "{shows}");
    }
    Ok(())
}
