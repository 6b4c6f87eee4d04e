// Conditions over a schema that a text is.
use crate::{BoundTypes, NoFunctions, SchemaNameError, SchemaTypes, is_condition_valid};
use cedar_literals::literals::Literal;
use cedar_literals::variables::Var;
use cedar_schema_resolution::Declarations;
use cedar_schema_text::parse_schema;
use cedar_trees::expr::Expr;
use cedar_validator_schema::ValidatorSchema;
use std::alloc::{AllocError, Global};
use std::rc::RcStr;
use std::test::Fail;

const PHOTOS: &str = "entity User { age: Long, nick?: String }; entity Photo; \
    action view appliesTo { principal: User, resource: [Photo, User] };";

/// A condition.
#[derive(Clone, Copy)]
enum Condition {
    True,
    One,
    SameEntity,
    OfAge,
    Nick,
    ResourceAge,
}

fn attribute(alloc: Global, of: Var, name: &str) -> Result<Expr, AllocError> {
    Expr::get_attr(alloc, Expr::var(of), RcStr::from_str(alloc, name)?)
}

fn expr_of(alloc: Global, condition: Condition) -> Result<Expr, AllocError> {
    match condition {
        Condition::True => Ok(Expr::val(Literal::Bool(true))),
        Condition::One => Ok(Expr::val(Literal::Long(1))),
        Condition::SameEntity => {
            Expr::is_eq(alloc, Expr::var(Var::Principal), Expr::var(Var::Resource))
        }
        Condition::OfAge => {
            let age = attribute(alloc, Var::Principal, "age")?;
            Expr::less(alloc, Expr::val(Literal::Long(18)), age)
        }
        Condition::Nick => {
            let nick = attribute(alloc, Var::Principal, "nick")?;
            Expr::is_eq(
                alloc,
                nick,
                Expr::val(Literal::String(RcStr::from_str(alloc, "a")?)),
            )
        }
        Condition::ResourceAge => {
            let age = attribute(alloc, Var::Resource, "age")?;
            Expr::less(alloc, age, Expr::val(Literal::Long(18)))
        }
    }
}

fn schema_of(alloc: Global, text: &str) -> Result<Option<ValidatorSchema>, AllocError> {
    let Ok(syntax) = parse_schema(alloc, text, 16) else {
        return Ok(None);
    };
    let declared = Declarations::from_syntax(alloc, &syntax)?;
    Ok(ValidatorSchema::from_declarations(alloc, &declared, &[]).ok())
}

/// Whether a condition is valid by the schema that a text is; none where it is no schema, or where no answer is given.
fn is_valid(alloc: Global, condition: Condition, depth: u32) -> Result<Option<bool>, AllocError> {
    let Some(schema) = schema_of(alloc, PHOTOS)? else {
        return Ok(None);
    };
    let Ok(types) = SchemaTypes::new(alloc, schema) else {
        return Ok(None);
    };
    let unbound = BoundTypes {
        principal: None,
        resource: None,
    };
    let expr = expr_of(alloc, condition)?;
    Ok(is_condition_valid(&types, &NoFunctions, alloc, &expr, &unbound, depth).ok())
}

#[test]
fn conditions_are_valid_by_a_schema(rt: HostRuntime) -> Result<(), Fail> {
    let cases = [
        ("a Boolean", Condition::True, 9, Some(true)),
        ("a long", Condition::One, 9, Some(false)),
        ("two entities", Condition::SameEntity, 9, Some(true)),
        ("a declared attribute", Condition::OfAge, 9, Some(true)),
        ("an optional one", Condition::Nick, 9, Some(false)),
        (
            "not of each resource",
            Condition::ResourceAge,
            9,
            Some(false),
        ),
        ("too deep", Condition::OfAge, 2, None),
    ];
    for (shows, condition, depth, wanted) in cases {
        assert_eq!(rt; is_valid(rt.alloc(), condition, depth)?, wanted, "{shows}");
    }
    Ok(())
}

#[test]
fn names_that_no_policy_can_write_are_told(rt: HostRuntime) -> Result<(), Fail> {
    let told = match schema_of(rt.alloc(), "entity __cedar;")? {
        Some(schema) => matches!(
            SchemaTypes::new(rt.alloc(), schema),
            Err(SchemaNameError::UnwritableName(_))
        ),
        None => false,
    };
    assert!(rt; told);
    Ok(())
}

#[test]
fn requests_are_listed_by_their_types(rt: HostRuntime) -> Result<(), Fail> {
    let count = match schema_of(rt.alloc(), PHOTOS)? {
        Some(schema) => match SchemaTypes::new(rt.alloc(), schema) {
            Ok(types) => Some(types.request_types(rt.alloc())?.len()),
            Err(_) => None,
        },
        None => None,
    };
    // (a user views a photo, or a user)
    assert_eq!(rt; count, Some(2));
    Ok(())
}
