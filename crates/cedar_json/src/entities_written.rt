// Entities of JSON as Cedar texts.
ghost use Rattle.std.specs.Prelude.{Some, codes, option_map};
ghost use Rattle.json.specs.Json.{object};
ghost use Rattle.json.specs.Value.{value_view, items_view, members_view};
ghost use Rattle.cedar_json.specs.Appended.{Appends};
ghost use Rattle.cedar_json.specs.Entities.{under};
ghost use Rattle.cedar_json.specs.EntitiesWritten.{entity_written, each_written, parents_written, uid_part, fields_written, body_written, one_written, bodies_written, entities_written};
ghost use Rattle.cedar_json.specs.Parts.{part_written};

use crate::writing::{Members, find, write_key, write_uid, write_value};
use json::Value;
use std::alloc::AllocError;

/// Appends an entity, which perhaps stands under `__entity`.
pub fn write_entity(out: &mut String, value: &Value<'_>) -> Result<(), AllocError>
    ensures { Appends result out.old out.new (entity_written (value_view value.now)) }
{
    let Value::Object(members) = value else {
        return Ok(());
    };
    if members.len() != 1 {
        return write_uid(out, value);
    }
    write_uid(out, &members[0].1)
}

fn write_entities_of(out: &mut String, items: &Vec<Value<'_>>) -> Result<(), AllocError>
    ensures { Appends result out.old out.new (each_written (items_view items.now.items)) }
{
    for item in items {
        write_entity(out, item)?;
        out.push(',')?;
    }
    out.push(']')
}

fn write_uid_found(out: &mut String, found: Option<&Value<'_>>) -> Result<(), AllocError>
    ensures { Appends result out.old out.new (uid_part (option_map (λ value. value_view value.now) found.entry)) }
{
    match found {
        Some(value) => write_entity(out, value),
        None => Ok(()),
    }
}

/// Appends a list of entities.
pub fn write_parents_of(out: &mut String, value: &Value<'_>) -> Result<(), AllocError>
    ensures { Appends result out.old out.new (parents_written (Some (value_view value.now))) }
{
    match value {
        Value::Array(items) => {
            out.push('[')?;
            write_entities_of(out, items)
        }
        _ => out.push_str("[]"),
    }
}

fn write_parents_found(out: &mut String, found: Option<&Value<'_>>) -> Result<(), AllocError>
    ensures { Appends result out.old out.new (parents_written (option_map (λ value. value_view value.now) found.entry)) }
{
    match found {
        Some(value) => write_parents_of(out, value),
        None => out.push_str("[]"),
    }
}

fn write_fields_found(out: &mut String, found: Option<&Value<'_>>) -> Result<(), AllocError>
    ensures { Appends result out.old out.new (fields_written (option_map (λ value. value_view value.now) found.entry)) }
{
    match found {
        Some(value) => write_value(out, value),
        None => out.push_str("{}"),
    }
}

fn write_uid_part(out: &mut String, members: &Members<'_>) -> Result<(), AllocError>
    ensures { Appends result out.old out.new
        (part_written (codes "uid") (uid_part (under (codes "uid") (members_view members.now.items)))) }
{
    write_key(out, "uid")?;
    write_uid_found(out, find(members, "uid"))?;
    out.push(',')
}

fn write_parents(out: &mut String, members: &Members<'_>) -> Result<(), AllocError>
    ensures { Appends result out.old out.new
        (part_written (codes "parents") (parents_written (under (codes "parents") (members_view members.now.items)))) }
{
    write_key(out, "parents")?;
    write_parents_found(out, find(members, "parents"))?;
    out.push(',')
}

/// Appends the object of values under a key; where none stands there, an empty one.
pub fn write_fields(out: &mut String, members: &Members<'_>, key: &str) -> Result<(), AllocError>
    ensures { Appends result out.old out.new
        (part_written key.now (fields_written (under key.now (members_view members.now.items)))) }
{
    write_key(out, key)?;
    write_fields_found(out, find(members, key))?;
    out.push(',')
}

fn write_body(out: &mut String, members: &Members<'_>) -> Result<(), AllocError>
    ensures { Appends result out.old out.new (body_written (members_view members.now.items)) }
{
    out.push('{')?;
    write_uid_part(out, members)?;
    write_parents(out, members)?;
    write_fields(out, members, "attrs")?;
    write_fields(out, members, "tags")?;
    out.push('}')
}

/// Appends an entity with all of its parts.
pub fn write_one(out: &mut String, value: &Value<'_>) -> Result<(), AllocError>
    ensures { Appends result out.old out.new (one_written (value_view value.now)) }
{
    match value {
        Value::Object(members) => write_body(out, members),
        _ => Ok(()),
    }
}

fn write_bodies(out: &mut String, items: &Vec<Value<'_>>) -> Result<(), AllocError>
    ensures { Appends result out.old out.new (bodies_written (items_view items.now.items)) }
{
    for item in items {
        write_one(out, item)?;
        out.push(',')?;
    }
    out.push(']')
}

/// Appends a list of entities, each with all of its parts.
pub fn write_entities(out: &mut String, value: &Value<'_>) -> Result<(), AllocError>
    ensures { Appends result out.old out.new (entities_written (value_view value.now)) }
{
    match value {
        Value::Array(items) => {
            out.push('[')?;
            write_bodies(out, items)
        }
        _ => Ok(()),
    }
}
