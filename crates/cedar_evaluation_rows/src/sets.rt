// Policy sets that are read from texts, their edits, and how one is merged into another.
use crate::entities::user;
use cedar_extensions::extensions::Extensions;
use cedar_literals::slots::SlotId;
use cedar_parser::ExtStyles;
use cedar_parser::prelude::StylesOfExtensions;
use cedar_parser::strict::parse_policyset_strict;
use cedar_policies::policies::Policy;
use cedar_policy_parts::bindings::SlotEnv;
use cedar_policy_parts::{Effect, PolicyID};
use cedar_policy_set::errors::PolicySetGetLinksError;
use cedar_policy_set::listing::LinkedPolicies;
use cedar_policy_set::sets::PolicySet;
use cedar_rows::{Answer, append, no_case, refused, said, tell};
use cedar_store::ast::{Renaming, renaming_of};
use cedar_store::prelude::Merging;
use cedar_trees::expr::Expr;
use std::alloc::Global;
use std::fmt::Display;
use std::mem;

/// The set at hand, and the one that is merged into it.
pub(crate) struct Sets {
    pub(crate) set: PolicySet,
    theirs: PolicySet,
}

impl Drop for Sets {
    fn drop(self) {
        let Sets { set: _, theirs: _ } = self;
    }
}

pub(crate) fn none(alloc: Global) -> Sets {
    Sets {
        set: PolicySet::new(alloc),
        theirs: PolicySet::new(alloc),
    }
}

/// Reads the text of policies, which may call `unknown`, in place of those that were read before, and answers how many
/// there are.
pub(crate) fn read(alloc: Global, text: &str, table: &Extensions<'_>, held: &mut Sets) -> Answer {
    let styles = ExtStyles::from_extensions(alloc, table)?;
    match parse_policyset_strict(alloc, text, &styles, 64) {
        Ok(policies) => {
            held.set = policies;
            tell(alloc, held.set.len())
        }
        Err(errors) => refused(alloc, errors.clone(alloc)?),
    }
}

/// How many ids are bound after an edit, or why there was none.
fn done<E: Display + Drop>(alloc: Global, set: &PolicySet, found: Result<(), E>) -> Answer {
    match found {
        Ok(()) => tell(alloc, set.len()),
        Err(error) => refused(alloc, error),
    }
}

/// The id of what was taken out.
fn taken<E: Display + Drop>(alloc: Global, policy: Result<Policy, E>) -> Answer {
    match policy {
        Ok(policy) => policy.id().to_string(alloc),
        Err(error) => refused(alloc, error),
    }
}

/// Links a template that has the principal's slot to a user, under this id.
fn linked(alloc: Global, template: PolicyID, id: &str, set: &mut PolicySet) -> Answer {
    let Ok(uid) = user(alloc, id) else {
        return no_case(alloc);
    };
    let mut values = SlotEnv::new();
    values.insert(SlotId::principal(), uid);
    let id = PolicyID::from_string(alloc, id)?;
    let found = set.link(alloc, template, id, values);
    done(alloc, set, found)
}

/// Adds the permit whose one clause is the expression on top.
fn made(alloc: Global, id: PolicyID, exprs: &mut Vec<Expr>, set: &mut PolicySet) -> Answer {
    let Some(when) = exprs.pop() else {
        return no_case(alloc);
    };
    let policy = Policy::from_when_clause(alloc, Effect::Permit, when, id, None)?;
    let found = set.add(alloc, policy);
    done(alloc, set, found)
}

fn links(alloc: Global, links: Result<LinkedPolicies<'_>, PolicySetGetLinksError>) -> Answer {
    let mut text = String::new(alloc);
    match links {
        Ok(links) => {
            for id in links {
                append(&mut text, id.to_string(alloc))?;
            }
            Ok(text)
        }
        Err(error) => refused(alloc, error),
    }
}

/// The set at hand is edited by ids.
pub(crate) fn edit(
    alloc: Global,
    verb: &str,
    one: &str,
    other: &str,
    exprs: &mut Vec<Expr>,
    held: &mut Sets,
) -> Answer {
    let set = &mut held.set;
    let id = PolicyID::from_string(alloc, one)?;
    match verb {
        "clause" => made(alloc, id, exprs, set),
        "link" => linked(alloc, id, other, set),
        "unlink" => taken(alloc, set.unlink(&id)),
        "remove-static" => taken(alloc, set.remove_static(&id)),
        "remove-template" => match set.remove_template(&id) {
            Ok(template) => template.id().to_string(alloc),
            Err(error) => refused(alloc, error),
        },
        "linked" => links(alloc, set.get_linked_policies(&id)),
        "index" => {
            set.index_scopes(alloc)?;
            tell(alloc, set.scopes().len())
        }
        _ => no_case(alloc),
    }
}

/// What the set at hand is asked; or it takes the place of the other one.
pub(crate) fn ask(alloc: Global, verb: &str, table: &Extensions<'_>, held: &mut Sets) -> Answer {
    match verb {
        "swap" => {
            mem::swap(&mut held.set, &mut held.theirs);
            tell(alloc, held.set.len())
        }
        "show" => held.set.clone(alloc)?.to_string(alloc),
        "equal" => said(alloc, held.set == held.theirs),
        "validate" => match held.set.try_validate(alloc, table) {
            Ok(()) => tell(alloc, held.set.len()),
            Err(error) => refused(alloc, error.clone(alloc)?),
        },
        _ => no_case(alloc),
    }
}

/// Each id that is renamed, with its new one.
fn renamed<E: Display + Drop>(alloc: Global, renaming: Result<Renaming, E>) -> Answer {
    let renaming = match renaming {
        Ok(renaming) => renaming,
        Err(error) => return refused(alloc, error),
    };
    let mut text = String::new(alloc);
    for (old, new) in renaming.iter() {
        write!(text, "{old} to {new};")?;
    }
    Ok(text)
}

/// The other set is merged into the one at hand.
pub(crate) fn merge(alloc: Global, verb: &str, held: &mut Sets) -> Answer {
    let Sets { set, theirs } = held;
    match verb {
        "renaming" => renamed(alloc, renaming_of(alloc, set, theirs)),
        "merge" => renamed(alloc, set.merge_policyset(alloc, theirs, true)),
        "merge-as-named" => renamed(alloc, set.merge_policyset(alloc, theirs, false)),
        _ => no_case(alloc),
    }
}
