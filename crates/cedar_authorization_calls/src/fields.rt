// The members of the objects of a call.
use crate::errors::{CallError, Source};
use crate::parts::{Member, Part};

/// An object, the keys of which are among those that belong there, each once at most.
#[derive(Drop)]
pub(crate) struct Fields<'j> {
    members: Vec<Member<'j>>,
    /// The byte at which the object begins.
    start: usize,
}

impl<'j> Fields<'j> {
    /// The members of an object that is called so.
    pub(crate) fn of(
        source: Source<'j>,
        part: &Part<'j>,
        name: &str,
        keys: &[&str],
    ) -> Result<Fields<'j>, CallError> {
        if !part.is_object() {
            let words = format!(in source.alloc; "{name} is no object")?;
            return Err(source.unread(part.start, "Kind", words.as_str()));
        }
        let members = part.members(source.alloc)?;
        check_keys(source, members.as_slice(), keys)?;
        Ok(Fields {
            members,
            start: part.start,
        })
    }

    /// Takes what stands under a key out, if anything does.
    pub(crate) fn take(&mut self, key: &str) -> Option<Part<'j>> {
        let at = self
            .members
            .iter()
            .position(|member| member.key.as_str() == key)?;
        if at >= self.members.len() {
            return None;
        }
        Some(self.members.swap_remove(at).value)
    }

    /// Takes what has to stand under a key out.
    pub(crate) fn require(&mut self, source: Source<'j>, key: &str) -> Result<Part<'j>, CallError> {
        match self.take(key) {
            Some(part) => Ok(part),
            None => {
                let words = format!(in source.alloc; "key {key:?} is missing")?;
                Err(source.unread(self.start, "Missing", words.as_str()))
            }
        }
    }
}

/// Refuses the first member whose key is none of these, or that of one before it.
fn check_keys(source: Source<'_>, members: &[Member<'_>], keys: &[&str]) -> Result<(), CallError> {
    let mut met = Vec::new(source.alloc);
    for member in members {
        let key = member.key.as_str();
        if !keys.iter().any(|it| *it == key) {
            let keys = listed(source, keys)?;
            let words = format!(in source.alloc; "key {key:?} is none of {}", keys.as_str())?;
            return Err(source.unread(member.key_start, "Key", words.as_str()));
        }
        // (so many are met as there are keys at most)
        if met.iter().any(|it: &&str| *it == key) {
            let words = format!(in source.alloc; "key {key:?} stands twice")?;
            return Err(source.unread(member.key_start, "TwiceKey", words.as_str()));
        }
        met.push(key)?;
    }
    Ok(())
}

/// Keys with commas between.
fn listed(source: Source<'_>, keys: &[&str]) -> Result<String, CallError> {
    let mut told = String::new(source.alloc);
    for (number, key) in keys.iter().enumerate() {
        if number > 0 {
            told.push_str(", ")?;
        }
        told.push_str(*key)?;
    }
    Ok(told)
}
