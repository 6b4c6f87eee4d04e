// How policy sets are printed: their static policies and links, each on lines of its own.
use crate::sets::PolicySet;
use std::fmt;

impl fmt::Display for PolicySet {
    fn fmt<W: fmt::Write>(&self, f: &mut fmt::Formatter<W>) -> fmt::Result {
        let mut policies = self.policies();
        let Some(first) = policies.next() else {
            return Ok(());
        };
        write!(f, "{first}")?;
        for policy in policies {
            write!(f, "\n{policy}")?;
        }
        Ok(())
    }
}
