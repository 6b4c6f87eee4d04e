// How policies are printed: as texts of the language, and links by their parts.
use crate::policies::Policy;
use std::fmt;

/// A link is named by its template and the entities of its slots.
impl fmt::Display for Policy {
    fn fmt<W: fmt::Write>(&self, f: &mut fmt::Formatter<W>) -> fmt::Result {
        let template = self.template();
        if self.is_static() {
            return write!(f, "{template}");
        }
        let id = template.id();
        let bindings = self.env();
        write!(f, "Template Instance of {id}, slots: [{bindings}]")
    }
}
