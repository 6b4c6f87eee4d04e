// How policies and templates are printed: as texts of the language.
use crate::bodies::TemplateBody;
use crate::static_policies::StaticPolicy;
use crate::templates::Template;
use std::fmt;

impl fmt::Display for TemplateBody {
    fn fmt<W: fmt::Write>(&self, f: &mut fmt::Formatter<W>) -> fmt::Result {
        let annotations = self.annotations();
        let effect = self.effect();
        let principal = self.principal_constraint();
        let action = self.action_constraint();
        let resource = self.resource_constraint();
        write!(
            f,
            "{annotations}{effect}(\n  {principal},\n  {action},\n  {resource}\n)"
        )?;
        match self.non_scope_constraints() {
            None => write!(f, ";"),
            Some(expr) => write!(f, " when {{\n  {expr}\n}};"),
        }
    }
}

impl fmt::Display for Template {
    fn fmt<W: fmt::Write>(&self, f: &mut fmt::Formatter<W>) -> fmt::Result {
        fmt::Display::fmt(self.body(), f)
    }
}

impl fmt::Display for StaticPolicy {
    fn fmt<W: fmt::Write>(&self, f: &mut fmt::Formatter<W>) -> fmt::Result {
        fmt::Display::fmt(self.body(), f)
    }
}
