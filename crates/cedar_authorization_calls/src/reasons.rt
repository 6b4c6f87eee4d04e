// Why policies err, in words, which are only tested.
use cedar_evaluator::AuthorizationError;
use cedar_policy_parts::PolicyID;
use cedar_replies::ErrorKind;
use cedar_session::{EvaluationError, ExtensionFunctionObject, Session};
use std::alloc::{AllocError, Global};
use std::collections::BTreeMap;

/// Why policies err in a session's open question.
pub(crate) struct Reasons<'r> {
    errors: &'r [AuthorizationError],
    /// The number of each policy's error.
    by_id: BTreeMap<PolicyID, usize>,
}

impl Drop for Reasons<'_> {
    fn drop(self) {
        let Reasons {
            errors: _errors,
            by_id: _by_id,
        } = self;
    }
}

impl<'r> Reasons<'r> {
    pub(crate) fn of<F: ExtensionFunctionObject>(
        alloc: Global,
        session: &'r Session<'_, '_, F>,
    ) -> Result<Reasons<'r>, AllocError> {
        let errors = match session.response() {
            Some(response) => response.errors.as_slice(),
            None => &[],
        };
        let mut by_id = BTreeMap::new(alloc);
        for (number, error) in errors.iter().enumerate() {
            let AuthorizationError::PolicyEvaluationError { id, error: _ } = error;
            by_id.insert(id.clone()?, number)?;
        }
        Ok(Reasons { errors, by_id })
    }

    /// Why the policy of this id errs.
    fn error(&self, id: &PolicyID) -> Option<&EvaluationError> {
        let number = self.by_id.get(id)?;
        let AuthorizationError::PolicyEvaluationError { id: _, error } = self.errors.get(*number)?;
        Some(error)
    }

    /// That the policy of this name and this id errs, and why.
    pub(crate) fn words(
        &self,
        alloc: Global,
        name: &str,
        id: &PolicyID,
        kind: ErrorKind,
    ) -> Result<String, AllocError> {
        match self.error(id) {
            Some(error) => format!(in alloc; "error while evaluating policy `{name}`: {error}"),
            None => format!(in alloc; "error while evaluating policy `{name}`: {}", kind.name()),
        }
    }
}
