// What follows a test as it runs.

use crate::covering::Coverage;
use crate::past::Past;
use cedar_extensions::objects::ExtensionFunctionObject;
use cedar_scripts::Step;
use cedar_session::{Extensions, Refusal, Reply, Session};
use std::alloc::{AllocError, Global};

/// Follows the commands of a test of a script, and adds their answers to a coverage, where one is gathered.
#[derive(Drop)]
pub(crate) struct Witness<'c, 't> {
    pub(crate) script: &'t str,
    coverage: Option<&'c mut Coverage>,
    past: Past<'t>,
}

impl<'c, 't> Witness<'c, 't> {
    /// One of a test of the script that is named so, which has seen nothing. Refused for memory alone.
    pub(crate) fn of(
        alloc: Global,
        script: &'t str,
        coverage: Option<&'c mut Coverage>,
    ) -> Result<Witness<'c, 't>, AllocError> {
        Ok(Witness {
            script,
            coverage,
            past: Past::new(alloc, script)?,
        })
    }

    /// Sees what the session answers a command. Refused for memory alone.
    pub(crate) fn see<F: ExtensionFunctionObject>(
        &mut self,
        alloc: Global,
        extensions: &Extensions<'_, F>,
        session: &Session<'_, '_, F>,
        step: &'t Step,
        outcome: &Result<Reply, Refusal>,
    ) -> Result<(), AllocError> {
        let Ok(reply) = outcome else {
            return Ok(());
        };
        match &mut self.coverage {
            Some(coverage) => coverage.add(alloc, extensions, session, &mut self.past, step, reply),
            None => Ok(()),
        }
    }

    /// Sees what the session holds at last. Refused for memory alone.
    pub(crate) fn end<F: ExtensionFunctionObject>(
        &mut self,
        alloc: Global,
        session: &Session<'_, '_, F>,
    ) -> Result<(), AllocError> {
        match &mut self.coverage {
            Some(coverage) => coverage.add_held(alloc, session, &self.past),
            None => Ok(()),
        }
    }
}
