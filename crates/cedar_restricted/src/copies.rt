// Copies, which share the parts.
ghost use Rattle.std.specs.Prelude.{◌≡◌, IfOk};
ghost use Rattle.cedar_trees.specs.Bare.{bare};
ghost use Rattle.cedar_restricted.specs.Offences.{refused_offence, offence_told};
ghost use Rattle.cedar_restricted.specs.PartialValues.{partial_of};
ghost use Rattle.cedar_restricted.specs.Sameness.{residual_met};

use crate::errors::{InvalidRestrictedExpressionError, RestrictedExpressionError};
use crate::partial_values::{ContainsUnknown, PartialValue, PartialValueToValueError};
use std::alloc::{AllocError, Global};

impl PartialValue {
    /// A copy that shares the parts; refused for memory alone.
    pub fn clone(&self, alloc: Global) -> Result<PartialValue, AllocError>
        ensures { IfOk result (λ copy. partial_of copy ≡ partial_of self.now) }
    {
        match self {
            PartialValue::Value(value) => Ok(PartialValue::Value(value.clone(alloc)?)),
            PartialValue::Residual(expr) => Ok(PartialValue::Residual(expr.clone(alloc)?)),
        }
    }
}

impl ContainsUnknown {
    /// A copy that shares the parts; refused for memory alone.
    pub fn clone(&self, alloc: Global) -> Result<ContainsUnknown, AllocError>
        ensures { IfOk result (λ copy. bare copy.residual ≡ bare self.now.residual) }
    {
        Ok(ContainsUnknown {
            residual: self.residual.clone(alloc)?,
        })
    }
}

impl PartialValueToValueError {
    /// A copy that shares the parts; refused for memory alone.
    pub fn clone(&self, alloc: Global) -> Result<PartialValueToValueError, AllocError>
        ensures { IfOk result (λ copy. residual_met copy ≡ residual_met self.now) }
    {
        let PartialValueToValueError::ContainsUnknown(error) = self;
        Ok(PartialValueToValueError::ContainsUnknown(error.clone(alloc)?))
    }
}

impl InvalidRestrictedExpressionError {
    /// A copy that shares the parts; refused for memory alone.
    pub fn clone(&self, alloc: Global) -> Result<InvalidRestrictedExpressionError, AllocError>
        ensures { IfOk result (λ copy. refused_offence copy ≡ refused_offence self.now) }
    {
        Ok(InvalidRestrictedExpressionError {
            feature: self.feature,
            expr: self.expr.clone(alloc)?,
        })
    }
}

impl RestrictedExpressionError {
    /// A copy that shares the parts; refused for memory alone.
    pub fn clone(&self, alloc: Global) -> Result<RestrictedExpressionError, AllocError>
        ensures { IfOk result (λ copy. offence_told copy ≡ offence_told self.now) }
    {
        match self {
            RestrictedExpressionError::InvalidRestrictedExpression(error) => Ok(
                RestrictedExpressionError::InvalidRestrictedExpression(error.clone(alloc)?),
            ),
            RestrictedExpressionError::Memory(error) => {
                Ok(RestrictedExpressionError::Memory(*error))
            }
        }
    }
}
