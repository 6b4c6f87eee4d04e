// The entity types of a schema, listed.
ghost use Rattle.std.specs.Prelude.{◌≡◌, [], ◌∷◌, ◌++◌, cond, map, is_some, IfOk, OnOk, Option};
ghost use Rattle.std.specs.List.{list_any};
ghost use Rattle.std.specs.Map.Iter.{deref};
ghost use Rattle.cedar_language.specs.Uid as language;
ghost use Rattle.cedar_language.specs.Order.{same_name};
ghost use Rattle.cedar_typing.specs.Schema.{Signature};
ghost use Rattle.cedar_validator_schema.specs.Views.{shape_in, schema_view};

use crate::schema::ValidatorSchema;
use cedar_schema::TypeName;
use std::alloc::{AllocError, Global};

impl ValidatorSchema {
    // Whether an entity type of this name is known.
    fn has_shape(&self, name: &TypeName) -> bool
        ensures { result ≡ is_some (shape_in self.now name.now) }
    {
        self.entity_type(name).is_some()
    }

    // Lists a name where it is that of an entity type which is known.
    fn list_shaped<'s>(
        &self,
        name: &'s TypeName,
        listed: &mut Vec<&'s TypeName>,
    ) -> Result<(), AllocError>
        ensures { OnOk result (map deref listed.new.items
            ≡ map deref listed.old.items ++ cond (is_some (shape_in self.now name.now)) (name.now ∷ []) []) }
    {
        if self.has_shape(name) {
            listed.push(name)?;
        }
        Ok(())
    }

    /// The names of the entity types that `entity_type` finds: those that are declared in rising order, and behind them those
    /// of actions. Refused for memory alone.
    pub fn entity_type_names(&self, alloc: Global) -> Result<Vec<&TypeName>, AllocError>
        ensures { IfOk result (λ listed. (s : language.Name → Option Signature) (n : language.Name)
            → list_any (same_name n) (map deref listed.items) ≡ is_some ((schema_view s self.now).entity n)) }
    {
        let mut listed = Vec::new(alloc);
        for name in self.entity_types.by_name.keys() {
            self.list_shaped(name, &mut listed)?;
        }
        for action_type in self.action_types.iter() {
            self.list_shaped(action_type, &mut listed)?;
        }
        Ok(listed)
    }
}
