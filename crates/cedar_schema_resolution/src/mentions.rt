// Which common types are written in which.
ghost use Rattle.std.specs.Prelude.{◌≡◌, [], map, IfOk, OnOk};
ghost use Rattle.cedar_schema_syntax.specs.View as syntax;
ghost use Rattle.cedar_schema_resolution.specs.Declarations.{declared_view, type_view};
ghost use Rattle.cedar_schema_resolution.specs.Numbers.{named_number};
ghost use Rattle.cedar_schema_resolution.specs.Mentions.{with_number, IsMentioned, IsMentionedIn, AreMentioned};

use crate::declarations::DeclaredType;
use crate::numbers::CommonNumbers;
use cedar_names::texts::SharedText;
use cedar_schema_syntax::{Attribute, Path, TypeSyntax};
use std::alloc::{AllocError, Global};

impl CommonNumbers {
    // Puts the number of the common type that a name stands for, if it stands for one.
    fn add_named(
        &self,
        alloc: Global,
        namespace: &[SharedText],
        path: &Path,
        mentioned: &mut Vec<usize>,
    ) -> Result<(), AllocError>
        ensures { OnOk result (mentioned.new.items
            ≡ with_number mentioned.old.items (named_number self.now namespace.now (syntax.path_view path.now))) }
    {
        if let Some(number) = self.named(alloc, namespace, path)? {
            mentioned.push(number)?;
        }
        Ok(())
    }

    // Puts the numbers of the common types that a type mentions. It recurs as deep as the text nests.
    #[cycle(mentions)]
    fn add_mentioned(
        &self,
        alloc: Global,
        namespace: &[SharedText],
        written: &TypeSyntax,
        mentioned: &mut Vec<usize>,
    ) -> Result<(), AllocError>
        ensures { OnOk result (IsMentioned self.now namespace.now (syntax.type_view written.now)
            mentioned.old.items mentioned.new.items) }
    {
        match written {
            TypeSyntax::Named(path) => self.add_named(alloc, namespace, path, mentioned),
            TypeSyntax::Set(element) => self.add_mentioned(alloc, namespace, element, mentioned),
            TypeSyntax::Record(attributes) => {
                self.add_mentioned_in(alloc, namespace, attributes, mentioned)
            }
        }
    }

    // Puts the numbers of those that attributes mention.
    #[cycle(mentions)]
    fn add_mentioned_in(
        &self,
        alloc: Global,
        namespace: &[SharedText],
        attributes: &[Attribute],
        mentioned: &mut Vec<usize>,
    ) -> Result<(), AllocError>
        ensures { OnOk result (IsMentionedIn self.now namespace.now (syntax.attributes_view attributes.now)
            mentioned.old.items mentioned.new.items) }
    {
        for attribute in attributes {
            self.add_mentioned(alloc, namespace, &attribute.written, mentioned)?;
        }
        Ok(())
    }

    // The numbers of the common types that one mentions.
    fn mentioned_by(
        &self,
        alloc: Global,
        common: &DeclaredType<'_>,
    ) -> Result<Vec<usize>, AllocError>
        ensures { IfOk result (λ numbers. IsMentioned self.now common.now.namespace (type_view common.now).type [] numbers.items) }
    {
        let mut mentioned = Vec::new(alloc);
        self.add_mentioned(
            alloc,
            common.namespace.words(),
            common.written,
            &mut mentioned,
        )?;
        Ok(mentioned)
    }

    /// Of each common type the numbers of those that it mentions. Refused for memory alone.
    pub fn mentioned(
        &self,
        alloc: Global,
        types: &[DeclaredType<'_>],
    ) -> Result<Vec<Vec<usize>>, AllocError>
        ensures { IfOk result (λ all. AreMentioned self.now (map type_view types.now) all.items) }
    {
        let mut all = Vec::with_capacity(alloc, types.len())?;
        for common in types {
            all.push(self.mentioned_by(alloc, common)?)?;
        }
        Ok(all)
    }
}
