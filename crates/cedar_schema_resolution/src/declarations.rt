// What a schema's text declares.
ghost use Rattle.std.specs.Prelude.{◌≡◌, [], ◌∷◌, ◌++◌, IfOk, OnOk, map, option_map, unwrap_or};
ghost use Rattle.cedar_schema_grammar.specs.Declared.{declared, entity_name, type_name, entity_types_in, common_types_in, actions_in, of_block, of_blocks};
ghost use Rattle.cedar_schema_syntax.specs.View as syntax;
ghost use Rattle.cedar_schema_resolution.specs.Declarations.{body_view, entity_view, type_view, entities_view, types_view, actions_view, entities_named, actions_named, declared_view};

use cedar_schema::TypeName;
use cedar_schema_syntax::{
    ActionSyntax, CommonTypeSyntax, Declaration, EntitySyntax, EnumerationSyntax, Name, Namespace,
    Path, SchemaSyntax, TypeSyntax,
};
use std::alloc::{AllocError, Global};

/// What is written of an entity type.
#[derive(Clone, Copy)]
pub enum EntityBody<'s> {
    /// What its entities may be within, their attributes and their tags.
    Shaped(&'s EntitySyntax),
    /// The ids of all its entities.
    Listed(&'s EnumerationSyntax),
}

/// An entity type that is declared, and the namespace in which it is.
#[derive(Drop)]
pub struct DeclaredEntity<'s> {
    pub namespace: TypeName,
    pub own: &'s Name,
    pub body: EntityBody<'s>,
}

/// A common type that is declared, and the namespace in which it is.
#[derive(Drop)]
pub struct DeclaredType<'s> {
    pub namespace: TypeName,
    pub own: &'s Name,
    pub written: &'s TypeSyntax,
}

/// An action that is declared, and the namespace in which it is.
#[derive(Drop)]
pub struct DeclaredAction<'s> {
    pub namespace: TypeName,
    pub own: &'s Name,
    pub written: &'s ActionSyntax,
}

/// What a schema's text declares, in the order of the text; blocks of one namespace are joined. It lends what the text writes.
#[derive(Drop)]
pub struct Declarations<'s> {
    pub entities: Vec<DeclaredEntity<'s>>,
    pub types: Vec<DeclaredType<'s>>,
    pub actions: Vec<DeclaredAction<'s>>,
}

impl<'s> DeclaredEntity<'s> {
    /// Its full name; refused for memory alone.
    pub fn name(&self, alloc: Global) -> Result<TypeName, AllocError>
        ensures { IfOk result (λ name. name ≡ entity_name (entity_view self.now)) }
    {
        TypeName::declared(alloc, self.namespace.words(), self.own)
    }
}

impl<'s> DeclaredType<'s> {
    /// Its full name; refused for memory alone.
    pub fn name(&self, alloc: Global) -> Result<TypeName, AllocError>
        ensures { IfOk result (λ name. name ≡ type_name (type_view self.now)) }
    {
        TypeName::declared(alloc, self.namespace.words(), self.own)
    }
}

// The name of a block's namespace; of no namespace it has no words.
fn namespace_name(alloc: Global, path: &Option<Path>) -> Result<TypeName, AllocError>
    ensures { IfOk result (λ name. name ≡ unwrap_or (option_map syntax.path_view path.now) []) }
{
    match path {
        Some(path) => TypeName::from_path(alloc, path),
        None => TypeName::new(alloc, Vec::new(alloc)),
    }
}

impl<'s> Declarations<'s> {
    /// What a schema's text declares. Refused for memory alone.
    pub fn from_syntax(
        alloc: Global,
        schema: &'s SchemaSyntax,
    ) -> Result<Declarations<'s>, AllocError>
        ensures { IfOk result (λ all. declared_view all ≡ declared (syntax.schema_view schema.now)) }
    {
        let mut all = Declarations {
            entities: Vec::new(alloc),
            types: Vec::new(alloc),
            actions: Vec::new(alloc),
        };
        all.add_blocks(alloc, &schema.namespaces)?;
        Ok(all)
    }

    // Adds what blocks declare.
    fn add_blocks(&mut self, alloc: Global, blocks: &'s [Namespace]) -> Result<(), AllocError>
        ensures entities { OnOk result (entities_view self.new
            ≡ entities_view self.old ++ of_blocks entity_types_in (map syntax.namespace_view blocks.now)) }
        ensures types { OnOk result (types_view self.new
            ≡ types_view self.old ++ of_blocks common_types_in (map syntax.namespace_view blocks.now)) }
        ensures actions { OnOk result (actions_view self.new
            ≡ actions_view self.old ++ of_blocks actions_in (map syntax.namespace_view blocks.now)) }
    {
        for block in blocks {
            self.add_block(alloc, block)?;
        }
        Ok(())
    }

    // Adds what a block declares.
    fn add_block(&mut self, alloc: Global, block: &'s Namespace) -> Result<(), AllocError>
        ensures entities { OnOk result (entities_view self.new ≡ entities_view self.old
            ++ of_block (entity_types_in (syntax.namespace_view block.now).path) (syntax.namespace_view block.now).declarations) }
        ensures types { OnOk result (types_view self.new ≡ types_view self.old
            ++ of_block (common_types_in (syntax.namespace_view block.now).path) (syntax.namespace_view block.now).declarations) }
        ensures actions { OnOk result (actions_view self.new ≡ actions_view self.old
            ++ of_block (actions_in (syntax.namespace_view block.now).path) (syntax.namespace_view block.now).declarations) }
    {
        let namespace = namespace_name(alloc, &block.path)?;
        self.add_all(&namespace, &block.declarations)
    }

    // Adds what declarations of a namespace declare.
    fn add_all(
        &mut self,
        namespace: &TypeName,
        declarations: &'s [Declaration],
    ) -> Result<(), AllocError>
        ensures entities { OnOk result (entities_view self.new ≡ entities_view self.old
            ++ of_block (entity_types_in namespace.now) (map syntax.declaration_view declarations.now)) }
        ensures types { OnOk result (types_view self.new ≡ types_view self.old
            ++ of_block (common_types_in namespace.now) (map syntax.declaration_view declarations.now)) }
        ensures actions { OnOk result (actions_view self.new ≡ actions_view self.old
            ++ of_block (actions_in namespace.now) (map syntax.declaration_view declarations.now)) }
    {
        for declaration in declarations {
            self.add(namespace, declaration)?;
        }
        Ok(())
    }

    // Adds what a declaration declares.
    fn add(&mut self, namespace: &TypeName, declaration: &'s Declaration) -> Result<(), AllocError>
        ensures entities { OnOk result (entities_view self.new ≡ entities_view self.old
            ++ entity_types_in namespace.now (syntax.declaration_view declaration.now)) }
        ensures types { OnOk result (types_view self.new ≡ types_view self.old
            ++ common_types_in namespace.now (syntax.declaration_view declaration.now)) }
        ensures actions { OnOk result (actions_view self.new ≡ actions_view self.old
            ++ actions_in namespace.now (syntax.declaration_view declaration.now)) }
    {
        match declaration {
            Declaration::Entities(shape) => {
                self.add_entities(namespace, &shape.names, EntityBody::Shaped(shape))
            }
            Declaration::Enumeration(listed) => {
                self.add_entities(namespace, &listed.names, EntityBody::Listed(listed))
            }
            Declaration::Actions(actions) => self.add_actions(namespace, &actions.names, actions),
            Declaration::CommonType(common) => self.add_type(namespace, common),
        }
    }

    // Adds a common type.
    fn add_type(
        &mut self,
        namespace: &TypeName,
        common: &'s CommonTypeSyntax,
    ) -> Result<(), AllocError>
        ensures types { OnOk result (types_view self.new ≡ types_view self.old
            ++ common_types_in namespace.now (syntax.declaration_view (Declaration.CommonType common.now))) }
        ensures entities { OnOk result (entities_view self.new ≡ entities_view self.old) }
        ensures actions { OnOk result (actions_view self.new ≡ actions_view self.old) }
    {
        let namespace = namespace.clone()?;
        self.types.push(DeclaredType {
            namespace,
            own: &common.name,
            written: &common.written,
        })?;
        Ok(())
    }

    // Adds entity types of these names.
    fn add_entities(
        &mut self,
        namespace: &TypeName,
        names: &'s [Name],
        body: EntityBody<'s>,
    ) -> Result<(), AllocError>
        ensures entities { OnOk result (entities_view self.new ≡ entities_view self.old
            ++ entities_named namespace.now (body_view body.entry) (syntax.names_view names.now)) }
        ensures types { OnOk result (types_view self.new ≡ types_view self.old) }
        ensures actions { OnOk result (actions_view self.new ≡ actions_view self.old) }
    {
        for own in names {
            self.add_entity(namespace, own, body)?;
        }
        Ok(())
    }

    // Adds one entity type.
    fn add_entity(
        &mut self,
        namespace: &TypeName,
        own: &'s Name,
        body: EntityBody<'s>,
    ) -> Result<(), AllocError>
        ensures entities { OnOk result (entities_view self.new ≡ entities_view self.old
            ++ entities_named namespace.now (body_view body.entry) (syntax.name_view own.now ∷ [])) }
        ensures types { OnOk result (types_view self.new ≡ types_view self.old) }
        ensures actions { OnOk result (actions_view self.new ≡ actions_view self.old) }
    {
        let namespace = namespace.clone()?;
        self.entities.push(DeclaredEntity {
            namespace,
            own,
            body,
        })?;
        Ok(())
    }

    // Adds the actions of a declaration.
    fn add_actions(
        &mut self,
        namespace: &TypeName,
        names: &'s [Name],
        written: &'s ActionSyntax,
    ) -> Result<(), AllocError>
        ensures actions { OnOk result (actions_view self.new ≡ actions_view self.old
            ++ actions_named namespace.now (syntax.action_view written.now) (syntax.names_view names.now)) }
        ensures entities { OnOk result (entities_view self.new ≡ entities_view self.old) }
        ensures types { OnOk result (types_view self.new ≡ types_view self.old) }
    {
        for own in names {
            self.add_action(namespace, own, written)?;
        }
        Ok(())
    }

    // Adds one action.
    fn add_action(
        &mut self,
        namespace: &TypeName,
        own: &'s Name,
        written: &'s ActionSyntax,
    ) -> Result<(), AllocError>
        ensures actions { OnOk result (actions_view self.new ≡ actions_view self.old
            ++ actions_named namespace.now (syntax.action_view written.now) (syntax.name_view own.now ∷ [])) }
        ensures entities { OnOk result (entities_view self.new ≡ entities_view self.old) }
        ensures types { OnOk result (types_view self.new ≡ types_view self.old) }
    {
        let namespace = namespace.clone()?;
        self.actions.push(DeclaredAction {
            namespace,
            own,
            written,
        })?;
        Ok(())
    }
}
