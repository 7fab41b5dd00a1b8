//! Objects that are found by their names, seen as a list.

ghost use Rattle.std.specs.Prelude.{◌≡◌, [], ◌∷◌, ◌++◌, IfOk, false};
ghost use Rattle.std.specs.Map.{values_of};
ghost use Rattle.token_read.specs.Names.{is_among};
ghost use Rattle.decl_core.specs.ObjectMap.{AreNamed, object_names};

use decl_core::object::Object;
use indexmap::IndexMap;
use path_tree::name::Name;
use std::alloc::{AllocError, Global};
use std::marker::Model;

/// Objects in the order of their declaration, each found by its name.
#[derive(Drop)]
pub(crate) struct Catalog {
    objects: IndexMap<Name, Object>,
}

impl Model for Catalog {
    ghost use Rattle.std.specs.Prelude.{List};
    ghost use Rattle.std.specs.Map.{values_of};
    ghost use Rattle.decl_core.specs.declared.object.Object.{Object};
    ghost use Rattle.decl_core.specs.ObjectMap.{AreNamed};
    ghost use Rattle.decl_core.specs.contracts.object.Object as e;
    ghost use Rattle.std.specs.Coded.{codes};

    ghost Value = { List Object };

    ghost coded = { Prim.hlevel (codes, e.the_row.coded) };

    ghost view = { λ a. values_of a.objects.entries };

    ghost invariant = { λ a. AreNamed a.objects.entries };
}

impl Catalog {
    /// No objects.
    pub fn new(alloc: Global) -> Catalog
        ensures { result ≡ [] }
    {
        Catalog {
            objects: IndexMap::new(alloc),
        }
    }

    /// Whether an object has this name.
    #[tactic(auto, using(crate::proofs::MapEntries::has_named))]
    pub fn has(&self, name: &Name) -> bool
        ensures { result ≡ is_among (object_names self.now) name.now }
    {
        self.objects.contains_key(name)
    }

    /// An object of a new name, after the others.
    pub fn with(self, alloc: Global, object: Object) -> Result<Catalog, AllocError>
        requires { is_among (object_names self) object.name ≡ false }
        ensures { IfOk result (λ more. more ≡ self ++ object ∷ []) }
    {
        let key = object.name.copy(alloc)?;
        let mut objects = self.objects;
        objects.insert(key, object)?;
        Ok(Catalog { objects })
    }

    /// The objects under their names.
    pub fn into_map(self) -> IndexMap<Name, Object>
        ensures objects { values_of result.entries ≡ self }
        ensures named { AreNamed result.entries }
    {
        self.objects
    }
}
