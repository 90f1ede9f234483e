//! Objects and functions with linkage, by one of their declarations (C11 6.2.2, 6.2.7, 6.7p4, 6.9p3).

ghost use Rattle.std.specs.Prelude.{◌≡◌, slice_get, IfOk};
ghost use Rattle.elab_environment.specs.Elaborating.{Gives};
ghost use Rattle.elab_environment.specs.Linkage as spec;

use crate::state::{Entity, Environment, Named, Object, Prototype};
use elab_findings::Rule;
use elab_types::{Likeness, alike, composite};
use std::alloc::{AllocError, Global};

fn clashes(here: Option<u32>, linked: Option<u32>) -> bool
    ensures { result ≡ spec.clashes here linked }
{
    match here {
        None => false,
        Some(n) => match linked {
            Some(m) => !(n == m),
            None => true,
        },
    }
}

impl Object {
    /// The object with a further declaration of it.
    fn merged(&self, alloc: Global, other: &Object) -> Result<Object, AllocError>
        ensures { IfOk result (λ o. o ≡ spec.merged_object self.now other.now) }
    {
        Ok(Object {
            name: self.name,
            at: self.at,
            ty: composite(alloc, &self.ty, &other.ty)?,
            standing: self.standing,
            is_register: self.is_register,
            is_defined: self.is_defined || other.is_defined,
            declaration: self.declaration,
            initialiser: either(self.initialiser, other.initialiser),
        })
    }
}

impl Prototype {
    /// The function with a further declaration of it.
    fn merged(&self, alloc: Global, other: &Prototype) -> Result<Prototype, AllocError>
        ensures { IfOk result (λ f. f ≡ spec.merged_function self.now other.now) }
    {
        Ok(Prototype {
            name: self.name,
            ty: composite(alloc, &self.ty, &other.ty)?,
            linkage: self.linkage,
            definition: either(self.definition, other.definition),
            is_inline: self.is_inline && other.is_inline,
            declaration: self.declaration,
        })
    }
}

fn either(n: Option<u32>, m: Option<u32>) -> Option<u32>
    ensures { result ≡ spec.either n m }
{
    match n {
        Some(n) => Some(n),
        None => m,
    }
}

impl Environment {
    fn here(&self, name: u32) -> Option<u32>
        ensures { result ≡ spec.here self.now name }
    {
        self.names.find_here(self.block.names as usize, name)
    }

    #[tactic(auto, unfolding(crate::specs::Linkage::declare_linked))]
    fn declare_linked(
        &mut self,
        name: u32,
        entity: Entity,
        declaration: u32,
    ) -> Result<(), AllocError>
        ensures { Gives (spec.declare_linked name entity declaration self.old) result self.new }
    {
        if self.named.len() > 0xffff_ffff {
            return Err(AllocError);
        }
        let number = self.named.len() as u32;
        self.named.push(Named {
            entity,
            declaration,
        })?;
        self.names.declare(name, number)?;
        self.linked.declare(name, number)?;
        Ok(())
    }

    #[tactic(auto, unfolding(crate::specs::Linkage::declare_again))]
    fn declare_again(
        &mut self,
        name: u32,
        number: u32,
        before: Option<u32>,
    ) -> Result<(), AllocError>
        ensures { Gives (spec.declare_again name number before self.old) result self.new }
    {
        if before.is_none() {
            self.names.declare(name, number)?;
        }
        Ok(())
    }

    #[tactic(auto, unfolding(crate::specs::Linkage::set_object))]
    fn set_object(&mut self, number: u32, object: Object)
        ensures { spec.set_object number object self.old ≡ (tt, self.new) }
    {
        let place = number as usize;
        if place < self.objects.len() {
            self.objects.set(place, object);
        }
    }

    #[tactic(auto, unfolding(crate::specs::Linkage::set_function))]
    fn set_function(&mut self, number: u32, function: Prototype)
        ensures { spec.set_function number function self.old ≡ (tt, self.new) }
    {
        let place = number as usize;
        if place < self.functions.len() {
            self.functions.set(place, function);
        }
    }

    /// A new function: its number.
    #[tactic(auto, unfolding(crate::specs::Linkage::new_function))]
    fn new_function(&mut self, function: Prototype) -> Result<u32, AllocError>
        ensures { Gives (spec.new_function function self.old) result self.new }
    {
        let number = self.functions.len();
        if number > 0xffff_ffff {
            return Err(AllocError);
        }
        self.functions.push(function)?;
        Ok(number as u32)
    }

    fn clashing_object(&mut self, token: u32, object: Object) -> Result<u32, AllocError>
        ensures { Gives (spec.clashing_object token object self.old) result self.new }
    {
        self.refuse(token, Rule::Redefined)?;
        self.new_object(object)
    }

    fn first_object(&mut self, alloc: Global, name: u32, object: Object) -> Result<u32, AllocError>
        ensures { Gives (spec.first_object name object self.old) result self.new }
    {
        let declaration = self.new_declaration(alloc)?;
        self.join(declaration)?;
        let mut object = object;
        object.declaration = declaration;
        let number = self.new_object(object)?;
        self.declare_linked(name, Entity::Object(number), declaration)?;
        Ok(number)
    }

    fn object_named(&self, place: u32) -> Option<u32>
        ensures { result ≡ spec.object_named (slice_get self.now.named place) }
    {
        match self.named.get(place as usize) {
            Some(named) => match &named.entity {
                Entity::Object(number) => Some(*number),
                Entity::Typedef(_) | Entity::Enumerator(_) | Entity::Function(_) => None,
            },
            None => None,
        }
    }

    fn again_object(
        &mut self,
        alloc: Global,
        token: u32,
        name: u32,
        object: Object,
        before: Option<u32>,
        place: u32,
        number: u32,
    ) -> Result<u32, AllocError>
        ensures { Gives (spec.again_object token name object before place number (slice_get self.old.objects number) self.old) result self.new }
    {
        let Some(old) = self.objects.get(number as usize) else {
            return self.clashing_object(token, object);
        };
        if !alike(Likeness::Compatible, &old.ty, &object.ty) {
            return self.clashing_object(token, object);
        }
        let is_twice = old.initialiser.is_some() && object.initialiser.is_some();
        let declaration = old.declaration;
        let merged = old.merged(alloc, &object)?;
        self.set_object(number, merged);
        if is_twice {
            self.refuse(token, Rule::Redefined)?;
        }
        self.join(declaration)?;
        self.declare_again(name, place, before)?;
        Ok(number)
    }

    fn object_beside(
        &mut self,
        alloc: Global,
        token: u32,
        name: u32,
        object: Object,
        before: Option<u32>,
        linked: Option<u32>,
    ) -> Result<u32, AllocError>
        ensures { Gives (spec.object_beside token name object before linked self.old) result self.new }
    {
        let Some(place) = linked else {
            return self.first_object(alloc, name, object);
        };
        match self.object_named(place) {
            Some(number) => self.again_object(alloc, token, name, object, before, place, number),
            None => self.clashing_object(token, object),
        }
    }

    /// An object with linkage, declared as this one by the name at a token: its number. Where the name stands for something
    /// else, or for an object of another type, that is noted at the token, and an object without a name is new.
    #[tactic(auto, unfolding(crate::specs::Linkage::link_object))]
    pub fn link_object(
        &mut self,
        alloc: Global,
        token: u32,
        name: u32,
        object: Object,
    ) -> Result<u32, AllocError>
        ensures { Gives (spec.link_object token name object self.old) result self.new }
    {
        let here = self.here(name);
        let linked = self.linked.find(name);
        if clashes(here, linked) {
            return self.clashing_object(token, object);
        }
        self.object_beside(alloc, token, name, object, here, linked)
    }

    fn clashing_function(&mut self, token: u32, function: Prototype) -> Result<u32, AllocError>
        ensures { Gives (spec.clashing_function token function self.old) result self.new }
    {
        self.refuse(token, Rule::Redefined)?;
        self.new_function(function)
    }

    fn first_function(
        &mut self,
        alloc: Global,
        name: u32,
        function: Prototype,
    ) -> Result<u32, AllocError>
        ensures { Gives (spec.first_function name function self.old) result self.new }
    {
        let declaration = self.new_declaration(alloc)?;
        self.join(declaration)?;
        let mut function = function;
        function.declaration = declaration;
        let number = self.new_function(function)?;
        self.declare_linked(name, Entity::Function(number), declaration)?;
        Ok(number)
    }

    fn function_named(&self, place: u32) -> Option<u32>
        ensures { result ≡ spec.function_named (slice_get self.now.named place) }
    {
        match self.named.get(place as usize) {
            Some(named) => match &named.entity {
                Entity::Function(number) => Some(*number),
                Entity::Typedef(_) | Entity::Enumerator(_) | Entity::Object(_) => None,
            },
            None => None,
        }
    }

    fn again_function(
        &mut self,
        alloc: Global,
        token: u32,
        name: u32,
        function: Prototype,
        before: Option<u32>,
        place: u32,
        number: u32,
    ) -> Result<u32, AllocError>
        ensures { Gives (spec.again_function token name function before place number (slice_get self.old.functions number) self.old) result self.new }
    {
        let Some(old) = self.functions.get(number as usize) else {
            return self.clashing_function(token, function);
        };
        if !alike(Likeness::Compatible, &old.ty, &function.ty) {
            return self.clashing_function(token, function);
        }
        let is_twice = old.definition.is_some() && function.definition.is_some();
        let declaration = old.declaration;
        let merged = old.merged(alloc, &function)?;
        self.set_function(number, merged);
        if is_twice {
            self.refuse(token, Rule::Redefined)?;
        }
        self.join(declaration)?;
        self.declare_again(name, place, before)?;
        Ok(number)
    }

    fn function_beside(
        &mut self,
        alloc: Global,
        token: u32,
        name: u32,
        function: Prototype,
        before: Option<u32>,
        linked: Option<u32>,
    ) -> Result<u32, AllocError>
        ensures { Gives (spec.function_beside token name function before linked self.old) result self.new }
    {
        let Some(place) = linked else {
            return self.first_function(alloc, name, function);
        };
        match self.function_named(place) {
            Some(number) => self.again_function(
                alloc, token, name, function, before, place, number,
            ),
            None => self.clashing_function(token, function),
        }
    }

    /// A function with linkage, declared as this one by the name at a token: its number. Where the name stands for something
    /// else, or for a function of another type, that is noted at the token, and a function without a name is new.
    #[tactic(auto, unfolding(crate::specs::Linkage::link_function))]
    pub fn link_function(
        &mut self,
        alloc: Global,
        token: u32,
        name: u32,
        function: Prototype,
    ) -> Result<u32, AllocError>
        ensures { Gives (spec.link_function token name function self.old) result self.new }
    {
        let here = self.here(name);
        let linked = self.linked.find(name);
        if clashes(here, linked) {
            return self.clashing_function(token, function);
        }
        self.function_beside(alloc, token, name, function, here, linked)
    }
}
