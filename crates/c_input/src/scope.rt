//! The ordinary identifiers in scope (C11 6.2.1, 6.2.3), and which of them are typedef names (6.7.8).

ghost use Rattle.std.specs.Prelude.{◌≡◌, ℕ, ◌<◌, ◌≤◌, ◌-◌, [], ◌∷◌, ◌++◌, length, take, drop, reverse, IfOk, OnOk};
ghost use Rattle.c_input.specs.Scope as spec;

use sqlite_items::Items;
use std::alloc::{AllocError, Global};
use std::marker::Model;

/// The names in scope, each by its number, with whether it is a typedef name. Contracts see the newest first.
#[derive(Drop)]
pub struct Scope {
    /// The newest last.
    declared: Items<(u32, bool)>,
    /// What each of them hides: whether its number was that of a typedef name before.
    hidden: Items<bool>,
    /// Whether a number is that of a typedef name now; none past the end is.
    types: Items<bool>,
}

impl Model for Scope {
    ghost use Rattle.std.specs.Prelude.{List, ℕ, Bool, reverse};
    ghost use Rattle.c_input.specs.Scope.{Kept};

    ghost Value = { List (ℕ × Bool) };

    ghost view = { λ s. reverse s.declared };

    ghost invariant = { λ s. Kept (reverse s.declared) (reverse s.hidden) s.types };
}

impl Scope {
    pub fn new(alloc: Global) -> Scope
        ensures { result ≡ [] }
    {
        Scope {
            declared: Items::new(alloc),
            hidden: Items::new(alloc),
            types: Items::new(alloc),
        }
    }

    pub fn len(&self) -> usize
        ensures { result ≡ length self.now }
    {
        self.declared.len()
    }

    pub fn is_type(&self, name: u32) -> bool
        ensures { result ≡ spec.is_type self.now name }
    {
        let types = self.types.as_slice();
        let name = name as usize;
        if name < types.len() {
            types[name]
        } else {
            false
        }
    }

    pub fn declare(&mut self, name: u32, is_type: bool) -> Result<(), AllocError>
        ensures { OnOk result (self.new ≡ (name, is_type) ∷ self.old) }
    {
        let hidden = self.is_type(name);
        reach(&mut self.types, name as usize)?;
        self.hidden.push(hidden)?;
        match self.declared.push((name, is_type)) {
            Ok(()) => {
                self.types.set(name as usize, is_type);
                Ok(())
            }
            Err(e) => {
                self.hidden.pop();
                Err(e)
            }
        }
    }

    /// Declares names that are listed with the newest first.
    pub fn declare_all(&mut self, names: Items<(u32, bool)>) -> Result<(), AllocError>
        ensures { OnOk result (self.new ≡ names ++ self.old) }
    {
        let mut left = names;
        while let Some((name, is_type)) = left.pop() {
            self.declare(name, is_type)?;
        }
        Ok(())
    }

    /// The names that are newer than the first `kept`, the newest first.
    pub fn newest(&self, alloc: Global, kept: usize) -> Result<Items<(u32, bool)>, AllocError>
        ensures { IfOk result (λ names. names ≡ take (length self.now - kept) self.now) }
    {
        let from = kept.min(self.declared.len());
        reversed(alloc, &self.declared.as_slice()[from..])
    }

    /// Forgets the newest name.
    fn forget(&mut self)
        ensures { self.new ≡ drop 1 self.old }
    {
        if let Some((name, _)) = self.declared.pop() {
            if let Some(was) = self.hidden.pop() {
                self.types.set(name as usize, was);
            }
        }
    }

    /// Forgets the newest names but for the first `kept`.
    pub fn leave(&mut self, kept: usize)
        ensures { self.new ≡ spec.oldest kept self.old }
    {
        while kept < self.len() {
            self.forget();
        }
    }
}

/// The names in the other order.
fn reversed(alloc: Global, names: &[(u32, bool)]) -> Result<Items<(u32, bool)>, AllocError>
    ensures { IfOk result (λ items. items ≡ reverse names.now) }
{
    let mut items = Vec::from_slice(alloc, names)?;
    items.reverse();
    Ok(Items::from_vec(items))
}

/// Makes the table reach a number.
fn reach(types: &mut Items<bool>, name: usize) -> Result<(), AllocError>
    requires { name < 4294967296 }
    ensures same { (n : ℕ) → spec.in_table types.new n ≡ spec.in_table types.old n }
    ensures longer { length types.old ≤ length types.new }
    ensures reaches { OnOk result (name < length types.new) }
{
    for _more in types.len()..name + 1 {
        types.push(false)?;
    }
    Ok(())
}
