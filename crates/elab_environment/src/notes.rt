//! The steps that note something.

ghost use Rattle.std.specs.Prelude.{◌≡◌};
ghost use Rattle.std.specs.Option.{option_copied};
ghost use Rattle.elab_environment.specs.Elaborating.{Gives};
ghost use Rattle.elab_environment.specs.Steps as spec;

use crate::lexeme::{Lexeme, Word};
use crate::state::{Block, Body, Entity, Environment, Named, Tag, TagKind};
use c_types::StructId;
use elab_findings::{Fault, Held, Rule};
use std::alloc::{AllocError, Global};

impl Environment {
    /// Refuses the file, wherever the declaration at hand is used or not.
    #[tactic(auto, unfolding(crate::specs::Steps::refuse))]
    pub fn refuse(&mut self, at: u32, rule: Rule) -> Result<(), AllocError>
        ensures { Gives (spec.refuse at rule self.old) result self.new }
    {
        self.findings.faults.push(Fault { at, rule })?;
        Ok(())
    }

    /// Refuses the file where the declaration at hand is used.
    #[tactic(auto, unfolding(crate::specs::Steps::hold))]
    pub fn hold(&mut self, at: u32, rule: Rule) -> Result<(), AllocError>
        ensures { Gives (spec.hold at rule self.old) result self.new }
    {
        let fault = Fault { at, rule };
        self.findings.held.push(Held {
            declaration: self.declaration,
            fault,
        })?;
        Ok(())
    }

    /// The declaration at hand names another.
    #[tactic(auto, unfolding(crate::specs::Steps::mention))]
    pub fn mention(&mut self, declaration: u32) -> Result<(), AllocError>
        ensures { Gives (spec.mention declaration self.old) result self.new }
    {
        self.findings.uses.name(self.declaration, declaration)?;
        Ok(())
    }

    /// What elaboration reads of a token.
    pub fn lexeme(&self, at: u32) -> Lexeme
        ensures { result ≡ spec.lexeme_at self.now at }
    {
        match self.lexemes.get(at as usize) {
            Some(lexeme) => *lexeme,
            None => Lexeme::Other,
        }
    }

    /// The number of the name at a token.
    pub fn name_at(&self, at: u32) -> Option<u32>
        ensures { result ≡ spec.name_at self.now at }
    {
        match self.lexeme(at) {
            Lexeme::Name(n) => Some(n),
            _ => None,
        }
    }

    /// The keyword at a token.
    pub fn word_at(&self, at: u32) -> Option<Word>
        ensures { result ≡ spec.word_at self.now at }
    {
        match self.lexeme(at) {
            Lexeme::Word(w) => Some(w),
            _ => None,
        }
    }

    /// A new declaration, which names nothing yet.
    #[tactic(auto, unfolding(crate::specs::Steps::new_declaration))]
    pub fn new_declaration(&mut self, alloc: Global) -> Result<u32, AllocError>
        ensures { Gives (spec.new_declaration self.old) result self.new }
    {
        let number = self.findings.uses.len();
        // Numbers are u32. No file is long enough to need more.
        if number > 0xffff_ffff {
            return Err(AllocError);
        }
        self.findings.uses.declare(alloc)?;
        Ok(number as u32)
    }

    /// Makes another declaration the one at hand, and answers the one that was.
    pub fn enter_declaration(&mut self, declaration: u32) -> u32
        ensures answer { result ≡ self.old.declaration }
        ensures now { self.new ≡ record self.old { declaration = declaration } }
    {
        let outer = self.declaration;
        self.declaration = declaration;
        outer
    }

    /// Begins a block, and answers where the one around it began.
    #[tactic(auto, unfolding(crate::specs::Steps::begin_block))]
    pub fn begin_block(&mut self) -> Result<Block, AllocError>
        ensures { Gives (spec.begin_block self.old) result self.new }
    {
        let outer = self.block;
        if self.names.len() > 0xffff_ffff || self.tag_names.len() > 0xffff_ffff {
            return Err(AllocError);
        }
        self.block = Block {
            names: self.names.len() as u32,
            tags: self.tag_names.len() as u32,
        };
        Ok(outer)
    }

    /// Leaves the innermost block for the one around it.
    #[tactic(auto, unfolding(crate::specs::Steps::ended))]
    pub fn end_block(&mut self, outer: Block)
        ensures { self.new ≡ spec.ended outer self.old }
    {
        self.names.leave(self.block.names as usize);
        self.tag_names.leave(self.block.tags as usize);
        self.block = outer;
    }

    /// A new identifier in the innermost block, without a look at what it was before.
    #[tactic(auto, unfolding(crate::specs::Steps::declare))]
    pub fn declare(&mut self, name: u32, entity: Entity, declaration: u32) -> Result<(), AllocError>
        ensures { Gives (spec.declare name entity declaration self.old) result self.new }
    {
        if self.named.len() > 0xffff_ffff {
            return Err(AllocError);
        }
        let number = self.named.len() as u32;
        self.named.push(Named {
            entity,
            declaration,
        })?;
        self.names.declare(name, number)?;
        Ok(())
    }

    /// What an identifier stands for.
    pub fn find(&self, name: u32) -> Option<&Named>
        ensures { option_copied result ≡ spec.find self.now name }
    {
        match self.names.find(name) {
            Some(number) => self.named.get(number as usize),
            None => None,
        }
    }

    /// A new tag of a struct, union or enumeration without a body, with the struct's number.
    #[tactic(auto, unfolding(crate::specs::Steps::new_tag))]
    pub fn new_tag(&mut self, alloc: Global, kind: TagKind) -> Result<u32, AllocError>
        ensures { Gives (spec.new_tag kind self.old) result self.new }
    {
        let declaration = self.new_declaration(alloc)?;
        let id = self.structs.len();
        let number = self.tags.len();
        if id > 0xffff_ffff || number > 0xffff_ffff {
            return Err(AllocError);
        }
        self.tags.push(Tag {
            kind,
            id: StructId(id as u32),
            declaration,
            body: Body::NoBody,
        })?;
        Ok(number as u32)
    }
}
