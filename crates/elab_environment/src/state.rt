ghost use Rattle.std.specs.Prelude.{◌≡◌};
ghost use Rattle.elab_environment.specs.Beginning as spec;

use crate::lexeme::Lexeme;
use c_types::{Layout, StructId};
use elab_findings::Findings;
use elab_scope::Scope;
use elab_types::SourceType;
use sqlite_items::Items;
use std::alloc::Global;

/// A member of a struct or union (C11 6.7.2.1).
#[derive(Drop)]
pub struct Field {
    pub name: u32,
    pub ty: SourceType,
    /// The width of a bit-field.
    pub bits: Option<u32>,
}

/// A member as it is collected, while its struct's body is read. An unnamed bit-field has no name.
#[derive(Drop)]
pub struct Collected {
    pub name: Option<u32>,
    pub ty: SourceType,
    pub bits: Option<u32>,
}

/// A struct or union. It is complete behind its body, whatever its members are.
#[derive(Drop)]
pub struct Struct {
    pub is_union: bool,
    pub is_complete: bool,
    /// The last member is an array without a length, or has such a struct in it.
    pub is_flexible: bool,
    /// Some member is const, or has a const member in it (C11 6.3.2.1p1).
    pub has_const: bool,
    pub fields: Items<Field>,
}

#[derive(Clone, Copy, Debug, Drop, PartialEq, Eq)]
pub enum TagKind {
    Struct,
    Union,
    Enum,
}

/// How far the body of a tag was read.
#[derive(Clone, Copy, Debug, Drop, PartialEq, Eq)]
pub enum Body {
    NoBody,
    Open,
    Closed,
}

/// What a tag stands for (C11 6.7.2.3). The struct's number says nothing of an enumeration.
#[derive(Clone, Copy, Debug, Drop, PartialEq, Eq)]
pub struct Tag {
    pub kind: TagKind,
    pub id: StructId,
    pub declaration: u32,
    pub body: Body,
}

/// What an ordinary identifier stands for (C11 6.2.3).
#[derive(Drop)]
pub enum Entity {
    Typedef(SourceType),
    Enumerator(i128),
    /// An object, by its number.
    Object(u32),
    /// A function, by its number.
    Function(u32),
}

/// An identifier's entity, and the declaration that naming it uses.
#[derive(Drop)]
pub struct Named {
    pub entity: Entity,
    pub declaration: u32,
}

#[derive(Clone, Copy, Debug, Drop, PartialEq, Eq)]
pub enum Linkage {
    External,
    Internal,
}

/// Where an object stands (C11 6.2.1, 6.2.4).
#[derive(Clone, Copy, Debug, Drop, PartialEq, Eq)]
pub enum Standing {
    /// At file scope, or `extern` in a block: it has linkage.
    Linked(Linkage),
    /// `static` in a block.
    StaticLocal,
    Parameter,
    /// In a function's outermost block.
    Local,
    Inner,
    /// A string literal.
    Literal,
}

/// An object.
#[derive(Drop)]
pub struct Object {
    /// The token of its name.
    pub name: Option<u32>,
    /// The first token of its first declarator.
    pub at: u32,
    /// Composed of those of its declarations (C11 6.2.7p4).
    pub ty: SourceType,
    pub standing: Standing,
    pub is_register: bool,
    /// Whether some declaration of it isn't `extern`, or has an initialiser.
    pub is_defined: bool,
    /// The declaration that naming it uses.
    pub declaration: u32,
    /// The declaration of its initialiser.
    pub initialiser: Option<u32>,
}

/// One of the declarations of an object with linkage, for the end of the file, where it is known how large its type is.
#[derive(Drop)]
pub struct ObjectDeclaration {
    pub object: u32,
    pub declaration: u32,
    /// The first token of its declarator.
    pub at: u32,
    pub ty: SourceType,
}

/// A function.
#[derive(Drop)]
pub struct Prototype {
    /// The token of its name.
    pub name: u32,
    /// Composed of those of its declarations (C11 6.2.7p4).
    pub ty: SourceType,
    pub linkage: Linkage,
    /// The place of its definition among those of the file.
    pub definition: Option<u32>,
    /// Whether each declaration at file scope is `inline` without `extern` (C11 6.7.4p7).
    pub is_inline: bool,
    /// The declaration that naming it uses.
    pub declaration: u32,
}

/// Where the innermost block begins, in the names and in the tags.
#[derive(Clone, Copy, Debug, Drop, PartialEq, Eq)]
pub struct Block {
    pub names: u32,
    pub tags: u32,
}

/// A call (C11 6.5.2.2), noted for the end of the file, where it is known whether the function is defined.
#[derive(Clone, Copy, Debug, Drop, PartialEq, Eq)]
pub struct Called {
    pub declaration: u32,
    pub function: u32,
    pub at: u32,
}

/// What an inline definition of a function with external linkage may not hold (C11 6.7.4p3), noted for the end of the file,
/// where it is known whether the function has one.
#[derive(Clone, Copy, Debug, Drop, PartialEq, Eq)]
pub struct NotInline {
    pub function: u32,
    pub at: u32,
}

#[derive(Drop)]
pub struct Environment {
    pub lexemes: Items<Lexeme>,
    /// The bytes of the string literals, one behind the other, without their zeros.
    pub strings: Items<u8>,
    pub findings: Findings,
    /// The declaration at hand: what is named, and what counts only where it is used, is its own.
    pub declaration: u32,
    pub block: Block,
    pub names: Scope,
    /// The names with linkage, each with the number among `named` of its object or function.
    pub linked: Scope,
    pub named: Items<Named>,
    pub tag_names: Scope,
    pub tags: Items<Tag>,
    pub structs: Items<Struct>,
    pub layout: Layout,
    pub objects: Items<Object>,
    pub object_declarations: Items<ObjectDeclaration>,
    pub functions: Items<Prototype>,
    pub calls: Items<Called>,
    /// Functions that are named outside `sizeof` (C11 6.9p3), with their names' tokens.
    pub named_functions: Items<(u32, u32)>,
    /// The function whose body is read.
    pub body_of: Option<u32>,
    pub not_inline: Items<NotInline>,
    /// How many operands of `sizeof` are open.
    pub unevaluated: u32,
}

impl Environment {
    /// What is known where a file begins: nothing is declared.
    pub fn new(alloc: Global, lexemes: Items<Lexeme>, strings: Items<u8>) -> Environment
        ensures { result ≡ spec.beginning lexemes strings }
    {
        Environment {
            lexemes,
            strings,
            findings: Findings::new(alloc),
            declaration: 0,
            block: Block { names: 0, tags: 0 },
            names: Scope::new(alloc),
            linked: Scope::new(alloc),
            named: Items::new(alloc),
            tag_names: Scope::new(alloc),
            tags: Items::new(alloc),
            structs: Items::new(alloc),
            layout: Layout {
                structs: Items::new(alloc),
            },
            objects: Items::new(alloc),
            object_declarations: Items::new(alloc),
            functions: Items::new(alloc),
            calls: Items::new(alloc),
            named_functions: Items::new(alloc),
            body_of: None,
            not_inline: Items::new(alloc),
            unevaluated: 0,
        }
    }
}
