//! The reader of objects with holds.

ghost use Rattle.std.specs.Prelude.{◌≡◌, ◌↔◌, ◌≤◌, List, IsTrue, IfOk, MatchResult, length};
ghost use Rattle.std.specs.Map.{values_of};
ghost use Rattle.path_tree.specs.Tokens.{placed_tokens, AreTokens};
ghost use Rattle.decl_core.specs.ObjectForm.{ObjectForm};
ghost use Rattle.decl_core.specs.ObjectMap.{objects_of};
ghost use Rattle.decl_read.specs.Sources.{AreObjectsOf, lex_fault_told, text_fault_told};
ghost use Rattle.decl_read.specs.declared.fault.DeclFault.TheVariants.{Memory};
ghost use Rattle.decl_core.specs.HoldForm.{RulesForm, no_rules};
ghost use Rattle.decl_core.specs.HoldMap.{all_rules_of, rules_of};
ghost use Rattle.decl_read.specs.HeldSources.{AreHeldObjectsOf, AreRuled, SayNothing};
ghost use Rattle.decl_read.specs.Sections.{cut_by};
ghost use Rattle.decl_read.specs.declared.held_read.Held.{Held};
ghost use Rattle.decl_read.specs.declared.held_read.Look.TheVariants.{Held as TheHeld, Plain};

use crate::cut::cut_of;
use crate::fault::DeclFault;
use crate::faults::first_fault;
use crate::read::read_objects;
use crate::rules::all_rules;
use decl_core::hold::Rules;
use decl_core::object::Object;
use indexmap::IndexMap;
use path_tree::lex::fault::LexFault;
use path_tree::lex::lex;
use path_tree::name::Name;
use path_tree::token::Token;
use std::alloc::{AllocError, Global};
use token_read::text_fault::TextFault;

/// The objects of a source, and what each says of clients that are gone and of time, in order.
#[derive(Drop)]
pub struct Held {
    /// The source without the holds: of the same length, with all else in its place. `read_objects` reads these objects
    /// from it.
    pub cut: Vec<u8>,
    pub objects: Vec<Object>,
    /// Of each object.
    pub rules: Vec<Rules>,
}

// The objects of a map, in order.
fn values(alloc: Global, all: IndexMap<Name, Object>) -> Result<Vec<Object>, AllocError>
    ensures { IfOk result (λ v. objects_of v.items ≡ objects_of (values_of all.entries)) }
{
    let mut objects = Vec::new(alloc);
    for object in all.into_values() {
        let Ok(()) = objects.push(object) else {
            return Err(AllocError);
        };
    }
    Ok(objects)
}

// What is told where a source has no tokens.
fn told(fault: LexFault) -> DeclFault
    ensures { result ≡ lex_fault_told fault }
{
    match fault {
        LexFault::Memory => DeclFault::Memory,
        LexFault::TooLong => DeclFault::Lex(LexFault::TooLong),
        LexFault::BadByte(at) => DeclFault::Lex(LexFault::BadByte(at)),
        LexFault::OpenComment(at) => DeclFault::Lex(LexFault::OpenComment(at)),
        LexFault::OpenString(at) => DeclFault::Lex(LexFault::OpenString(at)),
        LexFault::BadNumber(at) => DeclFault::Lex(LexFault::BadNumber(at)),
    }
}

// What is told where the objects, or their holds, are none.
fn told_behind(
    alloc: Global,
    source: &[u8],
    cut: &[u8],
    tokens: &[Token],
    fault: DeclFault,
) -> DeclFault
    ensures { fault ≡ Memory → result ≡ Memory }
{
    match fault {
        DeclFault::Memory => DeclFault::Memory,
        DeclFault::Lex(_) => fault,
        DeclFault::Path(_) => first_fault(alloc, source, cut, tokens, fault),
        DeclFault::Syntax(_) => first_fault(alloc, source, cut, tokens, fault),
        DeclFault::DuplicateName(_) => first_fault(alloc, source, cut, tokens, fault),
        DeclFault::WrongType(_) => first_fault(alloc, source, cut, tokens, fault),
        DeclFault::UnknownName(_) => first_fault(alloc, source, cut, tokens, fault),
        DeclFault::TooMany(_) => first_fault(alloc, source, cut, tokens, fault),
    }
}

// A fault of tokens, as it is told.
fn fault_of(fault: TextFault) -> DeclFault
    ensures { result ≡ text_fault_told fault }
{
    match fault {
        TextFault::Path(fault) => DeclFault::Path(fault),
        TextFault::Syntax(at) => DeclFault::Syntax(at),
        TextFault::DuplicateName(at) => DeclFault::DuplicateName(at),
        TextFault::WrongType(at) => DeclFault::WrongType(at),
        TextFault::UnknownName(at) => DeclFault::UnknownName(at),
        TextFault::TooMany(at) => DeclFault::TooMany(at),
        TextFault::Memory => DeclFault::Memory,
    }
}

// The holds of these objects.
fn with_rules(
    alloc: Global,
    source: &[u8],
    cut: Vec<u8>,
    tokens: &[Token],
    all: IndexMap<Name, Object>,
) -> Result<Held, DeclFault>
    requires { length tokens.now ≤ 65537 }
    ensures found { IfOk result (λ h. (objects_of h.objects.items ≡ objects_of (values_of all.entries))
        × AreRuled (objects_of h.objects.items) (placed_tokens tokens.now) (all_rules_of h.rules.items)
        × (h.cut.items ≡ cut.items)) }
    ensures only { (rules : List RulesForm) → AreRuled (objects_of (values_of all.entries)) (placed_tokens tokens.now) rules →
        MatchResult result (λ h. all_rules_of h.rules.items ≡ rules) (λ fault. fault ≡ Memory) }
{
    let objects = match values(alloc, all) {
        Ok(objects) => objects,
        Err(_) => return Err(DeclFault::Memory),
    };
    match all_rules(alloc, Vec::new(alloc), &objects, tokens) {
        Ok(rules) => Ok(Held {
            cut,
            objects,
            rules,
        }),
        Err(fault) => {
            let fault = fault_of(fault);
            Err(told_behind(alloc, source, &cut, tokens, fault))
        }
    }
}

// The objects of a source of these tokens, with their holds.
fn held_of(alloc: Global, source: &[u8], tokens: &[Token]) -> Result<Held, DeclFault>
    requires lexed { AreTokens source.now (placed_tokens tokens.now) }
    requires short { length source.now ≤ 65536 }
    requires few { length tokens.now ≤ 65537 }
    ensures found { IfOk result (λ h. AreHeldObjectsOf source.now (objects_of h.objects.items) (all_rules_of h.rules.items)) }
    ensures cut { IfOk result (λ h. AreObjectsOf h.cut.items (objects_of h.objects.items)) }
    ensures only { (objects : List ObjectForm) → (rules : List RulesForm) → AreHeldObjectsOf source.now objects rules →
        MatchResult result (λ h. (objects_of h.objects.items ≡ objects) × (all_rules_of h.rules.items ≡ rules))
        (λ fault. fault ≡ Memory) }
{
    let cut = match cut_of(alloc, tokens, source) {
        Ok(cut) => cut,
        Err(_) => return Err(DeclFault::Memory),
    };
    match read_objects(alloc, &cut) {
        Ok(all) => with_rules(alloc, source, cut, tokens, all),
        Err(fault) => Err(told_behind(alloc, source, &cut, tokens, fault)),
    }
}

/// Reads the objects of a source as `read_objects` does, and what each says of clients that are gone and of time, which
/// stands behind its operations: `hold OP until UNDO, .. [by any];` and `every S call OP;`. A source without them has
/// the objects, or the fault, that `read_objects` tells.
///
/// The faults are those of `read_objects`, told where the first of them stands, and of holds: `Syntax` a token that the
/// grammar does not have there, or seconds outside 1 to 86,400; `DuplicateName` an operation that stands in a hold
/// before, or is called by `every` before, and for `every` one that ends a hold; `WrongType` the name of a constant or
/// a part, or an operation whose parameters do not fit; `UnknownName` no operation of this object; `TooMany` the word
/// `hold` of the 17th hold of an object, and the word `every` of the 5th that is called again and again.
/// A name that stands twice is told before its parameters. `Memory` comes where the growth was refused. A refused source
/// leaves nothing.
pub fn read_held(alloc: Global, source: &[u8]) -> Result<Held, DeclFault>
    // What is read are the objects of the source, in order, and their holds.
    ensures found { IfOk result (λ h. AreHeldObjectsOf source.now (objects_of h.objects.items) (all_rules_of h.rules.items)) }
    // The source without the holds has these objects.
    ensures cut { IfOk result (λ h. AreObjectsOf h.cut.items (objects_of h.objects.items)) }
    // The objects of a source with holds are read, unless memory runs out.
    ensures only { (objects : List ObjectForm) → (rules : List RulesForm) → AreHeldObjectsOf source.now objects rules →
        MatchResult result (λ h. (objects_of h.objects.items ≡ objects) × (all_rules_of h.rules.items ≡ rules))
        (λ fault. fault ≡ Memory) }
{
    match lex(alloc, source) {
        Err(fault) => Err(told(fault)),
        Ok(tokens) => held_of(alloc, source, &tokens),
    }
}

/// What a source has of holds.
#[derive(Drop)]
pub enum Look {
    /// Nothing: it has the objects, or the fault, that `read_objects` tells.
    Plain,
    /// These objects, of which one at least has a hold or calls something again and again.
    Held(Held),
    /// A fault, which is another one than that of the source as `read_objects` takes it.
    Faulty(DeclFault),
}

// Whether an object says nothing of clients that are gone and of time.
fn says_nothing(rules: &Rules) -> bool
    ensures { IsTrue result ↔ (rules_of rules.now ≡ no_rules) }
{
    rules.holds.is_empty() && rules.everies.is_empty()
}

// Whether no object does.
fn say_nothing(all: &[Rules]) -> bool
    ensures { IsTrue result ↔ SayNothing (all_rules_of all.now) }
{
    match all {
        [] => true,
        [rules, rest @ ..] => says_nothing(rules) && say_nothing(rest),
    }
}

// The fault of a source, where it is another one than that of the source as it stands.
fn other_fault(alloc: Global, source: &[u8], fault: DeclFault) -> Result<Look, AllocError>
    requires { fault ≡ Memory → ⊥ }
    ensures { IfOk result (λ look. ((h : Held) → look ≡ TheHeld h → ⊥) × (fault ≡ Memory → ⊥)) }
{
    match read_objects(alloc, source) {
        Ok(_) => Ok(Look::Faulty(fault)),
        Err(DeclFault::Memory) => Err(AllocError),
        Err(plain) => if plain == fault {
            Ok(Look::Plain)
        } else {
            Ok(Look::Faulty(fault))
        },
    }
}

/// What a source has of holds. Whoever serves or runs objects without holds asks this first.
///
/// The error is that memory was refused.
pub fn look_at(alloc: Global, source: &[u8]) -> Result<Look, AllocError>
    // What is found is what the source has.
    ensures held { IfOk result (λ look. (h : Held) → look ≡ TheHeld h →
        AreHeldObjectsOf source.now (objects_of h.objects.items) (all_rules_of h.rules.items)) }
    // The source without the holds has these objects.
    ensures cut { IfOk result (λ look. (h : Held) → look ≡ TheHeld h → AreObjectsOf h.cut.items (objects_of h.objects.items)) }
    // Where nothing is found no object has a hold.
    ensures plain { IfOk result (λ look. (objects : List ObjectForm) → (rules : List RulesForm) →
        AreHeldObjectsOf source.now objects rules → look ≡ Plain → SayNothing rules) }
    // In a source of the grammar without holds nothing is found.
    ensures old { IfOk result (λ look. (objects : List ObjectForm) → AreObjectsOf source.now objects → look ≡ Plain) }
{
    match read_held(alloc, source) {
        Ok(held) => if say_nothing(&held.rules) {
            Ok(Look::Plain)
        } else {
            Ok(Look::Held(held))
        },
        Err(DeclFault::Memory) => Err(AllocError),
        Err(fault) => {
            let look = other_fault(alloc, source, fault)?;
            Ok(look)
        }
    }
}
