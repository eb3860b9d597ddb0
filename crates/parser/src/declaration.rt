//! Declarations and the whole description.

ghost use Rattle.std.specs.Prelude.{◌≡◌, List, [], ◌∷◌};
ghost use Rattle.parser.specs.internal.Readers as readers;
ghost use Rattle.parser.specs.internal.Reading as reading;
ghost use Rattle.parser.specs.internal.Reads.{place, Reads};
ghost use Rattle.parser.specs.Accepted.{most_levels};
ghost use Rattle.parser.specs.internal.BySign as by_sign;
ghost use Rattle.lexer.specs.declared.token.Kind.{Kind};
ghost use Rattle.syntax.specs.declared.expression.TypeName.{TypeName};
ghost use Rattle.syntax.specs.declared.name.Identifier.{Identifier};

use crate::command::command;
use crate::cursor::{Cursor, LEVELS};
use crate::halt::Halt;
use crate::list::{all, one_or_more, separated};
use crate::name::{names, type_behind, width};
use crate::rule::Rule;
use lexer::Kind;
use syntax::{
    Command, Description, Identifier, Items, Local, LocalKind, Port, PortKind, Procedure,
    TypeDeclaration, TypeDefinition, TypeName,
};

/// `number bits` or `enumeration names end`
#[tactic(auto, unfolding(crate::specs::internal::Reading::type_definition, crate::specs::internal::Reading::bits, crate::specs::internal::Reading::enumeration, crate::specs::internal::Readers::branch, crate::specs::internal::Readers::bind, crate::specs::internal::Readers::pure))]
fn definition(cursor: &mut Cursor<'_, '_>) -> Result<TypeDefinition, Halt>
    ensures { Reads (reading.type_definition (place cursor.old)) result (place cursor.new) }
{
    if cursor.sees(Kind::Number) {
        let bits = width(cursor)?;
        Ok(TypeDefinition::Bits(bits))
    } else {
        cursor.take(Kind::EnumerationWord)?;
        let elements = names(cursor)?;
        cursor.take(Kind::EndWord)?;
        Ok(TypeDefinition::Enumeration(elements))
    }
}

/// `type name is definition`
#[derive(Drop)]
struct TypeRule;

impl Rule for TypeRule {
    type Tree = TypeDeclaration;

    ghost can_read = { λ _. Unit {0} };

    ghost reader = { λ _. reading.type_declaration };

    #[tactic(auto, unfolding(crate::specs::internal::Reading::type_declaration, crate::specs::internal::Readers::bind, crate::specs::internal::Readers::pure))]
    fn read(&self, cursor: &mut Cursor<'_, '_>) -> Result<TypeDeclaration, Halt> {
        cursor.take(Kind::TypeWord)?;
        let name = cursor.identifier()?;
        cursor.take(Kind::IsWord)?;
        let definition = definition(cursor)?;
        Ok(TypeDeclaration { name, definition })
    }
}

/// What is declared by names behind a word: ports and locals.
trait Declared: Drop {
    ghost typed: { Kind → List Identifier → TypeName → Self };

    ghost sync: { List Identifier → Self };

    /// What names and a type declare behind `word`.
    fn typed(word: Kind, names: Items<Identifier>, given: TypeName) -> Self
        ensures { result ≡ typed word names given };

    /// What names alone declare.
    fn sync(names: Items<Identifier>) -> Self
        ensures { result ≡ sync names };
}

/// `word names : type`
#[tactic(auto, unfolding(crate::specs::internal::Readers::bind, crate::specs::internal::Readers::pure))]
fn typed<D: Declared>(cursor: &mut Cursor<'_, '_>, word: Kind) -> Result<D, Halt>
    ensures { Reads (reading.typed word (D.typed word) (place cursor.old)) result (place cursor.new) }
{
    cursor.take(word)?;
    let names = names(cursor)?;
    let given = type_behind(cursor)?;
    Ok(D::typed(word, names, given))
}

/// `sync names`
#[tactic(auto, unfolding(crate::specs::internal::Readers::bind, crate::specs::internal::Readers::pure))]
fn synced<D: Declared>(cursor: &mut Cursor<'_, '_>) -> Result<D, Halt>
    ensures { Reads (reading.synced D.sync (place cursor.old)) result (place cursor.new) }
{
    cursor.take(Kind::SyncWord)?;
    let names = names(cursor)?;
    Ok(D::sync(names))
}

impl Declared for Port {
    ghost typed = { by_sign.typed_port };

    ghost sync = { by_sign.synced_port };

    fn typed(word: Kind, names: Items<Identifier>, given: TypeName) -> Port {
        let kind = match word {
            Kind::InputWord => PortKind::Input(given),
            _ => PortKind::Output(given),
        };
        Port { names, kind }
    }

    fn sync(names: Items<Identifier>) -> Port {
        Port {
            names,
            kind: PortKind::Sync,
        }
    }
}

#[derive(Drop)]
struct PortRule;

impl Rule for PortRule {
    type Tree = Port;

    ghost can_read = { λ _. Unit {0} };

    ghost reader = { λ _. reading.port_of };

    #[tactic(auto, unfolding(crate::specs::internal::Reading::port_of, crate::specs::internal::Reading::input_port, crate::specs::internal::Reading::output_port, crate::specs::internal::Reading::sync_port, crate::specs::internal::Readers::branch))]
    fn read(&self, cursor: &mut Cursor<'_, '_>) -> Result<Port, Halt> {
        if cursor.sees(Kind::InputWord) {
            typed(cursor, Kind::InputWord)
        } else if cursor.sees(Kind::OutputWord) {
            typed(cursor, Kind::OutputWord)
        } else {
            synced(cursor)
        }
    }
}

/// `( port ; .. ; port )`, or nothing.
#[tactic(auto, unfolding(crate::specs::internal::Reading::ports, crate::specs::internal::Reading::port_list, crate::specs::internal::Readers::branch, crate::specs::internal::Readers::bind, crate::specs::internal::Readers::pure))]
fn ports(cursor: &mut Cursor<'_, '_>) -> Result<Items<Port>, Halt>
    ensures { Reads (reading.ports (place cursor.old)) result (place cursor.new) }
{
    if cursor.sees(Kind::LeftParenthesis) {
        cursor.take(Kind::LeftParenthesis)?;
        let ports = separated(&PortRule, cursor, Kind::Semicolon)?;
        cursor.take(Kind::RightParenthesis)?;
        Ok(ports)
    } else {
        Ok(Items::new(cursor.alloc()))
    }
}

impl Declared for Local {
    ghost typed = { by_sign.typed_local };

    ghost sync = { by_sign.synced_local };

    fn typed(word: Kind, names: Items<Identifier>, given: TypeName) -> Local {
        let kind = match word {
            Kind::VariableWord => LocalKind::Variable(given),
            Kind::SharedWord => LocalKind::SharedVariable(given),
            _ => LocalKind::Channel(given),
        };
        Local { names, kind }
    }

    fn sync(names: Items<Identifier>) -> Local {
        Local {
            names,
            kind: LocalKind::Sync,
        }
    }
}

/// `shared variable names : type`
#[tactic(auto, unfolding(crate::specs::internal::Reading::shared_variables, crate::specs::internal::Readers::bind, crate::specs::internal::Readers::pure))]
fn shared_variables(cursor: &mut Cursor<'_, '_>) -> Result<Local, Halt>
    ensures { Reads (reading.shared_variables (place cursor.old)) result (place cursor.new) }
{
    cursor.take(Kind::SharedWord)?;
    cursor.take(Kind::VariableWord)?;
    let names = names(cursor)?;
    let given = type_behind(cursor)?;
    Ok(Local::typed(Kind::SharedWord, names, given))
}

#[derive(Drop)]
struct LocalRule;

impl Rule for LocalRule {
    type Tree = Local;

    ghost can_read = { λ _. Unit {0} };

    ghost reader = { λ _. reading.local_of };

    #[tactic(auto, unfolding(crate::specs::internal::Reading::local_of, crate::specs::internal::Reading::variables, crate::specs::internal::Reading::channels, crate::specs::internal::Reading::syncs, crate::specs::internal::Readers::branch))]
    fn read(&self, cursor: &mut Cursor<'_, '_>) -> Result<Local, Halt> {
        if cursor.sees(Kind::VariableWord) {
            typed(cursor, Kind::VariableWord)
        } else if cursor.sees(Kind::SharedWord) {
            shared_variables(cursor)
        } else if cursor.sees(Kind::ChannelWord) {
            typed(cursor, Kind::ChannelWord)
        } else {
            synced(cursor)
        }
    }
}

/// What begins a declaration of locals.
const LOCAL_WORDS: [Kind; 4] = [
    Kind::VariableWord,
    Kind::SharedWord,
    Kind::ChannelWord,
    Kind::SyncWord,
];

/// `begin command end`
#[tactic(auto, unfolding(crate::specs::internal::Reading::block, crate::specs::internal::Reading::command, crate::specs::internal::Readers::bind, crate::specs::internal::Readers::pure))]
fn block(cursor: &mut Cursor<'_, '_>) -> Result<Command, Halt>
    ensures { Reads (reading.block most_levels (place cursor.old)) result (place cursor.new) }
{
    cursor.take(Kind::BeginWord)?;
    let body = command(cursor, LEVELS + 1)?;
    cursor.take(Kind::EndWord)?;
    Ok(body)
}

/// The ports, locals and body of the procedure `name`.
#[tactic(auto, unfolding(crate::specs::internal::Reading::procedure_of, crate::specs::internal::Readers::bind, crate::specs::internal::Readers::pure))]
fn procedure_of(cursor: &mut Cursor<'_, '_>, name: Identifier) -> Result<Procedure, Halt>
    ensures { Reads (reading.procedure_of most_levels name (place cursor.old)) result (place cursor.new) }
{
    let ports = ports(cursor)?;
    cursor.take(Kind::IsWord)?;
    let locals = all(&LocalRule, cursor, &LOCAL_WORDS)?;
    let body = block(cursor)?;
    Ok(Procedure {
        name,
        ports,
        locals,
        body,
    })
}

#[derive(Drop)]
struct ProcedureRule;

impl Rule for ProcedureRule {
    type Tree = Procedure;

    ghost can_read = { λ _. Unit {0} };

    ghost reader = { λ _. reading.procedure most_levels };

    #[tactic(auto, unfolding(crate::specs::internal::Reading::procedure, crate::specs::internal::Readers::bind, crate::specs::internal::Readers::pure))]
    fn read(&self, cursor: &mut Cursor<'_, '_>) -> Result<Procedure, Halt> {
        cursor.take(Kind::ProcedureWord)?;
        let name = cursor.identifier()?;
        procedure_of(cursor, name)
    }
}

/// Declarations of types, and one procedure or more.
#[tactic(auto, unfolding(crate::specs::internal::Reading::description, crate::specs::internal::Reading::procedures, crate::specs::internal::Readers::bind, crate::specs::internal::Readers::pure))]
fn description(cursor: &mut Cursor<'_, '_>) -> Result<Description, Halt>
    ensures { Reads (reading.description most_levels (place cursor.old)) result (place cursor.new) }
{
    let types = all(&TypeRule, cursor, &[Kind::TypeWord])?;
    let rule = ProcedureRule;
    let procedures = one_or_more(&rule, &rule, cursor, &[Kind::ProcedureWord])?;
    Ok(Description { types, procedures })
}

/// A description, and nothing behind it.
#[tactic(auto, unfolding(crate::specs::internal::Readers::whole))]
pub fn whole(cursor: &mut Cursor<'_, '_>) -> Result<Description, Halt>
    ensures { Reads (readers.whole (reading.description most_levels) (place cursor.old)) result (place cursor.new) }
{
    let description = description(cursor)?;
    if cursor.sees(Kind::End) {
        Ok(description)
    } else {
        Err(Halt::Unexpected)
    }
}
