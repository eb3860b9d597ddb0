ghost use Rattle.parser.specs.internal.Reading as reading;
ghost use Rattle.parser.specs.internal.Reads.{place, Reads};

use crate::cursor::Cursor;
use crate::halt::Halt;
use crate::list::separated;
use crate::rule::Rule;
use lexer::Kind;
use syntax::{Boxed, Identifier, Items, Label, LabelValue, TypeName, Width};

#[derive(Drop)]
struct NameRule;

impl Rule for NameRule {
    type Tree = Identifier;

    ghost can_read = { λ _. Unit {0} };

    ghost reader = { λ _. reading.identifier };

    fn read(&self, cursor: &mut Cursor<'_, '_>) -> Result<Identifier, Halt> {
        cursor.identifier()
    }
}

/// `name, .., name`
#[tactic(auto, unfolding(crate::specs::internal::Reading::names))]
pub fn names(cursor: &mut Cursor<'_, '_>) -> Result<Items<Identifier>, Halt>
    ensures { Reads (reading.names (place cursor.old)) result (place cursor.new) }
{
    separated(&NameRule, cursor, Kind::Comma)
}

/// `number bits`
#[tactic(auto, unfolding(crate::specs::internal::Reading::width, crate::specs::internal::Readers::bind, crate::specs::internal::Readers::pure))]
pub fn width(cursor: &mut Cursor<'_, '_>) -> Result<Width, Halt>
    ensures { Reads (reading.width (place cursor.old)) result (place cursor.new) }
{
    let number = cursor.take(Kind::Number)?;
    cursor.take(Kind::BitsWord)?;
    Ok(Width {
        span: number.span,
        bits: number.number,
    })
}

/// `number bits` or a type's name
#[tactic(auto, unfolding(crate::specs::internal::Reading::type_name_of, crate::specs::internal::Reading::type_by_width, crate::specs::internal::Reading::type_by_name, crate::specs::internal::Readers::branch, crate::specs::internal::Readers::bind, crate::specs::internal::Readers::pure))]
pub fn type_name(cursor: &mut Cursor<'_, '_>) -> Result<TypeName, Halt>
    ensures { Reads (reading.type_name_of (place cursor.old)) result (place cursor.new) }
{
    if cursor.sees(Kind::Number) {
        let bits = width(cursor)?;
        Ok(TypeName::Bits(bits))
    } else {
        let name = cursor.identifier()?;
        Ok(TypeName::Named(Boxed::new(cursor.alloc(), name)?))
    }
}

/// `: type`
#[tactic(auto, unfolding(crate::specs::internal::Reading::type_behind, crate::specs::internal::Readers::bind, crate::specs::internal::Readers::pure))]
pub fn type_behind(cursor: &mut Cursor<'_, '_>) -> Result<TypeName, Halt>
    ensures { Reads (reading.type_behind (place cursor.old)) result (place cursor.new) }
{
    cursor.take(Kind::Colon)?;
    type_name(cursor)
}

/// A number or a name
#[derive(Drop)]
struct LabelRule;

impl Rule for LabelRule {
    type Tree = Label;

    ghost can_read = { λ _. Unit {0} };

    ghost reader = { λ _. reading.label_of };

    #[tactic(auto, unfolding(crate::specs::internal::Reading::label_of, crate::specs::internal::Reading::label_by_number, crate::specs::internal::Reading::label_by_name, crate::specs::internal::Readers::branch, crate::specs::internal::Readers::bind, crate::specs::internal::Readers::pure))]
    fn read(&self, cursor: &mut Cursor<'_, '_>) -> Result<Label, Halt> {
        if cursor.sees(Kind::Number) {
            let number = cursor.take(Kind::Number)?;
            Ok(Label {
                span: number.span,
                value: LabelValue::Number(number.number),
            })
        } else {
            let name = cursor.identifier()?;
            Ok(Label {
                span: name.span,
                value: LabelValue::Name(name.name),
            })
        }
    }
}

/// `label, .., label`
#[tactic(auto, unfolding(crate::specs::internal::Reading::labels))]
pub fn labels(cursor: &mut Cursor<'_, '_>) -> Result<Items<Label>, Halt>
    ensures { Reads (reading.labels (place cursor.old)) result (place cursor.new) }
{
    separated(&LabelRule, cursor, Kind::Comma)
}
