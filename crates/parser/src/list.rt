//! Lists that are made item by item.

ghost use Rattle.std.specs.Prelude.{◌≡◌, ◌++◌, [], ◌∷◌, IfOk, IfErr};
ghost use Rattle.parser.specs.Input.{Input};
ghost use Rattle.parser.specs.internal.Readers.{read};
ghost use Rattle.parser.specs.internal.Reading as reading;
ghost use Rattle.parser.specs.internal.Reads.{place, Builds, Reads};
ghost use Rattle.parser.specs.declared.halt.Halt.TheVariants.{Memory};

use crate::cursor::Cursor;
use crate::halt::Halt;
use crate::rule::Rule;
use lexer::Kind;
use std::alloc::Global;
use syntax::Items;

/// A list of one item, unless memory is out.
pub fn one<T: Drop>(alloc: Global, item: T) -> Result<Items<T>, Halt>
    ensures ok { IfOk result (λ items. items ≡ item ∷ []) }
    ensures err { IfErr result (λ halt. halt ≡ Memory) }
{
    let mut items = Items::new(alloc);
    items.push(item)?;
    Ok(items)
}

/// `sign` and the item behind it.
#[derive(Drop)]
pub struct Behind<'r, R> {
    pub sign: Kind,
    pub item: &'r R,
}

impl<R: Rule> Rule for Behind<'_, R> {
    type Tree = R::Tree;

    ghost can_read = { λ behind. R.can_read behind.item.now };

    ghost reader = { λ behind. reading.behind behind.sign (R.reader behind.item.now) };

    #[tactic(auto, unfolding(crate::specs::internal::Reading::behind, crate::specs::internal::Readers::bind))]
    fn read(&self, cursor: &mut Cursor<'_, '_>) -> Result<R::Tree, Halt> {
        cursor.take(self.sign)?;
        self.item.read(cursor)
    }
}

/// One more, behind `items`.
#[tactic(auto, unfolding(crate::specs::internal::Reading::one_more, crate::specs::internal::Readers::bind, crate::specs::internal::Readers::pure))]
pub fn next<R: Rule>(
    rule: &R,
    cursor: &mut Cursor<'_, '_>,
    items: &mut Items<R::Tree>,
) -> Result<(), Halt>
    requires { R.can_read rule.now }
    ensures { Builds (reading.one_more (R.reader rule.now) items.old (place cursor.old)) items.new result
        (place cursor.new) }
{
    let item = rule.read(cursor)?;
    items.push(item)?;
    Ok(())
}

/// Each that follows, behind `items`. One begins with one of these kinds.
pub fn several<R: Rule>(
    rule: &R,
    cursor: &mut Cursor<'_, '_>,
    kinds: &[Kind],
    items: &mut Items<R::Tree>,
) -> Result<(), Halt>
    requires { R.can_read rule.now }
    ensures { Builds (reading.several kinds.now (R.reader rule.now) items.old (place cursor.old)) items.new result
        (place cursor.new) }
{
    for _turn in 0..cursor.rest().len() {
        if !cursor.sees_any(kinds) {
            return Ok(());
        }
        next(rule, cursor, items)?;
    }
    Ok(())
}

/// None or more.
pub fn all<R: Rule>(
    rule: &R,
    cursor: &mut Cursor<'_, '_>,
    kinds: &[Kind],
) -> Result<Items<R::Tree>, Halt>
    requires { R.can_read rule.now }
    ensures { Reads (reading.several kinds.now (R.reader rule.now) [] (place cursor.old)) result (place cursor.new) }
{
    let mut items = Items::new(cursor.alloc());
    several(rule, cursor, kinds, &mut items)?;
    Ok(items)
}

/// One as `first` reads it, and each that follows as `more` does.
#[tactic(auto, unfolding(crate::specs::internal::Readers::bind, crate::specs::internal::Readers::pure))]
pub fn one_or_more<A: Rule, B: Rule<Tree = A::Tree>>(
    first: &A,
    more: &B,
    cursor: &mut Cursor<'_, '_>,
    kinds: &[Kind],
) -> Result<Items<A::Tree>, Halt>
    requires first { A.can_read first.now }
    requires more { B.can_read more.now }
    ensures { Reads (reading.one_or_more kinds.now (A.reader first.now) (B.reader more.now) (place cursor.old)) result
        (place cursor.new) }
{
    let item = first.read(cursor)?;
    let mut items = one(cursor.alloc(), item)?;
    several(more, cursor, kinds, &mut items)?;
    Ok(items)
}

/// `item sign .. sign item`
#[tactic(auto, unfolding(crate::specs::internal::Reading::separated))]
pub fn separated<R: Rule>(
    item: &R,
    cursor: &mut Cursor<'_, '_>,
    sign: Kind,
) -> Result<Items<R::Tree>, Halt>
    requires { R.can_read item.now }
    ensures { Reads (reading.separated sign (R.reader item.now) (place cursor.old)) result (place cursor.new) }
{
    one_or_more(item, &Behind { sign, item }, cursor, &[sign])
}
