// A law of typed sources, the contract of a function that does nothing.
ghost use Rattle.typed_source.specs.Laws.{NamesAreOwn};

/// The names that a procedure of a typed source declares are distinct, and no `:` stands in one.
pub fn names_are_own()
    ensures { NamesAreOwn }
{
    types::declared_names_are_distinct();
}
