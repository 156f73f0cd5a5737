//! Laws of the grammar.

ghost use Rattle.c_parse.specs.Laws.{AssociateToTheLeft, ElseIsTheNearest, RefusedAreTooDeep, SpellAtMostOne};

/// A law: an `else` belongs to the nearest `if` (ISO/IEC 9899:2011, 6.8.4.1p3), and operators associate to the left by
/// their levels (6.5).
pub fn trees_are_bound()
    ensures nearest { ElseIsTheNearest }
    ensures left { AssociateToTheLeft }
{}

/// A law: tokens spell one tree or none, and those that are refused none or one that nests more than 64 deep.
pub fn trees_are_one()
    ensures one { SpellAtMostOne }
    ensures refused { RefusedAreTooDeep }
{}
