// Identities of verbs.
ghost use Rattle.std.specs.Prelude.{◌≡◌};
ghost use Rattle.j_insert.specs.Identities.{identity};

use j_leaves::Primitive;

/// What the verb gives where it is inserted between no items.
pub fn identity(p: Primitive) -> Option<i64>
    ensures { result ≡ identity p }
{
    match p {
        Primitive::Less
        | Primitive::Greater
        | Primitive::Plus
        | Primitive::Minus
        | Primitive::Or
        | Primitive::NotEqual
        | Primitive::Residue => Some(0),
        Primitive::Equal
        | Primitive::LessEqual
        | Primitive::GreaterEqual
        | Primitive::Times
        | Primitive::Divide
        | Primitive::And
        | Primitive::Power => Some(1),
        _ => None,
    }
}
