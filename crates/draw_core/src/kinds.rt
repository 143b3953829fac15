//! The names of the number types.

ghost use Rattle.std.specs.Prelude.{◌≡◌, IfSome, Some};
ghost use Rattle.nanorand_replay.specs.declared.replay.Kind.{Kind as AKind};
ghost use Rattle.draw_core.specs.Requests.{name_of};

use nanorand::replay::Kind;

/// Returns the type with this name.
pub fn kind_of(name: &str) -> Option<Kind>
    ensures found { IfSome result (λ kind. name.now ≡ name_of kind) }
    ensures only { (kind : AKind) → name.now ≡ name_of kind → result ≡ Some kind }
{
    match name {
        "i8" => Some(Kind::I8),
        "i16" => Some(Kind::I16),
        "i32" => Some(Kind::I32),
        "i64" => Some(Kind::I64),
        "i128" => Some(Kind::I128),
        "isize" => Some(Kind::Isize),
        "u8" => Some(Kind::U8),
        "u16" => Some(Kind::U16),
        "u32" => Some(Kind::U32),
        "u64" => Some(Kind::U64),
        "u128" => Some(Kind::U128),
        "usize" => Some(Kind::Usize),
        "bool" => Some(Kind::Bool),
        _ => None,
    }
}
