//! Objects and properties in one expression.
ghost use Rattle.std.specs.Prelude.{◌≡◌};

use bitflags::Flags;
use spa_utils::ChoiceFlags;

/// The flags of a choice that a macro makes: 0.
#[doc(hidden)]
pub fn no_flags() -> ChoiceFlags
    ensures { result.0 ≡ 0 }
{
    ChoiceFlags::empty()
}

/// A property without flags: `property!(in alloc; key, ..)`, where `alloc` is the allocator of a list in it. The key,
/// and the ids below, are of types with a method `as_raw`, such as `Id`. Behind the key comes
///
/// - a value; or
/// - `Id` and an id; or
/// - the name of any other variant of `Value` that holds one thing, and what it holds; or
/// - `Choice`, `Enum` or `Flags`, a variant of `ChoiceValue`, the default, and one or more alternatives or flags, which
///   in an `Enum` over `Id` have `as_raw`, the default too; or
/// - `Choice`, `Range`, a variant, default, minimum and maximum; or `Choice`, `Step`, a variant, these and the step.
///
/// It answers a `Result`, whose one refusal is NOMEM.
#[macro_export]
macro_rules! property {
    (in $alloc:expr; $key:expr, Id, $value:expr) => {
        $crate::property!(in $alloc; $key, $crate::Value::Id($crate::Id($value.as_raw())))
    };
    (in $alloc:expr; $key:expr, Choice, Enum, Id, $default:expr, $($alternative:expr),+ $(,)?) => {
        match vec![in $alloc; $($crate::Id($alternative.as_raw())),+] {
            Ok(alternatives) => $crate::choice_property!(
                $key,
                Id,
                $crate::ChoiceEnum::Enum {
                    default: $crate::Id($default.as_raw()),
                    alternatives,
                }
            ),
            Err(_) => Err($crate::Errno::NOMEM),
        }
    };
    (in $alloc:expr; $key:expr, Choice, Enum, $kind:ident, $default:expr, $($alternative:expr),+ $(,)?) => {
        match vec![in $alloc; $($alternative),+] {
            Ok(alternatives) => $crate::choice_property!(
                $key,
                $kind,
                $crate::ChoiceEnum::Enum {
                    default: $default,
                    alternatives,
                }
            ),
            Err(_) => Err($crate::Errno::NOMEM),
        }
    };
    (in $alloc:expr; $key:expr, Choice, Flags, $kind:ident, $default:expr, $($flag:expr),+ $(,)?) => {
        match vec![in $alloc; $($flag),+] {
            Ok(flags) => $crate::choice_property!(
                $key,
                $kind,
                $crate::ChoiceEnum::Flags {
                    default: $default,
                    flags,
                }
            ),
            Err(_) => Err($crate::Errno::NOMEM),
        }
    };
    (in $alloc:expr; $key:expr, Choice, Step, $kind:ident, $default:expr, $min:expr, $max:expr, $step:expr) => {
        $crate::choice_property!(
            $key,
            $kind,
            $crate::ChoiceEnum::Step {
                default: $default,
                min: $min,
                max: $max,
                step: $step,
            }
        )
    };
    (in $alloc:expr; $key:expr, Choice, Range, $kind:ident, $default:expr, $min:expr, $max:expr) => {
        $crate::choice_property!(
            $key,
            $kind,
            $crate::ChoiceEnum::Range {
                default: $default,
                min: $min,
                max: $max,
            }
        )
    };
    (in $alloc:expr; $key:expr, $form:ident, $value:expr) => {
        $crate::property!(in $alloc; $key, $crate::Value::$form($value))
    };
    (in $alloc:expr; $key:expr, $value:expr) => {
        Ok::<$crate::Property, $crate::Errno>($crate::Property::new($key.as_raw(), $value))
    };
}

/// A property with a choice without flags.
#[doc(hidden)]
#[macro_export]
macro_rules! choice_property {
    ($key:expr, $kind:ident, $values:expr) => {
        Ok::<$crate::Property, $crate::Errno>($crate::Property::new(
            $key.as_raw(),
            $crate::Value::Choice($crate::ChoiceValue::$kind($crate::Choice(
                $crate::no_flags(),
                $values,
            ))),
        ))
    };
}

/// An object: `object!(in alloc; type, id, properties..)`, where `alloc` is the allocator of its list of properties. The type
/// and the id are of types with a method `as_raw`, such as `Id`. Each property, of which there may be none, is a
/// `Property`: write a `?` behind each `property!`.
///
/// It answers a `Result`, whose one refusal is NOMEM. The properties are made in their order, and each is appended once it is
/// made; where there is no memory for one, those behind it aren't made.
#[macro_export]
macro_rules! object {
    (in $alloc:expr; $type_:expr, $id:expr $(,)?) => {{
        let properties = $crate::HeldProperties::new($alloc);
        $crate::object_of!(properties; $type_, $id)
    }};
    (in $alloc:expr; $type_:expr, $id:expr $(, $property:expr)+ $(,)?) => {{
        let mut properties = $crate::HeldProperties::new($alloc);
        $crate::object_of!(properties; $type_, $id $(, $property)+)
    }};
}

/// An object of the properties in a list, and of further ones that are appended to it.
// Each property is handed over as soon as it is made, so that only the list is left to drop where the next one is refused. Properties
// in n variables would be dropped at n places, and the proof of the caller would grow with the square of n.
#[doc(hidden)]
#[macro_export]
macro_rules! object_of {
    ($properties:ident; $type_:expr, $id:expr) => {
        Ok::<$crate::Object, $crate::Errno>($properties.into_object($type_.as_raw(), $id.as_raw()))
    };
    ($properties:ident; $type_:expr, $id:expr, $property:expr $(, $more:expr)*) => {
        match $properties.put($property) {
            Ok(()) => $crate::object_of!($properties; $type_, $id $(, $more)*),
            Err(why) => {
                drop($properties);
                Err(why)
            }
        }
    };
}
