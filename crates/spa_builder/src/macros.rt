//! Makes several calls of a builder in one expression.

/// Adds a value, or a struct, an object, an array or a choice with its contents, by several calls of the builder:
///
/// `None`, `Bool(v)`, `Id(v)`, `Int(v)`, `Long(v)`, `Float(v)`, `Double(v)`, `String(v)`, `Bytes(v)`,
/// `Pointer(type, v)`, `Fd(v)`, `Rectangle(v)`, `Fraction(v)`, `Array(v)` of a slice of elements, `Value(v)` of a reference
/// to a `Value`, `Pod(v)` of a view; `Array { .. }`, `Range { .. }`, `Step { .. }`, `Enum { .. }`, `Flags { .. }` and
/// `Choice(shape, flags) { .. }` of forms of fixed size, a choice's default first, `Struct { .. }` of any forms, and
/// `Object(type, id) { key => form, key, flags => form, .. }`, whose properties have no flags where none are given.
///
/// It answers `Ok(())`, or the first refusal. The calls before the refused one keep their effect, and the pods that they opened
/// stay open: `abandon` gives them up.
#[macro_export]
macro_rules! builder_add {
    ($builder:expr, None) => {
        $builder.add_none()
    };
    ($builder:expr, Bool($value:expr)) => {
        $builder.add_bool($value)
    };
    ($builder:expr, Id($value:expr)) => {
        $builder.add_id($value)
    };
    ($builder:expr, Int($value:expr)) => {
        $builder.add_int($value)
    };
    ($builder:expr, Long($value:expr)) => {
        $builder.add_long($value)
    };
    ($builder:expr, Float($value:expr)) => {
        $builder.add_float($value)
    };
    ($builder:expr, Double($value:expr)) => {
        $builder.add_double($value)
    };
    ($builder:expr, String($value:expr)) => {
        $builder.add_string($value)
    };
    ($builder:expr, Bytes($value:expr)) => {
        $builder.add_bytes($value)
    };
    ($builder:expr, Pointer($type_:expr, $value:expr)) => {
        $builder.add_pointer($type_, $value)
    };
    ($builder:expr, Fd($value:expr)) => {
        $builder.add_fd($value)
    };
    ($builder:expr, Rectangle($value:expr)) => {
        $builder.add_rectangle($value)
    };
    ($builder:expr, Fraction($value:expr)) => {
        $builder.add_fraction($value)
    };
    ($builder:expr, Value($value:expr)) => {
        $builder.add_value($value)
    };
    ($builder:expr, Pod($pod:expr)) => {
        $builder.add_pod($pod)
    };
    ($builder:expr, Array($values:expr)) => {
        $builder.add_array_of($values)
    };
    ($builder:expr, Array { $($elements:tt)* }) => {
        match $builder.push_array() {
            Ok(frame) => $crate::builder_members!($builder, frame, $($elements)*),
            Err(refusal) => Err(refusal),
        }
    };
    ($builder:expr, Choice($choice:expr)) => {
        $builder.add_choice($choice)
    };
    ($builder:expr, Choice($shape:expr, $flags:expr $(,)?) { $($values:tt)* }) => {
        match $builder.push_choice($shape, $flags) {
            Ok(frame) => $crate::builder_members!($builder, frame, $($values)*),
            Err(refusal) => Err(refusal),
        }
    };
    ($builder:expr, Range { $($values:tt)* }) => {
        $crate::builder_add!($builder, Choice($crate::RANGE_SHAPE, 0) { $($values)* })
    };
    ($builder:expr, Step { $($values:tt)* }) => {
        $crate::builder_add!($builder, Choice($crate::STEP_SHAPE, 0) { $($values)* })
    };
    ($builder:expr, Enum { $($values:tt)* }) => {
        $crate::builder_add!($builder, Choice($crate::ENUM_SHAPE, 0) { $($values)* })
    };
    ($builder:expr, Flags { $($values:tt)* }) => {
        $crate::builder_add!($builder, Choice($crate::FLAGS_SHAPE, 0) { $($values)* })
    };
    ($builder:expr, Struct { $($members:tt)* }) => {
        match $builder.push_struct() {
            Ok(frame) => $crate::builder_members!($builder, frame, $($members)*),
            Err(refusal) => Err(refusal),
        }
    };
    ($builder:expr, Object($type_:expr, $id:expr $(,)?) { $($properties:tt)* }) => {
        match $builder.push_object($type_, $id) {
            Ok(frame) => $crate::builder_properties!($builder, frame, $($properties)*),
            Err(refusal) => Err(refusal),
        }
    };
}

/// Adds the members of a struct, an array or a choice one by one, and closes it.
#[doc(hidden)]
#[macro_export]
macro_rules! builder_members {
    ($builder:expr, $frame:expr,) => {
        $builder.pop($frame)
    };
    ($builder:expr, $frame:expr, None $(, $($rest:tt)*)?) => {
        match $builder.add_none() {
            Ok(()) => $crate::builder_members!($builder, $frame, $($($rest)*)?),
            Err(refusal) => Err(refusal),
        }
    };
    ($builder:expr, $frame:expr, $form:ident $inner:tt $(, $($rest:tt)*)?) => {
        match $crate::builder_add!($builder, $form $inner) {
            Ok(()) => $crate::builder_members!($builder, $frame, $($($rest)*)?),
            Err(refusal) => Err(refusal),
        }
    };
    ($builder:expr, $frame:expr, $form:ident $head:tt $body:tt $(, $($rest:tt)*)?) => {
        match $crate::builder_add!($builder, $form $head $body) {
            Ok(()) => $crate::builder_members!($builder, $frame, $($($rest)*)?),
            Err(refusal) => Err(refusal),
        }
    };
}

/// Adds the properties of an object one by one, and closes it.
#[doc(hidden)]
#[macro_export]
macro_rules! builder_properties {
    ($builder:expr, $frame:expr,) => {
        $builder.pop($frame)
    };
    ($builder:expr, $frame:expr, $key:expr => $($rest:tt)*) => {
        match $builder.add_prop($key, 0) {
            Ok(()) => $crate::builder_property!($builder, $frame, $($rest)*),
            Err(refusal) => Err(refusal),
        }
    };
    ($builder:expr, $frame:expr, $key:expr, $flags:expr => $($rest:tt)*) => {
        match $builder.add_prop($key, $flags) {
            Ok(()) => $crate::builder_property!($builder, $frame, $($rest)*),
            Err(refusal) => Err(refusal),
        }
    };
}

/// Adds the value of a property, and the properties behind it.
#[doc(hidden)]
#[macro_export]
macro_rules! builder_property {
    ($builder:expr, $frame:expr, None $(, $($rest:tt)*)?) => {
        match $builder.add_none() {
            Ok(()) => $crate::builder_properties!($builder, $frame, $($($rest)*)?),
            Err(refusal) => Err(refusal),
        }
    };
    ($builder:expr, $frame:expr, $form:ident $inner:tt $(, $($rest:tt)*)?) => {
        match $crate::builder_add!($builder, $form $inner) {
            Ok(()) => $crate::builder_properties!($builder, $frame, $($($rest)*)?),
            Err(refusal) => Err(refusal),
        }
    };
    ($builder:expr, $frame:expr, $form:ident $head:tt $body:tt $(, $($rest:tt)*)?) => {
        match $crate::builder_add!($builder, $form $head $body) {
            Ok(()) => $crate::builder_properties!($builder, $frame, $($($rest)*)?),
            Err(refusal) => Err(refusal),
        }
    };
}
