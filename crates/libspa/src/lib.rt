//! SPA's value format, verified: pods, their values, readers, writers and views, and the small types around them.
//!
//! This crate holds no function of its own. It gives the parts, each of which is a crate, under the paths of libspa.
#![tactic(auto)]

/// Numbers that other parts of PipeWire use.
pub mod constants {
    pub use spa_utils::constants::ID_INVALID;
}

/// Small types: ids, numbers, choices, type numbers, directions and errors.
pub mod utils {
    pub use spa_utils::{
        Choice, ChoiceEnum, ChoiceFlags, Direction, Errno, Fd, Float32, Float64, Fraction, Id,
        Rectangle, SpaTypes,
    };

    /// Dictionaries: lists of pairs of byte strings.
    pub mod dict {
        pub use spa_dict::{
            CIter, DictRef, Flags, Iter, Keys, ParsableValue, ParseValueError, Values,
        };
    }

    /// Result codes: an error, a value, or an answer that comes later.
    pub mod result {
        pub use spa_result::{AsyncSeq, Error, SpaResult, SpaSuccess};
    }
}

/// Pods: values and their rewriting, and borrowed views.
pub mod pod {
    pub use spa_canonical::{Rejected, all_nest_within, nests_within};
    pub use spa_fixed_sized::{CanonicalFixedSizedPod, ChoiceElement, FixedSizedPod};
    pub use spa_format::{laws, view_laws};
    pub use spa_lenient::{
        rewrite_all_leniently, rewrite_in_place_leniently, rewrite_into_leniently,
        rewrite_leniently,
    };
    pub use spa_print::Printed;
    pub use spa_rewrite::{
        accept_all, find_fault, is_canonical, rewrite, rewrite_all, rewrite_in_place, rewrite_into,
    };
    pub use spa_utils::Frame;
    pub use spa_value::{
        Bitmap, ChoiceValue, Held, Object, Property, PropertyFlags, Value, ValueArray, discard,
        laws as value_laws, object, property, same,
    };
    pub use spa_view::{
        FixedPod, FromPod, Pod, PodArray, PodChoice, PodElements, PodObject, PodObjectIter,
        PodProp, PodPropFlags, PodStruct, PodStructIter, laws as getter_laws,
    };

    /// Building pods call by call.
    pub mod builder {
        pub use spa_builder::{BuildCall, Builder, builder_add, laws, replay};
    }

    /// Writing values.
    pub mod serialize {
        pub use spa_device::IoSink;
        pub use spa_sink::{GenError, PodOutput, PodSink};
        pub use spa_typed_write::{
            ArrayPodSerializer, ExactSerialize, Maybe, ObjectPodSerializer, PodSerialize,
            PodSerializer, SerializeAs, SerializeMembers, SerializeProperties, SerializeSuccess,
            StructPodSerializer, laws, write_object, write_struct,
        };
        pub use spa_write::{write_sized, write_value};
    }

    /// Reading values.
    pub mod deserialize {
        pub use spa_fixed_sized::{DeserializeError, Fault, FaultKind};
        pub use spa_typed_read::{
            ArrayPodDeserializer, DeserializeAs, DeserializeMembers, DeserializeProperties,
            DeserializeSuccess, ExactDeserialize, Never, ObjectOf, ObjectPodDeserializer, Optional,
            PodDeserialize, PodDeserializer, Required, Settled, Skipped, StructOf,
            StructPodDeserializer, Visit, Visitor, laws,
        };
        pub use spa_visitors::{
            BitmapVisitor, BoolVisitor, BytesVisitor, ChoiceBoolVisitor, ChoiceDoubleVisitor,
            ChoiceFdVisitor, ChoiceFloatVisitor, ChoiceFractionVisitor, ChoiceIdVisitor,
            ChoiceIntVisitor, ChoiceLongVisitor, ChoiceRectangleVisitor, DoubleVisitor, FdVisitor,
            FloatVisitor, FractionVisitor, Handed, HandedVisitor, IdVisitor, IntVisitor,
            LongVisitor, NoneVisitor, PointerVisitor, RectangleVisitor, StringVisitor,
            ValueVisitor, VecVisitor,
        };
    }

    /// Reading pods one by one.
    pub mod parser {
        pub use spa_parser::{Parser, laws, parser_get};
    }
}
