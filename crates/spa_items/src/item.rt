//! An item: the flat form of a pod, of an element or of a value.

/// The item of a pod, of an element of an array, or of a value of a choice.
#[repr(C)]
#[derive(Clone, Copy, Debug, PartialEq, Eq)]
pub struct Item {
    /// Its type number.
    pub type_: u32,
    /// The key of the property whose value it is, or 0.
    pub key: u32,
    /// The flags of that property, or 0.
    pub flags: u32,
    /// The type of an array's elements, or of a choice's values; of any other pod 0.
    pub child: u32,
    /// The flags of a choice; of any other pod 0.
    pub choice_flags: u32,
    /// 0.
    pub reserved: u32,
    /// How many structs, objects, arrays and choices it is nested in.
    pub depth: usize,
    /// The byte of the input at which the pod, the element or the value begins.
    pub at: usize,
    /// A number, its bits, an Id, a width, a numerator; 1 for true; the type of a pointer or an object; a choice's shape; the byte at which a
    /// text, bytes, a bitmap or the elements of an array begin.
    pub first: u64,
    /// A height, a denominator, an address, an object's id; how many bytes a text has without its NUL, how many bytes there are, how many elements
    /// or values follow.
    pub second: u64,
}

/// The two numbers of an item.
#[derive(Clone, Copy)]
pub(crate) struct Content {
    pub(crate) first: u64,
    pub(crate) second: u64,
}
