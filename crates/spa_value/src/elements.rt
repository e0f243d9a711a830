//! Compares lists of elements.
ghost use Rattle.std.specs.Prelude.{◌≡◌, length};
ghost use Rattle.std.specs.Cmp.Lexicographic.{pointwise};

/// How many elements are compared before a branch on the outcome: the compiler makes vector instructions of a block.
const BLOCK_COUNT: usize = 128;

/// Whether two lists are of one length and equal element by element, by `==` of the elements.
#[inline(always)]
pub(crate) fn same_elements<T: PartialEq>(elements: &Vec<T>, others: &Vec<T>) -> bool
    ensures { result ≡ pointwise T.eq elements.now.items others.now.items }
{
    same_slices(elements.as_slice(), others.as_slice())
}

/// Whether two lists of truth values, or of integers, are of one length and equal element by element.
// Plain Rust compares slices of these by their bytes, and slices of structs, such as ids, element by element.
#[inline(always)]
pub(crate) fn same_numbers<T: PartialEq>(numbers: &Vec<T>, others: &Vec<T>) -> bool
    ensures { result ≡ pointwise T.eq numbers.now.items others.now.items }
{
    numbers.as_slice() == others.as_slice()
}

/// Whether two slices are of one length and equal element by element, by `==` of the elements.
#[inline(always)]
fn same_slices<T: PartialEq>(elements: &[T], others: &[T]) -> bool
    ensures { result ≡ pointwise T.eq elements.now others.now }
{
    if elements.len() != others.len() {
        return false;
    }
    let mut left = elements;
    let mut others_left = others;
    while left.len() >= BLOCK_COUNT {
        let (block, behind) = left.split_at(BLOCK_COUNT);
        let (other, others_behind) = others_left.split_at(BLOCK_COUNT);
        if !same_block(block, other) {
            return false;
        }
        left = behind;
        others_left = others_behind;
    }
    left == others_left
}

/// Whether two blocks of `BLOCK_COUNT` elements are equal element by element.
#[inline(always)]
fn same_block<T: PartialEq>(block: &[T], other: &[T]) -> bool
    requires len { length block.now ≡ BLOCK_COUNT }
    requires other_len { length other.now ≡ BLOCK_COUNT }
    ensures { result ≡ pointwise T.eq block.now other.now }
{
    let mut is_same = true;
    for place in 0..BLOCK_COUNT {
        is_same &= block[place] == other[place];
    }
    is_same
}
