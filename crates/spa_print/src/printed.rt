//! A value that is printed by a loop.
ghost use Rattle.std.specs.Prelude.{◌≡◌};

use crate::left::begin_printing;
use spa_value::Value;
use std::alloc::Global;
use std::fmt;

/// A value that is printed by a loop: `{:?}` of it gives the text of `{:?}` of the value, in one line, whatever options are given.
///
/// `{:?}` of a value can't answer that memory ran out, and so calls itself for each level of nesting. This takes memory for each
/// level from its allocator, and is refused as `fmt::Error` where that memory or the printer is refused.
#[derive(Clone, Copy)]
pub struct Printed<'a> {
    alloc: Global,
    value: &'a Value,
}

impl<'a> Printed<'a> {
    /// This value, printed with memory of this allocator.
    pub fn new(alloc: Global, value: &'a Value) -> Printed<'a> {
        Printed { alloc, value }
    }
}

impl fmt::Debug for Printed<'_> {
    fn fmt<W: fmt::Write>(&self, f: &mut fmt::Formatter<W>) -> fmt::Result {
        let Some(outermost) = begin_printing(f, self.value)? else {
            return Ok(());
        };
        let mut outer = Vec::new(self.alloc);
        let mut inner = outermost;
        loop {
            match inner.print_on(f)? {
                Some(inside) => {
                    if outer.push(inside.behind).is_err() {
                        return Err(fmt::Error);
                    }
                    inner = inside.inner;
                }
                None => {
                    let Some(left) = outer.pop() else {
                        return Ok(());
                    };
                    left.part(f)?;
                    inner = left;
                }
            }
        }
    }
}
