//! Opens and closes pods whose size is written after their body.
ghost use Rattle.std.specs.Prelude.{◌≡◌, ℕ, ◌+◌, ◌≤◌, ◌++◌, IfErr, IfOk, OnErr, OnOk, length, take};
ghost use Rattle.spa_sink.specs.declared.gen_error.GenError.TheVariants.{TooLarge};
ghost use Rattle.spa_format.specs.Words.{header_size, size_limit, word_bytes};
ghost use Rattle.spa_bodies.specs.Written.{ClosesPod, IsClosed, IsPastLimit, begun_length};

use spa_bytes::HEADER_LEN;
use spa_sink::{GenError, PodOutput, put_two};

/// Opens a pod of this type at the end of the output, with a size word of 0, and answers the offset at which it begins.
#[inline(always)]
pub fn begin<O: PodOutput>(out: &mut O, type_: u32) -> Result<usize, GenError>
    ensures start { IfOk result (λ start. start ≡ length (O.content out.old)) }
    ensures header { OnOk result (O.appends out.old (word_bytes 0 ++ word_bytes type_) out.new) }
    ensures begun { OnErr result ((count : ℕ)
        × O.appends out.old (take count (word_bytes 0 ++ word_bytes type_)) out.new) }
    ensures cause { IfErr result (λ e. O.refuses out.old header_size out.new e) }
{
    let start = out.len();
    put_two(out, 0, type_)?;
    Ok(start)
}

/// Closes the pod that begins at the offset `start` and ends with the output: writes its size word. Refused only as `TooLarge`, where the size is
/// 4294967296 or more.
#[inline(always)]
pub fn close<O: PodOutput>(out: &mut O, start: usize) -> Result<(), GenError>
    requires { start + header_size ≤ length (O.content out.old) }
    ensures closed { OnOk result (IsClosed O.content O.refuses out.old start out.new) }
    // So the pod that was opened there is whole now, behind the bytes before it,
    ensures pod { OnOk result (ClosesPod O.content O.refuses out.old start out.new) }
    ensures large { IfErr result (λ e. (e ≡ TooLarge) × (size_limit ≤ begun_length (O.content out.old) start)) }
    // or the length of its body doesn't fit 32 bits.
    ensures past { OnErr result (IsPastLimit O.content O.refuses out.old start) }
    ensures unchanged { OnErr result (out.new ≡ out.old) }
{
    let Ok(size) = u32::try_from(out.len() - (start + HEADER_LEN)) else {
        return Err(GenError::TooLarge);
    };
    out.overwrite(start, size.to_le_bytes());
    Ok(())
}
