//! The text of a string's view.
ghost use Rattle.std.specs.Prelude.{◌≡◌, IfErr, IfOk, OnOk};
ghost use Rattle.spa_parser.specs.Steps.{IsTextPod, SaysString};
ghost use Rattle.spa_view.specs.View.{pod_bytes};

use spa_utils::Errno;
use spa_view::Pod;
use std::str;

/// The text of a String: the bytes before its first NUL. INVAL where the pod isn't one, doesn't end in NUL, or these bytes
/// aren't UTF-8.
pub(crate) fn text_of<'d>(pod: &Pod<'d>) -> Result<&'d str, Errno>
    ensures ok { OnOk result (IsTextPod (pod_bytes pod.now)) }
    ensures said { IfOk result (λ text. SaysString text.now (pod_bytes pod.now)) }
    ensures refused { IfErr result (λ e. (¬ (IsTextPod (pod_bytes pod.now))) × (e ≡ Errno.INVAL)) }
{
    let bytes = pod.get_string_raw()?;
    match str::from_utf8(bytes) {
        Ok(text) => Ok(text),
        Err(_) => Err(Errno::INVAL),
    }
}
