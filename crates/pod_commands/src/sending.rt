//! Where what is made is written to.
ghost use Rattle.std.specs.Prelude.{◌≡◌, IfErr, IfOk, OnErr, OnOk};
ghost use Rattle.pod_commands.specs.Answers.{Begins, Gets, IsUntouched, IsUnwritten, outlet};
ghost use Rattle.pod_commands.specs.Sending.{IsSent};
ghost use Rattle.pod_commands.specs.declared.answer.Answer.TheVariants.{Refused};

use crate::answer::{Answer, Failure};
use crate::files::Files;
use spa_text_commands::output::write_whole;
use std::io::Write;

/// Writes what was made: the file of this name, or without one the device, which is flushed.
pub(crate) fn send<'a, S: Files, W: Write + Drop>(
    files: &mut S,
    target: Option<&'a str>,
    device: W,
    made: &[u8],
) -> (Result<(), Failure<'a>>, W)
    ensures sent { OnOk result.0 (Gets target.entry
        (outlet target.entry (W.contents device) (W.contents result.1) (S.holds files.old) (S.holds files.new))
        made.now) }
    ensures begun { OnErr result.0 (Begins target.entry
        (outlet target.entry (W.contents device) (W.contents result.1) (S.holds files.old) (S.holds files.new))
        made.now) }
    ensures cause { IfErr result.0 IsUnwritten }
{
    match target {
        None => {
            let (taken, device) = write_whole(device, made);
            match taken {
                Ok(()) => (Ok(()), device),
                Err(_) => (Err(Failure::Unwritten(None)), device),
            }
        }
        Some(name) => match files.write_file(name, made) {
            Ok(()) => (Ok(()), device),
            Err(_) => (Err(Failure::Unwritten(Some(name))), device),
        },
    }
}

/// Writes what was made, if it was, and answers this, or why that wasn't done.
pub(crate) fn answered<'a, S: Files, W: Write + Drop>(
    files: &mut S,
    target: Option<&'a str>,
    device: W,
    made: Result<Vec<u8>, Failure<'a>>,
    done: Answer<'a>,
) -> (Answer<'a>, W)
    ensures made { IfOk made.entry (λ bytes. IsSent bytes.items done.entry result.0
        (outlet target.entry (W.contents device) (W.contents result.1) (S.holds files.old) (S.holds files.new))) }
    ensures refused { IfErr made.entry (λ why. (result.0 ≡ Refused why) × IsUntouched
        (outlet target.entry (W.contents device) (W.contents result.1) (S.holds files.old) (S.holds files.new))) }
{
    let made = match made {
        Ok(made) => made,
        Err(why) => return (Answer::Refused(why), device),
    };
    let (sent, device) = send(files, target, device, made.as_slice());
    match sent {
        Ok(()) => (done, device),
        Err(why) => (Answer::Refused(why), device),
    }
}
