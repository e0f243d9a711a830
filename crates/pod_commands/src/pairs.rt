//! Two inputs compared, and two objects on which is agreed.
ghost use Rattle.std.specs.Prelude.{◌≡◌, ◌≢◌, [], IfErr, IfOk};
ghost use Rattle.spa_text_commands.specs.Differences.{Differ, SayTheSame};
ghost use Rattle.pod_commands.specs.Answers.{AgreeTwo, AgreesOne, AreNotCompared, AreTwoApart, AreTwoUnread, IsOneApart};
ghost use Rattle.pod_commands.specs.Inputs.{AreBoth, OfTwo};

use crate::answer::Failure;
use crate::files::{Files, Inputs};
use crate::reading::read_pods;
use crate::refusing::either_refused;
use spa_meet_commands::lists::of_lists;
use spa_meet_commands::pair::{Work, of_pair};
use spa_meet_commands::progress::Progress;
use spa_recordings::reading::Reading;
use spa_text_commands::comparing::{Comparison, differences};
use std::alloc::Global;
use std::io::Read;

/// The names of two inputs.
#[derive(Clone, Copy)]
pub(crate) struct Two<'a> {
    pub(crate) ours: &'a str,
    pub(crate) theirs: &'a str,
}

/// The lines of text that differ of the pods as which two inputs are read: none where these say the same values.
#[tactic(auto, using(crate::proofs::Unread::of_both))]
pub(crate) fn compare<'a, R: Read, S: Files>(
    alloc: Global,
    comparison: Comparison,
    reading: Reading,
    names: Two<'a>,
    inputs: Inputs<'_, R, S>,
) -> Result<Vec<u8>, Failure<'a>>
    ensures same { IfOk result (λ lines. lines.items ≡ [] →
        OfTwo reading (R.remaining inputs.entry.input.now) (S.holds inputs.entry.files.now) names.entry.ours.now names.entry.theirs.now (SayTheSame comparison)) }
    ensures other { IfOk result (λ lines. lines.items ≢ [] →
        OfTwo reading (R.remaining inputs.entry.input.now) (S.holds inputs.entry.files.now) names.entry.ours.now names.entry.theirs.now (Differ comparison lines.items)) }
    ensures refused { IfErr result
        (AreNotCompared reading (R.remaining inputs.entry.input.now) (S.holds inputs.entry.files.now) names.entry.ours.now names.entry.theirs.now) }
{
    let (first, second) = match read_both(alloc, reading, names, inputs) {
        Ok(both) => both,
        Err(why) => return Err(why),
    };
    match differences(alloc, comparison, first.as_slice(), second.as_slice()) {
        Ok(lines) => Ok(lines),
        // What is read leniently is refused for lack of memory alone.
        Err(_) => Err(either_refused(
            alloc,
            names.ours,
            names.theirs,
            first.as_slice(),
            second.as_slice(),
        )),
    }
}

/// The encoding of the object on which the two agree as which an input is read.
#[tactic(auto, using(crate::proofs::Unread::of_one))]
pub(crate) fn agree<'a, R: Read, S: Files>(
    alloc: Global,
    work: Work,
    reading: Reading,
    name: &'a str,
    inputs: Inputs<'_, R, S>,
) -> Result<Vec<u8>, Failure<'a>>
    ensures made { IfOk result
        (λ met. AgreesOne work reading (R.remaining inputs.entry.input.now) (S.holds inputs.entry.files.now) name.entry.now met.items) }
    ensures refused { IfErr result (IsOneApart work reading (R.remaining inputs.entry.input.now) (S.holds inputs.entry.files.now) name.entry.now) }
{
    let pods = match read_pods(alloc, reading, name, inputs) {
        Ok(pods) => pods,
        Err(why) => return Err(why),
    };
    match of_pair(alloc, work, pods.as_slice()) {
        Ok(met) => Ok(met),
        Err(why) => Err(Failure::Pair(name, why)),
    }
}

/// The encoding of the object on which the first pair agrees of two lists, as which two inputs are read.
#[tactic(auto, using(crate::proofs::Unread::of_both))]
pub(crate) fn agree_of_lists<'a, R: Read, S: Files, P: Progress>(
    alloc: Global,
    work: Work,
    reading: Reading,
    names: Two<'a>,
    inputs: Inputs<'_, R, S>,
    progress: &mut P,
) -> Result<Vec<u8>, Failure<'a>>
    ensures made { IfOk result
        (λ met. AgreeTwo work reading (R.remaining inputs.entry.input.now) (S.holds inputs.entry.files.now) names.entry.ours.now names.entry.theirs.now met.items) }
    ensures refused { IfErr result
        (AreTwoApart work reading (R.remaining inputs.entry.input.now) (S.holds inputs.entry.files.now) names.entry.ours.now names.entry.theirs.now) }
{
    let (first, second) = match read_both(alloc, reading, names, inputs) {
        Ok(both) => both,
        Err(why) => return Err(why),
    };
    match of_lists(alloc, work, first.as_slice(), second.as_slice(), progress) {
        Ok(met) => Ok(met),
        Err(why) => Err(Failure::Lists(names.ours, names.theirs, why)),
    }
}

/// The pods as which two inputs are read.
#[tactic(auto, using(crate::proofs::Unread::known_read))]
fn read_both<'a, R: Read, S: Files>(
    alloc: Global,
    reading: Reading,
    names: Two<'a>,
    inputs: Inputs<'_, R, S>,
) -> Result<(Vec<u8>, Vec<u8>), Failure<'a>>
    ensures both { IfOk result (λ both.
        AreBoth reading (R.remaining inputs.entry.input.now) (S.holds inputs.entry.files.now) names.entry.ours.now names.entry.theirs.now both.0.items both.1.items) }
    ensures refused { IfErr result
        (AreTwoUnread reading (R.remaining inputs.entry.input.now) (S.holds inputs.entry.files.now) names.entry.ours.now names.entry.theirs.now) }
{
    let Inputs { input, files } = inputs;
    let first = match read_pods(alloc, reading, names.ours, Inputs { input, files }) {
        Ok(pods) => pods,
        Err(why) => return Err(why),
    };
    let second = match read_pods(alloc, reading, names.theirs, Inputs { input, files }) {
        Ok(pods) => pods,
        Err(why) => return Err(why),
    };
    Ok((first, second))
}
