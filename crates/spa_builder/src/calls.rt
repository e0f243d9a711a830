//! Makes whole lists of calls.
ghost use Rattle.std.specs.Prelude.{◌≡◌, [], IfErr, IfOk, length, vec_capacity};
ghost use Rattle.spa_builder.specs.State.{State, start};
ghost use Rattle.spa_builder.specs.Step.{step};
ghost use Rattle.spa_builder.specs.Fields.{IsAt};
ghost use Rattle.spa_builder.specs.Answers.{Makes};
ghost use Rattle.spa_builder.specs.Replay.{IsReplayed, IsRunning, call_of, calls_of};
ghost use Rattle.spa_utils.specs.declared.errno.TheConstants.Errno.{NOMEM};

use crate::build_call::BuildCall;
use crate::builder::Builder;
use spa_utils::Errno;
use std::mem;

/// Makes one call, with its refusals.
fn apply(builder: &mut Builder, call: &BuildCall<'_>) -> Result<(), Errno>
    ensures { (s : State) → IsAt builder.old s → Makes (step s (call_of call.now)) builder.old builder.new result }
{
    match call {
        BuildCall::AddNone => builder.add_none(),
        BuildCall::AddBool(value) => builder.add_bool(*value),
        BuildCall::AddId(value) => builder.add_id(*value),
        BuildCall::AddInt(value) => builder.add_int(*value),
        BuildCall::AddLong(value) => builder.add_long(*value),
        BuildCall::AddFloat(value) => builder.add_float(*value),
        BuildCall::AddDouble(value) => builder.add_double(*value),
        BuildCall::AddString(value) => builder.add_string(value),
        BuildCall::AddBytes(value) => builder.add_bytes(value),
        BuildCall::AddPointer(type_, address) => builder.add_pointer(*type_, *address),
        BuildCall::AddFd(value) => builder.add_fd(*value),
        BuildCall::AddRectangle(value) => builder.add_rectangle(*value),
        BuildCall::AddFraction(value) => builder.add_fraction(*value),
        BuildCall::AddArray(values) => builder.add_array(values),
        BuildCall::AddProp(key, flags) => builder.add_prop(*key, *flags),
        BuildCall::Pop(frame) => builder.pop(*frame),
        BuildCall::Abandon(frame) => builder.abandon(*frame),
        BuildCall::PushArray => {
            builder.push_array()?;
            Ok(())
        }
        BuildCall::PushChoice(kind, flags) => {
            builder.push_choice(*kind, *flags)?;
            Ok(())
        }
        BuildCall::PushStruct => {
            builder.push_struct()?;
            Ok(())
        }
        BuildCall::PushObject(type_, id) => {
            builder.push_object(*type_, *id)?;
            Ok(())
        }
    }
}

/// Makes the calls on a new builder over the vector `held`, and gives the answer of each, in order; a frame is answered as
/// `Ok(())`. Refused as NOMEM where there is no memory for the answers: the vector stays as it was.
pub fn replay(held: &mut Vec<u8>, calls: &[BuildCall<'_>]) -> Result<Vec<Result<(), Errno>>, Errno>
    // Each answer is that of the model's step after the calls that were accepted before it, or want of
    // memory where that step accepts the call; and the vector has the bytes that the accepted calls build.
    ensures run { IfOk result (λ answers. IsReplayed (calls_of calls.now) answers.items held.new.items) }
    ensures memory { IfErr result (λ e. e ≡ NOMEM) }
    ensures kept { IfErr result (λ e. held.new.items ≡ held.old.items) }
{
    let alloc = *held.allocator();
    let Ok(mut answers) = Vec::with_capacity(alloc, calls.len()) else {
        return Err(Errno::NOMEM);
    };
    let mut builder = Builder::new(mem::replace(held, Vec::new(alloc)));
    run(&mut builder, calls, &mut answers);
    *held = builder.into_inner();
    Ok(answers)
}

/// Makes the calls, and appends their answers, for which there is room.
fn run(builder: &mut Builder, calls: &[BuildCall<'_>], answers: &mut Vec<Result<(), Errno>>)
    requires start { IsAt builder.old start }
    requires none { answers.old.items ≡ [] }
    requires room { vec_capacity answers.old ≡ length calls.now }
    ensures { IsRunning (calls_of calls.now) answers.new.items builder.new }
{
    for call in calls {
        let answer = apply(builder, call);
        if answers.push(answer).is_err() {
            unreachable!();
        }
    }
}
