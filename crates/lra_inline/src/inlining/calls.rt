//! What a call is but for its callee's body: where that stands, and what comes after it.

ghost use Rattle.std.specs.Prelude.{◌≡◌, ◌≢◌, ◌+◌, ◌≤◌, ◌∷◌, length, Some, slice_get, IfOk};
ghost use Rattle.lra_base.specs.Limits.{greatest_live};
ghost use Rattle.lra_program.specs.ProgramViews.{call_view, function_view, program_view};
ghost use Rattle.lra_inline_steps.specs.Limits.{OnLimit};
ghost use Rattle.lra_inline_steps.specs.Building as building;
ghost use Rattle.lra_inline_steps.specs.Inlining.{CallStands, IsCallWrittenOut, StopsAnywhere, StopsBehind};
ghost use Rattle.lra_inline_steps.specs.{Building.callee_frame, declared.frame.Frame.Frame};

use lra_inline_steps::{Around, Caller, Frame, InlineError, Limit, add_point, finish};
use lra_operations::forms::{CallPlace, enclose_call, enclose_call_for};
use lra_operations::{Node, Path, Site};
use lra_program::{Call, Function, Program, Receiver};

/// The function that the call names.
pub fn callee<'a>(program: &'a Program, call: &Call) -> &'a Function
    requires { (r : Frame) × building.CallStands (program_view program.now) r (call_view call.now) }
    ensures { slice_get (program_view program.now).functions (call_view call.now).function
        ≡ Some (function_view result.now) }
{
    &program.functions[call.function]
}

/// The path of the callee's body, whose value the receiver gets, and where that stands; or that the path may have no
/// call more.
pub fn enter_call(
    around: &Around<'_>,
    receiver: Receiver,
    call: &Call,
) -> Result<(Path, Frame), InlineError>
    requires { around.now.frame.live ≤ greatest_live + 1 }
    ensures path { IfOk result (λ r. r.0 ≡ call.now.label ∷ around.now.path.now) }
    ensures frame { IfOk result (λ r. r.1
        ≡ callee_frame around.now.frame receiver (length (call_view call.now).arguments)) }
    ensures some_left { IfOk result (λ _. around.now.frame.calls_left ≢ 0) }
    ensures limit { OnLimit result (StopsAnywhere around.now (call_view call.now)) }
{
    let frame = around.frame;
    if frame.calls_left == 0 {
        return Err(InlineError::Passed(Limit::Calls(call.label)));
    }
    let path = around.path.with_call(around.alloc, call.label)?;
    let inner = Frame {
        base: frame.live,
        live: frame.live + call.arguments.len(),
        calls_left: frame.calls_left - 1,
        breaks: None,
        continues: None,
        receiver,
        back: Some(frame.live),
    };
    Ok((path, inner))
}

/// A call whose callee's body is written out under this path, with so many variables live after it: the point of its
/// end comes next.
pub fn end_call(
    around: &Around<'_>,
    path: &Path,
    caller: Caller<'_>,
    call: &Call,
    body: (Node, usize),
    sites: &mut Vec<Site>,
) -> Result<Node, InlineError>
    requires few { around.now.frame.live ≤ greatest_live + 1 }
    requires stands { CallStands around.now (call_view call.now) }
    requires within { path.now ≡ call.now.label ∷ around.now.path.now }
    ensures written { IfOk result (IsCallWrittenOut around.now sites.old sites.new caller.entry
        (call_view call.now) body.0 body.1) }
    ensures limit { OnLimit result (StopsBehind around.now sites.old caller.entry.receiver
        (call_view call.now) body.0 body.1) }
{
    let (inside, last) = body;
    let function = callee(around.program, call);
    let end = add_point(around.alloc, path, function.end, last, false, sites)?;
    let place = CallPlace {
        point: caller.point,
        end,
        base: around.frame.base,
        live: around.frame.live,
        receiver: caller.receiver.result_receiver(function.result_type),
    };
    let alloc = around.alloc;
    let types = &function.parameters;
    let arguments = &call.arguments;
    match caller.element {
        None => finish(enclose_call(alloc, place, types, arguments, inside)),
        Some(element) => {
            let whole = enclose_call_for(alloc, place, element, types, arguments, inside);
            finish(whole)
        }
    }
}
