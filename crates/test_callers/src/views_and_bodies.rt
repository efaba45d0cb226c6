//! What may be done with a body once its view is no longer used. The edits in `refused/` use the view once more after
//! it, and `tools/gate/refused.py` shows that the borrow checker rejects them.

use fe2o3_sasl_wire::{Error, FrameView, view_frame};

/// Returns whether a body begins with an outcome, and empties it.
fn changed_body(body: &mut Vec<u8>) -> Result<bool, Error> {
    let (view, _) = view_frame(body.as_slice())?;
    let found = matches!(view, FrameView::Outcome { .. });
    body.clear();
    Ok(found)
}

/// Returns whether a body begins with an outcome, and drops it.
fn dropped_body(body: Vec<u8>) -> Result<bool, Error> {
    let (view, _) = view_frame(body.as_slice())?;
    let found = matches!(view, FrameView::Outcome { .. });
    drop(body);
    Ok(found)
}

#[test]
fn a_body_is_free_behind_its_view(rt: HostRuntime) {
    let body = hex::decode(rt.alloc(), "02010000005344c003015000").expect(&rt, "digits");
    let mut copy = body.clone().expect(&rt, "memory");
    assert!(rt; changed_body(&mut copy) == Ok(true) && copy.is_empty());
    assert!(rt; dropped_body(body) == Ok(true));
}
