//! Values that are owned while a call may fail. They are of any type here, so that no proof goes through their drop code: over each `?` the
//! checker would go through that of each value that is alive there.

ghost use Rattle.std.specs.Prelude.{◌≡◌, IfOk, Ok};

/// What a call answers, beside a value that is alive over it. Where the call fails the value is let go.
pub(crate) fn beside<T, E, V: Drop>(outcome: Result<T, E>, value: V) -> Result<(T, V), E>
    ensures own { IfOk result (λ r. outcome ≡ Ok r.0) }
    ensures value { IfOk result (λ r. r.1 ≡ value) }
{
    match outcome {
        Ok(own) => Ok((own, value)),
        Err(error) => Err(error),
    }
}
