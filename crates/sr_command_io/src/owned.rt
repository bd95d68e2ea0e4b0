//! Values that are owned while a call may fail. These functions are generic in them, so that no proof goes through their drop code: over each `?`
//! the checker would go through that of each value that is alive there.

/// What a call answers, beside a value that is alive over it. Where the call fails the value is let go.
pub fn beside<T, E, V: Drop>(outcome: Result<T, E>, value: V) -> Result<(T, V), E> {
    match outcome {
        Ok(own) => Ok((own, value)),
        Err(error) => Err(error),
    }
}

/// A value beside another one, if there is the first. Else the other one is let go.
pub fn both<T, V: Drop>(own: Option<T>, value: V) -> Option<(T, V)> {
    match own {
        Some(own) => Some((own, value)),
        None => None,
    }
}
