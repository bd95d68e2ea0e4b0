//! Lists that are made item by item, of any type. What is let go on the way is let go as any type is.

ghost use Rattle.std.specs.Prelude.{◌≡◌, ◌<◌, ℕ, IfOk, Ok, map, vec_len, slice_index_or};

use sr_frame::NoMemory;
use std::alloc::Global;

/// The two parts of each item.
pub(crate) fn split_all<X: Drop, A: Drop, B: Drop, S: Fn(X) -> (A, B)>(
    alloc: Global,
    items: Vec<X>,
    split: &S,
) -> Result<(Vec<A>, Vec<B>), NoMemory>
    requires { S.IsAlwaysCallable split.now }
    ensures first { IfOk result (λ r. vec_len r.0 ≡ vec_len items) }
    ensures second { IfOk result (λ r. vec_len r.1 ≡ vec_len items) }
    ensures each { IfOk result (λ r. (i : ℕ) (x : _) (a : _) (b : _) → i < vec_len items
        → S.post split.now (slice_index_or items.items i x)
        (slice_index_or r.0.items i a, slice_index_or r.1.items i b)) }
{
    let mut first = Vec::new(alloc);
    let mut second = Vec::new(alloc);
    for item in items {
        first.reserve(1)?;
        second.reserve(1)?;
        let (a, b) = split(item);
        first.push_reserved(a);
        second.push_reserved(b);
    }
    Ok((first, second))
}

/// What is made of each item and the one at its place in the other list.
pub(crate) fn join_all<A: Drop, B: Drop, X: Drop, J: Fn(A, B) -> X>(
    alloc: Global,
    first: Vec<A>,
    second: Vec<B>,
    join: &J,
) -> Result<Vec<X>, NoMemory>
    requires call { J.IsAlwaysCallable join.now }
    requires len { vec_len first ≡ vec_len second }
    ensures len { IfOk result (λ v. vec_len v ≡ vec_len first) }
    ensures each { IfOk result (λ v. (i : ℕ) (a : _) (b : _) (x : _) → i < vec_len first
        → J.post join.now (slice_index_or first.items i a) (slice_index_or second.items i b)
        (slice_index_or v.items i x)) }
{
    let mut all = Vec::new(alloc);
    let mut others = second.into_iter();
    for a in first {
        if let Err(refused) = all.reserve(1) {
            return Err(refused.into());
        }
        let b = others.next().unwrap();
        all.push_reserved(join(a, b));
    }
    Ok(all)
}

/// What succeeded, where all did; else the first fault.
pub(crate) fn all_of<T: Drop, E: Copy + From<NoMemory> + Drop>(
    alloc: Global,
    outcomes: Vec<Result<T, E>>,
) -> Result<Vec<T>, E>
    ensures len { IfOk result (λ v. vec_len v ≡ vec_len outcomes) }
    ensures all { IfOk result (λ v. outcomes.items ≡ map (λ x. Ok x) v.items) }
{
    let mut all = Vec::new(alloc);
    for outcome in outcomes {
        let one = match outcome {
            Ok(one) => one,
            Err(fault) => return Err(fault),
        };
        if let Err(refused) = all.reserve(1) {
            return Err(NoMemory::from(refused).into());
        }
        all.push_reserved(one);
    }
    Ok(all)
}

/// Both, where both succeeded; else the first fault.
pub(crate) fn both_of<A: Drop, B: Drop, E: From<NoMemory> + Drop>(
    first: Result<A, E>,
    second: Result<B, NoMemory>,
) -> Result<(A, B), E>
    ensures { IfOk result (λ r. first ≡ Ok r.0) }
{
    match first {
        Ok(a) => match second {
            Ok(b) => Ok((a, b)),
            Err(refused) => Err(refused.into()),
        },
        Err(fault) => Err(fault),
    }
}
