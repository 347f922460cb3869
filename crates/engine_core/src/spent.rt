//! Identifiers above the limit.
ghost use Rattle.std.specs.Prelude.{◌≡◌, ◌<◌, ◌≤◌, IfOk, IfErr};
ghost use Rattle.op_law.specs.Calls.{first_refused};

use id_memory::IdCounter;
use par_base::{Fault, IdsSpent, Refusal};

/// The counter after a statement's own identifiers, or the refusal where one of them is above the
/// limit.
pub fn counter_at(ids: &IdCounter, next: u64) -> Result<IdCounter, Fault<Refusal>>
    requires { ids.now.next ≤ next }
    ensures ok { IfOk result (λ new. (new ≡ record ids.now { next = next })
        × (next ≤ first_refused ids.now)) }
    ensures err { IfErr result (λ fault. (first_refused ids.now < next)
        × (fault ≡ Fault.Refused (Refusal.IdsSpent (first_refused ids.now) ids.now.limit))) }
{
    let limit = ids.limit();
    let first = ids.next().max(limit + 1);
    if next > first {
        return Err(IdsSpent {
            needed: first,
            limit,
        }
        .refused());
    }
    Ok(IdCounter::new(next, limit))
}
